//! A script that is read job by job.
ghost use Rattle.std.specs.Prelude.{◌≡◌, ◌==◌, [], Some, None, Err, IfOk, IfSome, MatchResult};
ghost use Rattle.fsfs_base.specs.Counts.{HasCause};
ghost use Rattle.fsfs_script.specs.Places.{place_of};
ghost use Rattle.fsfs_script.specs.Errors.{IfReadFault};
ghost use Rattle.fsfs_script.specs.Jobs.{ReadsNext, room_after};

use crate::Job;
use crate::ahead::Ahead;
use crate::script_error::ScriptError;
use fsfs_base::Source;
use std::alloc::{AllocError, Global};

/// How many jobs a script may have.
pub const MAX_JOBS: u64 = 4096;

/// A script: its source, what was read of it ahead, and how many jobs more may come.
#[derive(Drop)]
pub struct Script<S: Source + Drop> {
    source: S,
    ahead: Ahead,
    room: u64,
    stopped: Option<ScriptError>,
}

impl<S: Source + Drop> Script<S> {
    /// The script that the source holds, of which nothing was read yet.
    pub fn new(alloc: Global, source: S) -> Result<Script<S>, AllocError>
        ensures source { IfOk result (λ script. script.source ≡ source) }
        ensures ahead { IfOk result (λ script. script.ahead ≡ record { line = 1; bytes = [] }) }
        ensures room { IfOk result (λ script. script.room ≡ 4096) }
        ensures goes_on { IfOk result (λ script. script.stopped ≡ None) }
    {
        Ok(Script {
            source,
            ahead: Ahead::new(alloc)?,
            room: MAX_JOBS,
            stopped: None,
        })
    }

    // The next job of a script that has not stopped.
    fn next_job(&mut self, alloc: Global) -> Result<Option<Job>, ScriptError>
        ensures given { ReadsNext (self.old.room == 0) (place_of (S.remaining self.old.source) self.old.ahead) (place_of (S.remaining self.new.source) self.new.ahead) result }
        ensures room { IfOk result (λ job. self.new.room ≡ room_after job self.old.room) }
        ensures stopped { self.new.stopped ≡ self.old.stopped }
        ensures cause { HasCause IfReadFault (S.faults self.old.source) (S.faults self.new.source) result }
    {
        let is_full = self.room == 0;
        match self.ahead.next_job(alloc, &mut self.source, is_full)? {
            None => Ok(None),
            Some(job) => {
                self.room = self.room.saturating_sub(1);
                Ok(Some(job))
            }
        }
    }

    /// The next job; none where only empty lines are left.
    ///
    /// A script that was refused, or could not be read, has stopped: the same error comes from then on.
    pub fn read_job(&mut self, alloc: Global) -> Result<Option<Job>, ScriptError>
        // Where the source tells its bytes: the job that they begin with behind empty lines, and what is left behind it;
        // or the first refusal, at the line where its command began.
        ensures read { self.old.stopped ≡ None → ReadsNext (self.old.room == 0) (place_of (S.remaining self.old.source) self.old.ahead) (place_of (S.remaining self.new.source) self.new.ahead) result }
        // So many jobs may still come.
        ensures room { IfOk result (λ job. self.new.room ≡ room_after job self.old.room) }
        ensures again { IfSome self.old.stopped (λ error. result ≡ Err error) }
        ensures stopped { MatchResult result (λ job. self.new.stopped ≡ None) (λ error. self.new.stopped ≡ Some error) }
        ensures cause { self.old.stopped ≡ None → HasCause IfReadFault (S.faults self.old.source) (S.faults self.new.source) result }
    {
        if let Some(error) = self.stopped {
            return Err(error);
        }
        match self.next_job(alloc) {
            Ok(job) => Ok(job),
            Err(error) => {
                self.stopped = Some(error);
                Err(error)
            }
        }
    }
}
