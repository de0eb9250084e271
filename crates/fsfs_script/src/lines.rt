//! Lines and texts of a source.
ghost use Rattle.std.specs.Prelude.{◌≡◌, ◌<◌, ◌≤◌, length, IfOk, IfErr, OnOk};
ghost use Rattle.fsfs_base.specs.Counts.{HasCause};
ghost use Rattle.fsfs_script.specs.declared.job_lines.refusal.Refusal.TheVariants.{Bad};
ghost use Rattle.fsfs_script.specs.declared.stop.Stop.TheVariants.{Refused};
ghost use Rattle.fsfs_script.specs.Places.{place_of};
ghost use Rattle.fsfs_script.specs.Errors.{IfRead};
ghost use Rattle.fsfs_script.specs.Reading.{line_at, newline_at, text_at, skipped_at, Reads, Grows, IsTooMuch, TakesFront, IsFrontStop, TakesSome};

use crate::ahead::Ahead;
use crate::stop::Stop;
use crate::{Refusal, Text, Why};
use fsfs_base::cuts::cut_at;
use fsfs_base::{Source, fitting};
use std::alloc::{AllocError, Global};

/// The most bytes that a line may have.
const MAX_LINE: usize = 8192;

fn bad(why: Why) -> Stop
    ensures { result ≡ Refused (Bad why) }
{
    Stop::Refused(Refusal::Bad(why))
}

// Adds bytes to a line.
fn grow(line: &mut Vec<u8>, more: &[u8]) -> Result<(), Stop>
    requires { length line.old.items ≤ 8192 }
    ensures ok { OnOk result (Grows line.old.items more.now line.new.items) }
    ensures err { IfErr result (IsTooMuch line.old.items more.now) }
{
    if more.len() > MAX_LINE - line.len() {
        return Err(bad(Why::LongLine));
    }
    line.extend_from_slice(more)?;
    Ok(())
}

impl Ahead {
    // Adds to a line what is here of it, and answers whether the line ended.
    fn take_front(&mut self, line: &mut Vec<u8>) -> Result<bool, Stop>
        requires { length line.old.items ≤ 8192 }
        ensures taken { IfOk result (TakesFront line.old.items line.new.items self.old self.new) }
        ensures refused { IfErr result (IsFrontStop line.old.items self.old) }
    {
        let bytes = self.as_slice();
        match cut_at(b'\n', bytes) {
            None => {
                let count = bytes.len();
                grow(line, bytes)?;
                self.pass(count)?;
                Ok(false)
            }
            Some((end, _)) => {
                let count = end.len() + 1;
                grow(line, end)?;
                self.pass(count)?;
                Ok(true)
            }
        }
    }

    /// The line that begins here, without its end.
    pub(crate) fn take_line<S: Source>(
        &mut self,
        alloc: Global,
        source: &mut S,
    ) -> Result<Vec<u8>, Stop>
        ensures given { Reads (λ line. line.items) line_at (place_of (S.remaining source.old) self.old) (place_of (S.remaining source.new) self.new) result }
        ensures cause { HasCause IfRead (S.faults source.old) (S.faults source.new) result }
    {
        let mut line = Vec::new(alloc);
        'pieces: loop {
            if !self.fill(source)? {
                return Err(bad(Why::Short));
            }
            if self.take_front(&mut line)? {
                return Ok(line);
            }
        }
    }

    // Adds to a text what is here of it.
    fn take_some(&mut self, text: &mut Vec<u8>, count: u64) -> Result<(), AllocError>
        requires here { 0 < length self.old.bytes }
        requires wanted { length text.old.items < count }
        ensures { OnOk result (TakesSome count text.old.items text.new.items self.old self.new) }
    {
        let bytes = self.as_slice();
        let some = fitting(bytes.len(), count - text.len() as u64);
        text.extend_from_slice(&bytes[..some])?;
        self.pass(some)?;
        Ok(())
    }

    // The newline that stands here.
    fn take_newline<S: Source>(&mut self, source: &mut S) -> Result<(), Stop>
        ensures given { Reads (λ _. tt) newline_at (place_of (S.remaining source.old) self.old) (place_of (S.remaining source.new) self.new) result }
        ensures cause { HasCause IfRead (S.faults source.old) (S.faults source.new) result }
    {
        if !self.fill(source)? {
            return Err(bad(Why::Short));
        }
        if self.as_slice()[0] != b'\n' {
            return Err(bad(Why::NoNewline));
        }
        self.pass(1)?;
        Ok(())
    }

    /// So many bytes, behind which a newline stands. Memory is taken for those that came, and not for those announced.
    pub(crate) fn take_text<S: Source>(
        &mut self,
        alloc: Global,
        source: &mut S,
        count: u64,
    ) -> Result<Text, Stop>
        ensures given { Reads (λ text. text) (text_at count) (place_of (S.remaining source.old) self.old) (place_of (S.remaining source.new) self.new) result }
        ensures cause { HasCause IfRead (S.faults source.old) (S.faults source.new) result }
    {
        let mut text = Vec::new(alloc);
        'pieces: while (text.len() as u64) < count {
            if !self.fill(source)? {
                return Err(bad(Why::Short));
            }
            self.take_some(&mut text, count)?;
        }
        self.take_newline(source)?;
        Ok(Text::new(text))
    }

    /// Passes the empty lines that stand here, and answers whether anything is left.
    pub(crate) fn skip_empty_lines<S: Source>(&mut self, source: &mut S) -> Result<bool, Stop>
        ensures given { Reads (λ more. more) skipped_at (place_of (S.remaining source.old) self.old) (place_of (S.remaining source.new) self.new) result }
        ensures cause { HasCause IfRead (S.faults source.old) (S.faults source.new) result }
    {
        for _ in 0..u64::MAX {
            if !self.fill(source)? {
                return Ok(false);
            }
            if self.as_slice()[0] != b'\n' {
                return Ok(true);
            }
            self.pass(1)?;
        }
        Err(Stop::OutOfMemory)
    }
}
