//! Laws of scripts. These functions do nothing: what they ensure is proved once for all.
ghost use Rattle.fsfs_script.specs.Laws.{AnswersAreDecided, JobsWereWritten, JobsAreRead, NoneIsRefused, ScriptsAreDecided, ScriptsAsWritten};

/// A place of a script has one answer at most: its next job, that there is none, or one refusal at one line.
pub fn answers_are_decided()
    ensures { AnswersAreDecided }
{}

/// A job that is read was written just so, and may stand there; where a script has all jobs that it may have, none is read.
pub fn jobs_were_written()
    ensures { JobsWereWritten }
{}

/// And a job that is written so is read.
pub fn jobs_are_read()
    ensures { JobsAreRead }
{}

/// So a refusal comes only where no job is written.
pub fn none_is_refused()
    ensures { NoneIsRefused }
{}

/// A whole text has one outcome at most: its jobs, or the first refusal.
pub fn scripts_are_decided()
    ensures { ScriptsAreDecided }
{}

/// A text is a script of some jobs just where it is written so: each job behind empty lines, at most 4,096 of them.
pub fn scripts_are_as_written()
    ensures { ScriptsAsWritten }
{}
