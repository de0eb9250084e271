//! Laws of the first lines of commands. These functions do nothing: what they ensure is proved once for all.
ghost use Rattle.fsfs_script.specs.JobLines.Laws.{CommandsWereWritten, CommandsAreRead, OpeningsWereWritten, OpeningsAreRead, TargetsWereWritten, TargetsAreRead};

/// What the first line of a command says was written just so.
pub fn commands_were_written()
    ensures { CommandsWereWritten }
{}

/// And what is written so is read, where it may stand.
pub fn commands_are_read()
    ensures { CommandsAreRead }
{}

/// What the first line of a job says was written just so.
pub fn openings_were_written()
    ensures { OpeningsWereWritten }
{}

/// And what is written so is read.
pub fn openings_are_read()
    ensures { OpeningsAreRead }
{}

/// The path of a line `to` was written just so.
pub fn targets_were_written()
    ensures { TargetsWereWritten }
{}

/// And what is written so is read.
pub fn targets_are_read()
    ensures { TargetsAreRead }
{}
