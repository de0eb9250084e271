//! The laws. Each of these functions does nothing: what it ensures is proved once for all runs.
ghost use Rattle.fsfs_job_run.specs.Workers.Laws.{LinesStay, WorkersLinesStay, AloneIsBeside, WorkGoesOn, WorkersWorked};

/// What a line says of a history it says of each that goes on from it, and of a worker that knew less.
pub fn lines_stay()
    ensures { LinesStay }
{}

/// And so do all lines of a worker.
pub fn lines_of_workers_stay()
    ensures { WorkersLinesStay }
{}

/// A job that nobody else's revision comes between is one beside others.
pub fn a_job_alone_is_one_beside_others()
    ensures { AloneIsBeside }
{}

/// A worker's jobs and one job more are its jobs.
pub fn work_goes_on()
    ensures { WorkGoesOn }
{}

/// The lines of a worker hold of the history, however it goes on, and its own revisions are those that they tell.
pub fn lines_of_workers_hold()
    ensures { WorkersWorked }
{}
