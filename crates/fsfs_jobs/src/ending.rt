//! What a run tells behind the lines of its jobs.

/// What a run tells behind the lines of its jobs and before the youngest revision.
#[derive(Clone, Copy, Debug)]
pub struct Ending {
    /// How many shards were packed; none where the run doesn't pack.
    pub packed: Option<u64>,
    /// Whether a check found nothing wrong; false where there was none.
    pub sound: bool,
}
