//! What happened to a path.

/// What happened to a path in a revision.
#[derive(Clone, Copy, Debug, PartialEq, Eq)]
pub enum Action {
    Add,
    Delete,
    /// Something else was put where a node was taken away.
    Replace,
    Modify,
}
