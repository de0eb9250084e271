//! Damage in the bytes of a revision.
use fsfs_base::{HexDigest, RevNum};

/// A place in the bytes of a revision.
#[derive(Clone, Copy, Debug)]
pub struct RevOffset {
    pub rev: RevNum,
    pub offset: u64,
}

/// What is wrong with a representation.
#[derive(Clone, Copy, Debug)]
pub enum RepWhat {
    /// The line `PLAIN` isn't there, nor a delta's.
    Header,
    /// The line `ENDREP` doesn't follow behind so many bytes.
    EndRep,
    /// The size is not 0, and another than the length.
    Size {
        kept: u64,
        found: u64,
    },
    /// The MD5 of the bytes is another.
    Md5 {
        kept: HexDigest<16>,
        found: HexDigest<16>,
    },
    /// The SHA-1 of the bytes is another.
    Sha1 {
        kept: HexDigest<20>,
        found: HexDigest<20>,
    },
    /// The bytes of a directory or a property list are no dump.
    Hash,
    /// An entry of a directory has a name that no path has.
    BadName,
    /// What an entry says is not `file` or `dir` and the id of a node-revision in a revision.
    EntryValue,
}

/// What is wrong with the bytes of a revision.
#[derive(Clone, Copy, Debug)]
pub enum DamageKind {
    /// No trailer ends the bytes; the offset is their length.
    Trailer,
    /// No node-revision begins there, or one in a form that only a transaction has.
    NodeRev,
    /// The node-revision there names a place that isn't before its own, or a revision of a source that isn't.
    PlaceOrder,
    /// The node-revision there has another id than the one that named it, or a root another place than its own.
    OtherId,
    /// The node-revision there is a file where a directory is wanted, or the other way round.
    EntryKind,
    /// The representation whose header is to begin there is damaged.
    Rep(RepWhat),
    /// No item of changed-path data begins there, or one whose path an earlier item of the revision has.
    Changes,
    /// The property file of the revision is no dump; the offset is 0.
    Props,
    /// The date among the properties of the revision has another form than stored dates have; the offset is 0.
    BadDate,
    /// The file isn't there; the offset is 0.
    Missing,
    /// An item of changed-path data says what the trees don't: what it adds, replaces or modifies isn't in the revision's
    /// tree, what it deletes is, or another node-revision than its id's stands at its path; the offset is the item's, or 0
    /// in a dump, which alone answers it today, of a path at which nothing stands. The rest will be told by the check of a
    /// whole repository, which is to come.
    ChangePath,
    /// The predecessor of the node-revision there has another node part or another type, or not one predecessor less. No
    /// reading answers it: it will be told by the check of a whole repository, which is to come.
    PredId,
    /// The node-revision there breaks another of the rules by which node-revisions hang together. No reading answers it: it
    /// will be told by the check of a whole repository, which is to come.
    CopyId,
    /// The node-revision there keeps another count of mergeinfo than that of the nodes at and below it. No reading answers
    /// it: it will be told by the check of a whole repository, which is to come.
    Minfo { kept: u64, found: u64 },
    /// The count of mergeinfo that the node-revision there keeps would leave the numbers of 64 bits by an edit or a merge. No
    /// reading answers it: it will be told by the edits that change such counts, which are to come.
    MinfoRange,
}

/// Damage in a revision, and the place where it was met.
#[derive(Clone, Copy, Debug)]
pub struct Damage {
    pub at: RevOffset,
    pub what: DamageKind,
}
