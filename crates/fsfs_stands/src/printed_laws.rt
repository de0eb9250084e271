//! The laws of what looks print. Each of these functions does nothing: what it ensures is proved once for all bytes.
ghost use Rattle.fsfs_stands.specs.Agreeing.{TreesHaveOneText, FilesHaveOneText};
ghost use Rattle.fsfs_stands.specs.ByTree.{TreesAreByTree, FilesAreByTree};

/// Whatever the bytes are, a look prints one text at most and ends for one cause; where a failure stops it, it has printed a
/// first part of that.
pub fn looks_have_one_text()
    ensures trees { TreesHaveOneText }
    ensures files { FilesHaveOneText }
{}

/// Where the bytes show a tree, looks print by the tree: the lines of its nodes at the path and below it, the text of the file at
/// the path, or nothing and why.
pub fn texts_are_by_the_tree()
    ensures trees { TreesAreByTree }
    ensures files { FilesAreByTree }
{}
