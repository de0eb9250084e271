//! What stands at a path.
ghost use Rattle.std.specs.Prelude.{◌≡◌};

use fsfs_base::{FsPath, Kind, Pairs, RevNum};
use std::alloc::{AllocError, Global};
use std::marker::Model;

/// A file's text: its bytes, or the place of a text that is not read.
#[derive(Debug, Drop)]
pub enum Text {
    Bytes(Vec<u8>),
    Closed { rev: RevNum, offset: u64 },
}

/// One node of a tree.
#[derive(Debug, Drop)]
pub struct Node {
    pub kind: Kind,
    pub text: Text,
    pub properties: Pairs,
    /// The revision and path that it was copied from.
    pub source: Option<(RevNum, FsPath)>,
    /// The revision in which it came to stand at its path.
    pub added: RevNum,
    /// The last revision in which its properties were set.
    pub props_changed: RevNum,
    /// The last revision in which it or anything below it was changed.
    pub last_changed: RevNum,
}

impl Model for Node {
    ghost use Rattle.fsfs_tree.specs.Nodes.{Node};

    ghost Value = { Node };

    ghost use Rattle.fsfs_tree.specs.NodeViews.{node_of};

    ghost view = { node_of };
}

impl Clone for Text {
    ghost use Rattle.std.specs.Prelude.{◌≡◌};
    ghost use Rattle.fsfs_tree.specs.NodeViews.{content_of};

    ghost is_clone = { λ s t. content_of t ≡ content_of s };

    fn clone(&self) -> Result<Text, AllocError> {
        match self {
            Text::Bytes(bytes) => Ok(Text::Bytes(bytes.clone()?)),
            Text::Closed { rev, offset } => Ok(Text::Closed {
                rev: *rev,
                offset: *offset,
            }),
        }
    }
}

impl Clone for Node {
    ghost is_clone = { λ s t. t ≡ s };

    fn clone(&self) -> Result<Node, AllocError> {
        Ok(Node {
            kind: self.kind,
            text: self.text.clone()?,
            properties: self.properties.clone()?,
            source: self.source.clone()?,
            added: self.added,
            props_changed: self.props_changed,
            last_changed: self.last_changed,
        })
    }
}
