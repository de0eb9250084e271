//! The files of a transaction's folder.
ghost use Rattle.std.specs.Prelude.{◌≡◌, ◌≤◌, ◌++◌, length};
ghost use Rattle.fsfs_noderev.specs.Ids.{part_value};
ghost use Rattle.fsfs_txn_files.specs.FileNames.{file_name, node_name};

use crate::spelling::push_part;
use fsfs_base::Name;
use fsfs_noderev::NodeId;

/// A file of a transaction's folder. Those of a node-revision are named by the node part and the copy part of its id.
#[derive(Clone, Copy, Debug)]
pub enum FolderFile {
    /// The numbers that the next new node part and the next new copy part get.
    NextIds,
    /// What the edits changed, one item for each.
    Changes,
    /// A node-revision.
    Node(NodeId),
    /// The entries of a directory: a whole list, and what was put or taken away since.
    Children(NodeId),
    /// The properties of a node-revision.
    Props(NodeId),
}

// The file of a node-revision.
fn node_file(id: &NodeId) -> Name
    ensures text { result ≡ node_name (part_value id.now.node) (part_value id.now.copy) }
    ensures short { length result ≤ 54 }
{
    let mut name = Name::new("node.");
    push_part(&mut name, id.node);
    name.push('.');
    push_part(&mut name, id.copy);
    name
}

// A file beside that of a node-revision.
fn beside_node(id: &NodeId, ending: &str) -> Name
    requires { length ending.now ≤ 20 }
    ensures { result ≡ node_name (part_value id.now.node) (part_value id.now.copy) ++ ending.now }
{
    let mut name = node_file(id);
    name.push_str(ending);
    name
}

impl FolderFile {
    /// Its name in the folder.
    pub fn name(&self) -> Name
        ensures { result ≡ file_name self.now }
    {
        match self {
            FolderFile::NextIds => Name::new("next-ids"),
            FolderFile::Changes => Name::new("changes"),
            FolderFile::Node(id) => node_file(id),
            FolderFile::Children(id) => beside_node(id, ".children"),
            FolderFile::Props(id) => beside_node(id, ".props"),
        }
    }
}
