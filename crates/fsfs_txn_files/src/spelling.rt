//! The node part and the copy part of an id, in the name of a file.
ghost use Rattle.std.specs.Prelude.{◌≡◌, ◌≤◌, ◌+◌, ◌++◌, length};
ghost use Rattle.fsfs_noderev.specs.Ids.{part_value};
ghost use Rattle.fsfs_txn_files.specs.FileNames.{part_text};

use fsfs_base::{Name, push_base36};
use fsfs_noderev::Part;
use itoa::Buffer;

/// Puts a part of an id at the end.
pub(crate) fn push_part(name: &mut Name, part: Part)
    requires { length name.old ≤ 100 }
    ensures text { name.new ≡ name.old ++ part_text (part_value part) }
    ensures short { length name.new ≤ length name.old + 24 }
{
    match part {
        Part::New(n) => {
            name.push('_');
            push_base36(name, 13, n.number);
        }
        Part::Old(n) => {
            push_base36(name, 13, n.number);
        }
        Part::Made(n, rev) => {
            push_base36(name, 13, n.number);
            name.push('-');
            name.push_str(Buffer::new().format(rev.get()));
        }
    }
}
