// The name of a file in a transaction's folder.
ghost use Rattle.std.specs.Prelude.{◌≡◌, ◌≤◌, length};

use fsfs_base::Name;
use std::marker::Model;

/// The name of a file in a transaction's folder, as `changes` or `node.0.0.props`: at most 80 bytes, kept by value.
/// A contract sees its bytes.
#[derive(Drop)]
pub struct PartName {
    name: Name,
    ghost short: { length name ≤ 80 },
}

impl Model for PartName {
    ghost use Rattle.std.specs.Prelude.{List, ℕ, length, ◌≤◌};

    ghost Value = { List ℕ };

    ghost view = { λ a. a.name };

    ghost invariant = { λ a. length a.name ≤ 80 };
}

impl PartName {
    /// The name with this text.
    pub fn new(text: &str) -> PartName
        requires { length text.now ≤ 80 }
        ensures { result ≡ text.now }
    {
        PartName {
            name: Name::new(text),
        }
    }

    pub fn as_str(&self) -> &str
        ensures text { result.now ≡ self.now }
        ensures fits { length result.now ≤ 80 }
    {
        self.name.as_str()
    }
}
