// A path below one folder, kept by value.
ghost use Rattle.std.specs.Prelude.{◌≡◌, ◌≤◌, ◌+◌, ◌++◌, ◌↔◌, ℕ, List, length, IsTrue, codes, true, false, MatchOption};
ghost use Rattle.fsfs_folders.specs.System.Paths.{before_slash, folder_of};

use arrayvec::ArrayString;
use fsfs_base::Name;
use std::marker::Model;

/// A path below one folder, at most 160 bytes by value, with `/` between names. The empty path is the folder itself, `..` the one
/// that it stands in. A contract sees its bytes.
#[derive(Debug, Drop)]
pub struct Path {
    text: ArrayString<160>,
}

impl Model for Path {
    ghost use Rattle.std.specs.Prelude.{List, ℕ, length, ◌≤◌};

    ghost Value = { List ℕ };

    ghost view = { λ path. path.text.bytes };

    ghost invariant = { λ path. length path.text.bytes ≤ 160 };
}

// What stands before the last slash of a text.
fn before_last_slash(text: &str) -> &str
    ensures { result.now ≡ before_slash text.now }
{
    match text.rsplit_once('/') {
        Some((folder, _)) => folder,
        None => "",
    }
}

impl Path {
    /// The path with this text.
    pub fn new(text: &str) -> Path
        requires { length text.now ≤ 160 }
        ensures { result ≡ text.now }
    {
        let mut path = ArrayString::new();
        path.push_str(text);
        Path { text: path }
    }

    /// The path of a file by its name.
    pub fn of(name: &Name) -> Path
        ensures { result ≡ name.now }
    {
        Path::new(name.as_str())
    }

    /// Puts more text at its end.
    pub fn push_str(&mut self, text: &str)
        requires { length self.old + length text.now ≤ 160 }
        ensures { self.new ≡ self.old ++ text.now }
    {
        self.text.push_str(text);
    }

    /// A path beside another: its text and these letters.
    pub fn with_ending(name: &Name, ending: &str) -> Path
        requires { length ending.now ≤ 32 }
        ensures { result ≡ name.now ++ ending.now }
    {
        let mut path = ArrayString::new();
        path.push_str(name.as_str());
        path.push_str(ending);
        Path { text: path }
    }

    /// The folder that the path stands in.
    pub fn folder(&self) -> Path
        ensures { result ≡ folder_of self.now }
    {
        if self.text.as_str().is_empty() {
            Path::new("..")
        } else {
            Path::new(before_last_slash(self.text.as_str()))
        }
    }

    pub fn as_str(&self) -> &str
        ensures text { result.now ≡ self.now }
        ensures fits { length result.now ≤ 160 }
    {
        self.text.as_str()
    }

    /// The same path once more.
    pub fn copy(&self) -> Path
        ensures { result ≡ self.now }
    {
        Path::new(self.as_str())
    }

    /// Whether it is this other path.
    pub fn is(&self, other: &Path) -> bool
        ensures { IsTrue result ↔ (self.now ≡ other.now) }
    {
        self.as_str() == other.as_str()
    }
}
