// What a mount found at its path.
use fsfs_base::Name;

/// What a mount found at its path.
#[derive(Drop)]
pub enum Found {
    /// What was to be read or changed: nothing was made that would have to be taken away again.
    Ready,
    /// Nothing that could be changed, so nothing is locked: there is no repository to be changed, or one where another was to be made.
    Barred,
    /// Room for a creation, which has begun and left its mark.
    Room(Room),
}

impl Found {
    /// Whether nothing may be changed.
    pub fn is_barred(&self) -> bool {
        match self {
            Found::Barred => true,
            Found::Ready | Found::Room(_) => false,
        }
    }
}

/// What wasn't there where a repository is to be made, and was made for it.
#[derive(Drop)]
pub struct Room {
    /// There was no folder, and one was made.
    pub is_new: bool,
    /// The folders of a creation that weren't there, those above first.
    pub absent: Vec<Name>,
}

impl Room {
    // How many of the folders that weren't there are the folder `db` itself: it comes first.
    fn outer_count(&self) -> usize {
        match self.absent.first() {
            Some(name) if name.as_str() == "db" => 1,
            _ => 0,
        }
    }

    /// The folder `db`, if it wasn't there.
    pub fn outer(&self) -> &[Name] {
        self.absent.get(..self.outer_count()).unwrap_or(&[])
    }

    /// The folders below `db` that weren't there.
    pub fn inner(&self) -> &[Name] {
        self.absent.get(self.outer_count()..).unwrap_or(&[])
    }
}
