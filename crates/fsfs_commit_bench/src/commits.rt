// Commits one after another, each of one small file.
ghost use Rattle.std.specs.Prelude.{◌≡◌, IsTrue};

use fsfs_base::{FsPath, Pairs};
use fsfs_disk::{Bench, Disk};
use fsfs_memory::{MemSource, NoGate};
use fsfs_repo::{CommitAnswer, HeldNodes, PathOpened, Repo, TextSet, Txn};
use fsfs_revision::Book;
use std::alloc::Global;

// The moment of each, in microseconds.
const MOMENT: u64 = 1_764_374_400_000_000;

// Gives the file at the path this number as its text. Whether it was done.
fn put<B: Book, W: Bench + Drop>(
    alloc: Global,
    book: &mut B,
    txn: &mut Txn<HeldNodes<W>>,
    path: &FsPath,
    number: u64,
) -> bool {
    let Ok(text) = format!(in alloc; "text {number}\n") else {
        return false;
    };
    let mut source = MemSource::new(alloc, text.into_bytes());
    match txn.open_path(alloc, book, path) {
        Ok(PathOpened::Node(opened)) => match txn.put_text(alloc, &opened, &mut source, None) {
            Ok(TextSet::Done) => true,
            _ => false,
        },
        _ => false,
    }
}

// The same, of a file that is made first where nothing stands.
fn edit<B: Book, W: Bench + Drop>(
    alloc: Global,
    book: &mut B,
    txn: &mut Txn<HeldNodes<W>>,
    number: u64,
) -> bool {
    let Ok(path) = FsPath::parse(alloc, "/f") else {
        return false;
    };
    let _made = txn.mkfile(alloc, book, &path);
    put(alloc, book, txn, &path, number)
}

// Commits the file with this number as its text, over the youngest revision. Whether it was committed.
fn commit_one<D: Disk>(alloc: Global, repo: Repo<D>, number: u64) -> (Repo<D>, bool)
where
    D::Bench: Drop,
{
    let rt = ();
    let mut repo = repo;
    let base = repo.youngest();
    let (repo, begun) = repo.begin(&rt, alloc, base);
    let Ok(txn) = begun else {
        return (repo, false);
    };
    let mut txn = txn;
    let mut book = repo.reader(&rt, alloc);
    let done = edit(alloc, &mut book, &mut txn, number);
    let repo = Repo::of_reader(book);
    if !done || txn.is_spent() {
        return (repo, false);
    }
    let (repo, answer) = repo.commit(&rt, alloc, txn, Pairs::new(alloc), MOMENT, &NoGate);
    match answer {
        CommitAnswer::Committed { .. } => (repo, true),
        _ => (repo, false),
    }
}

/// Commits so often over the repository of this disk, up to the first that fails. How many were committed.
pub(crate) fn commit_all<D: Disk + Drop>(alloc: Global, disk: D, count: u64) -> u64
where
    D::Bench: Drop,
    requires { IsTrue (D.may_write disk) }
{
    let Ok(opened) = Repo::open(alloc, disk) else {
        return 0;
    };
    let mut repo = opened.repo;
    for number in 0..count {
        let (back, done) = commit_one(alloc, repo, number);
        repo = back;
        if !done {
            return number;
        }
    }
    count
}
