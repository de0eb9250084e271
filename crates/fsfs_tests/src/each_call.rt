// Each call of the system once or more, over any calls, and what was answered, as text.
use fsfs_base::Name;
use fsfs_folders::{CallError, Calls, Path};
use std::alloc::{AllocError, Global};

// What a call answered, in a word.
fn word<T: Drop>(answer: Result<T, CallError>) -> &'static str {
    match answer {
        Ok(_) => "ok",
        Err(CallError::NotFound) => "nothing there",
        Err(CallError::Exists) => "is there",
        Err(CallError::OtherKind) => "of another kind",
        Err(CallError::Locked) => "locked",
        Err(CallError::Denied) => "denied",
        Err(CallError::Memory) => "memory",
        Err(CallError::Failed) => "failed",
    }
}

// A line about a call.
fn tell(told: &mut String, call: &str, answer: &str) -> Result<(), AllocError> {
    told.push_str(call)?;
    told.push_str(": ")?;
    told.push_str(answer)?;
    told.push('\n')
}

// A line with the names of a listing, in order.
fn tell_names(
    told: &mut String,
    call: &str,
    found: Result<Vec<Name>, CallError>,
) -> Result<(), AllocError> {
    match found {
        Ok(mut names) => {
            names.sort()?;
            told.push_str(call)?;
            told.push(':')?;
            for name in &names {
                told.push(' ')?;
                told.push_str(name.as_str())?;
            }
            told.push('\n')
        }
        Err(error) => tell(told, call, word::<()>(Err(error))),
    }
}

// What a file holds from an offset on.
fn tell_bytes<C: Calls>(
    told: &mut String,
    calls: &mut C,
    path: &Path,
    offset: u64,
) -> Result<(), AllocError> {
    let file = match calls.open(path) {
        Ok(file) => file,
        Err(error) => return tell(told, "open", word::<()>(Err(error))),
    };
    let mut buffer = [b'.'; 8];
    match calls.read_at(&file, offset, &mut buffer) {
        Ok(count) => match std::str::from_utf8(&buffer) {
            Ok(text) => write!(told, "read {count}: {text}\n"),
            Err(_) => tell(told, "read", "no text"),
        },
        Err(error) => tell(told, "read", word::<()>(Err(error))),
    }
}

// Whether a folder has a path.
fn is_folder<C: Calls>(calls: &mut C, path: &Path) -> &'static str {
    match calls.is_folder(path) {
        Ok(true) => "yes",
        Ok(false) => "no",
        Err(error) => word::<()>(Err(error)),
    }
}

// Folders, a file in one, and what is refused of these.
fn tell_folders<C: Calls>(told: &mut String, calls: &mut C) -> Result<(), AllocError> {
    let (db, shard) = (Path::new("db"), Path::new("db/revs/0"));
    tell(
        told,
        "make db/revs/0",
        word(calls.make_folder(&shard, None)),
    )?;
    tell(told, "make db", word(calls.make_folder(&db, None)))?;
    tell(told, "make db again", word(calls.make_folder(&db, None)))?;
    tell(
        told,
        "make db/revs",
        word(calls.make_folder(&Path::new("db/revs"), None)),
    )?;
    tell(
        told,
        "make db/revs/0",
        word(calls.make_folder(&shard, None)),
    )?;
    tell(told, "drop db", word(calls.drop_folder(&db)))?;
    tell(told, "drop db/revs/0", word(calls.drop_folder(&shard)))?;
    tell(
        told,
        "drop db/revs/0 again",
        word(calls.drop_folder(&shard)),
    )?;
    tell(told, "sync db", word(calls.sync_folder(&db)))?;
    tell(
        told,
        "sync above",
        word(calls.sync_folder(&Path::new(".."))),
    )?;
    tell(told, "db is a folder", is_folder(calls, &db))?;
    tell(
        told,
        "db/x is a folder",
        is_folder(calls, &Path::new("db/x")),
    )?;
    tell(told, "lock db", word(calls.lock_folder(&db)))?;
    tell(
        told,
        "lock nothing",
        word(calls.lock_folder(&Path::new("db/x"))),
    )?;
    tell(
        told,
        "lock a folder as a file",
        word(calls.lock_file(&db, None)),
    )
}

// A file that is made, written in two pieces and synced.
fn tell_writes<C: Calls>(told: &mut String, calls: &mut C) -> Result<(), AllocError> {
    let path = Path::new("db/current-next");
    let file = match calls.create(&path, None) {
        Ok(file) => file,
        Err(error) => return tell(told, "create", word::<()>(Err(error))),
    };
    tell(told, "append", word(calls.append(&file, b"17")))?;
    tell(told, "append", word(calls.append(&file, b"\n")))?;
    tell(told, "sync", word(calls.sync_file(&file)))?;
    match calls.length(&file) {
        Ok(length) => write!(told, "length: {length}\n")?,
        Err(error) => tell(told, "length", word::<()>(Err(error)))?,
    }
    tell(told, "create again", word(calls.create(&path, None)))?;
    tell(
        told,
        "create a folder",
        word(calls.create(&Path::new("db"), None)),
    )?;
    tell(
        told,
        "create nowhere",
        word(calls.create(&Path::new("db/x/y"), None)),
    )?;
    tell(
        told,
        "create below a file",
        word(calls.create(&Path::new("db/current-next/y"), None)),
    )?;
    tell(told, "make a file", word(calls.make_folder(&path, None)))?;
    tell_bytes(told, calls, &path, 1)?;
    tell_bytes(told, calls, &path, 9)?;
    tell(told, "open a folder", word(calls.open(&Path::new("db"))))?;
    tell_bytes(told, calls, &Path::new("db/x"), 0)
}

// Names that are given and taken away, and what a folder lists.
fn tell_names_given<C: Calls>(
    alloc: Global,
    told: &mut String,
    calls: &mut C,
) -> Result<(), AllocError> {
    let (next, current, db) = (
        Path::new("db/current-next"),
        Path::new("db/current"),
        Path::new("db"),
    );
    tell(told, "rename", word(calls.rename(&next, &current)))?;
    tell(told, "rename again", word(calls.rename(&next, &current)))?;
    tell(
        told,
        "rename to a folder",
        word(calls.rename(&current, &Path::new("db/revs"))),
    )?;
    tell(
        told,
        "rename to nowhere",
        word(calls.rename(&current, &Path::new("db/x/y"))),
    )?;
    tell_bytes(told, calls, &current, 0)?;
    match calls.open_to_append(&current) {
        Ok(file) => tell(told, "append", word(calls.append(&file, b"more")))?,
        Err(error) => tell(told, "append", word::<()>(Err(error)))?,
    }
    tell_bytes(told, calls, &current, 0)?;
    tell_names(told, "folders", calls.folders_in(alloc, &db))?;
    tell_names(
        told,
        "folders above",
        calls.folders_in(alloc, &Path::new("")),
    )?;
    tell_names(
        told,
        "folders nowhere",
        calls.folders_in(alloc, &Path::new("db/x")),
    )?;
    tell(told, "firmed", word(calls.firmed()))?;
    tell(told, "remove", word(calls.remove(&current)))?;
    tell(told, "remove again", word(calls.remove(&current)))?;
    tell(told, "remove a folder", word(calls.remove(&db)))
}

// A part, and a file that is taken from it.
fn tell_part<C: Calls + Drop>(told: &mut String, calls: &mut C) -> Result<(), AllocError> {
    let (bench, rev, to) = (
        Path::new("db/bench"),
        Path::new("rev"),
        Path::new("db/revs/1"),
    );
    tell(told, "make db/bench", word(calls.make_folder(&bench, None)))?;
    let mut part = match calls.part(&bench) {
        Ok(part) => part,
        Err(error) => return tell(told, "part", word::<()>(Err(error))),
    };
    match part.create(&rev, None) {
        Ok(file) => tell(told, "append", word(part.append(&file, b"a text")))?,
        Err(error) => tell(told, "append", word::<()>(Err(error)))?,
    }
    tell(
        told,
        "take nothing",
        word(calls.take(&mut part, &Path::new("x"), &to)),
    )?;
    tell(told, "take", word(calls.take(&mut part, &rev, &to)))?;
    tell_bytes(told, &mut part, &rev, 0)?;
    tell_bytes(told, calls, &to, 0)?;
    tell(told, "drop all of db/bench", word(calls.drop_tree(&bench)))?;
    tell(told, "drop all of nothing", word(calls.drop_tree(&bench)))
}

/// Makes each call once or more on an empty folder, and tells what was answered.
pub fn each_call<C: Calls + Drop>(alloc: Global, calls: &mut C) -> Result<String, AllocError> {
    let mut told = String::new(alloc);
    tell_folders(&mut told, calls)?;
    tell_writes(&mut told, calls)?;
    tell_names_given(alloc, &mut told, calls)?;
    tell_part(&mut told, calls)?;
    Ok(told)
}

/// What is to be answered, as POSIX has these calls.
pub const EACH_CALL: &str = "make db/revs/0: nothing there
make db: ok
make db again: ok
make db/revs: ok
make db/revs/0: ok
drop db: failed
drop db/revs/0: ok
drop db/revs/0 again: nothing there
sync db: ok
sync above: ok
db is a folder: yes
db/x is a folder: no
lock db: ok
lock nothing: nothing there
lock a folder as a file: of another kind
append: ok
append: ok
sync: ok
length: 3
create again: is there
create a folder: is there
create nowhere: nothing there
create below a file: nothing there
make a file: is there
read 2: 7
......
read 0: ........
open a folder: of another kind
open: nothing there
rename: ok
rename again: nothing there
rename to a folder: of another kind
rename to nowhere: nothing there
read 3: 17
.....
append: ok
read 7: 17
more.
folders: revs
folders above: db
folders nowhere: nothing there
firmed: ok
remove: ok
remove again: nothing there
remove a folder: of another kind
make db/bench: ok
append: ok
take nothing: nothing there
take: ok
open: nothing there
read 6: a text..
drop all of db/bench: ok
drop all of nothing: nothing there
";
