//! The words that name commands, and where each may stand.
ghost use Rattle.std.specs.Prelude.{◌≡◌};
ghost use Rattle.fsfs_script.specs.JobLines.Verbs.{opening_named, edit_named, command_named};

/// The word that begins a job.
#[derive(Clone, Copy)]
pub(crate) enum OpeningVerb {
    Job,
    Read,
}

/// The word of a command inside a job.
#[derive(Clone, Copy)]
pub(crate) enum Verb {
    Author,
    Log,
    MakeDir,
    MakeFile,
    Delete,
    Copy,
    Put,
    SetProp,
    RemoveProp,
    Commit,
}

/// How far a job has come.
#[derive(Clone, Copy)]
pub enum Stage {
    /// Behind `job`.
    AfterJob,
    /// Behind `author`.
    AfterAuthor,
    /// Behind `log` or an edit.
    InEdits,
}

/// The word that may begin a job.
pub(crate) fn opening_named(word: &[u8]) -> Option<OpeningVerb>
    ensures { result ≡ opening_named word.now }
{
    if word == b"job".as_slice() {
        Some(OpeningVerb::Job)
    } else if word == b"read".as_slice() {
        Some(OpeningVerb::Read)
    } else {
        None
    }
}

// The word of an edit, or of the end of a job.
fn edit_named(word: &[u8]) -> Option<Verb>
    ensures { result ≡ edit_named word.now }
{
    if word == b"mkdir".as_slice() {
        Some(Verb::MakeDir)
    } else if word == b"mkfile".as_slice() {
        Some(Verb::MakeFile)
    } else if word == b"rm".as_slice() {
        Some(Verb::Delete)
    } else if word == b"copy".as_slice() {
        Some(Verb::Copy)
    } else if word == b"put".as_slice() {
        Some(Verb::Put)
    } else if word == b"prop".as_slice() {
        Some(Verb::SetProp)
    } else if word == b"unprop".as_slice() {
        Some(Verb::RemoveProp)
    } else if word == b"commit".as_slice() {
        Some(Verb::Commit)
    } else {
        None
    }
}

/// The word of a command that may stand at this point of a job.
pub(crate) fn command_named(stage: Stage, word: &[u8]) -> Option<Verb>
    ensures { result ≡ command_named stage word.now }
{
    match stage {
        Stage::InEdits => edit_named(word),
        Stage::AfterAuthor => log_or_edit(word),
        Stage::AfterJob => {
            if word == b"author".as_slice() {
                Some(Verb::Author)
            } else {
                log_or_edit(word)
            }
        }
    }
}

fn log_or_edit(word: &[u8]) -> Option<Verb>
    ensures { result ≡ command_named Stage.AfterAuthor word.now }
{
    if word == b"log".as_slice() {
        Some(Verb::Log)
    } else {
        edit_named(word)
    }
}
