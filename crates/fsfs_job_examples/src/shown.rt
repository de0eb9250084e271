// Jobs and refusals as they are printed.
use fsfs_memory::Transcript;
use fsfs_script::{Base, CommitJob, Edit, Job, ReadJob, ScriptError, SetProp};

// A text this long is printed by its length.
const LONG: usize = 40;

fn put_bytes(out: &mut Transcript, bytes: &[u8]) {
    if bytes.len() > LONG {
        out.tell(" of length ", &bytes.len());
    } else {
        out.say(" \"");
        out.bytes(bytes);
        out.say("\"");
    }
}

fn put_base(out: &mut Transcript, base: Base) {
    match base {
        Base::Youngest => out.say(" on head"),
        Base::Number(number) => out.tell(" on ", &number),
    }
}

fn put_set(out: &mut Transcript, set: &SetProp) {
    out.tell("property of ", &set.path);
    out.say(",");
    put_bytes(out, set.name.as_str().as_bytes());
    match &set.value {
        None => out.say(" is taken away"),
        Some(value) => {
            out.say(" =");
            put_bytes(out, value.as_slice());
        }
    }
}

fn put_edit(out: &mut Transcript, edit: &Edit) {
    match edit {
        Edit::MakeDir(path) => out.tell("directory ", path),
        Edit::MakeFile(path) => out.tell("file ", path),
        Edit::Delete(path) => out.tell("without ", path),
        Edit::Copy(copy) => {
            out.tell("copy of ", &copy.from);
            out.tell(" in ", &copy.rev);
            out.tell(" at ", &copy.to);
        }
        Edit::Put(put) => {
            out.tell("text of ", &put.path);
            put_bytes(out, put.text.as_slice());
        }
        Edit::Prop(set) => put_set(out, set),
    }
}

fn put_commit(out: &mut Transcript, job: &CommitJob) {
    out.tell("job of line ", &job.line);
    put_base(out, job.base);
    if let Some(author) = &job.author {
        out.say(", by");
        put_bytes(out, author.as_str().as_bytes());
    }
    if let Some(log) = &job.log {
        out.say(", log");
        put_bytes(out, log.as_slice());
    }
    out.say("\n");
    for step in job.steps.as_slice() {
        out.tell("  ", &step.line);
        out.say(": ");
        put_edit(out, &step.edit);
        out.say("\n");
    }
}

fn put_read(out: &mut Transcript, job: &ReadJob) {
    out.tell("reading of line ", &job.line);
    put_base(out, job.base);
    out.tell(" at ", &job.path);
    out.say("\n");
}

/// A job.
pub fn put_job(out: &mut Transcript, job: &Job) {
    match job {
        Job::Commit(job) => put_commit(out, job),
        Job::Read(job) => put_read(out, job),
    }
}

/// Why none was read.
pub fn put_error(out: &mut Transcript, error: ScriptError) {
    match error {
        ScriptError::BadScript(bad) => {
            out.tell("refused at line ", &bad.line);
            out.say(": ");
            out.name(&bad.why);
        }
        ScriptError::TextTooLong => out.say("a text is too long"),
        ScriptError::PropTooLong => out.say("a value or a log is too long"),
        ScriptError::TooManyJobs => out.say("too many jobs"),
        ScriptError::ReadFault => out.say("the source failed"),
        ScriptError::OutOfMemory => out.lose(),
    }
    out.say("\n");
}
