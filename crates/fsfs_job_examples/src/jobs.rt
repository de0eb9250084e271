// The jobs of a script, one after another.
use fsfs_base::RevNum;
use fsfs_cli::{Fault, RequestFault, Tool, print_fault};
use fsfs_job_run::read_job;
use fsfs_jobs::{JobAnswer, Stopped, do_edits, print_job_line};
use fsfs_memory::{MemDisk, MemSink, MemSource, Transcript};
use fsfs_repo::{OpenedRepo, Repo};
use fsfs_script::{Base, CommitJob, Job, Jobs, ReadJob, read_script};
use std::alloc::Global;

fn say_answer(alloc: Global, number: u64, answer: &JobAnswer, out: &mut Transcript) {
    let mut sink = MemSink::new(alloc);
    match print_job_line(&mut sink, number, answer) {
        Ok(()) => out.lines(sink.bytes(), "", ":"),
        Err(_) => out.lose(),
    }
}

// The revision that a job is about.
fn base_of(base: Base, youngest: RevNum) -> Result<RevNum, Fault> {
    let Base::Number(asked) = base else {
        return Ok(youngest);
    };
    match RevNum::new(asked) {
        Some(rev) if rev <= youngest => Ok(rev),
        _ => Err(Fault::Request(RequestFault::NoRev { asked, youngest })),
    }
}

fn say_edited(alloc: Global, number: u64, done: Result<(), Stopped>, out: &mut Transcript) {
    match done {
        Ok(()) => {
            out.show(&number);
            out.say(" edited\n");
        }
        Err(Stopped { line, fault }) => {
            say_answer(alloc, number, &JobAnswer::Stopped { line, fault }, out)
        }
    }
}

// Does the edits of a job in a transaction, which is left.
fn edit_on(
    alloc: Global,
    repo: Repo<MemDisk>,
    base: RevNum,
    number: u64,
    job: &CommitJob,
    out: &mut Transcript,
) -> Repo<MemDisk> {
    let rt = ();
    let (repo, begun) = repo.begin(&rt, alloc, base);
    let Ok(mut txn) = begun else {
        out.say("? not begun\n");
        return repo;
    };
    let mut book = repo.reader(&rt, alloc);
    let done = do_edits(alloc, &mut book, &mut txn, job.steps.as_slice());
    say_edited(alloc, number, done, out);
    Repo::of_reader(book)
}

fn read_on(
    alloc: Global,
    repo: Repo<MemDisk>,
    base: RevNum,
    number: u64,
    job: &ReadJob,
    out: &mut Transcript,
) -> Repo<MemDisk> {
    let rt = ();
    let mut book = repo.reader(&rt, alloc);
    let answer = read_job(alloc, &mut book, base, job);
    say_answer(alloc, number, &answer, out);
    Repo::of_reader(book)
}

fn run_job(
    alloc: Global,
    repo: Repo<MemDisk>,
    youngest: RevNum,
    number: u64,
    job: &Job,
    out: &mut Transcript,
) -> Repo<MemDisk> {
    let (base, line) = match job {
        Job::Commit(job) => (job.base, job.line),
        Job::Read(job) => (job.base, job.line),
    };
    match (base_of(base, youngest), job) {
        (Err(fault), _) => {
            say_answer(alloc, number, &JobAnswer::Stopped { line, fault }, out);
            repo
        }
        (Ok(base), Job::Commit(job)) => edit_on(alloc, repo, base, number, job, out),
        (Ok(base), Job::Read(job)) => read_on(alloc, repo, base, number, job, out),
    }
}

fn run_jobs(alloc: Global, disk: MemDisk, jobs: &Jobs, out: &mut Transcript) -> MemDisk {
    let opened = match Repo::open(alloc, disk) {
        Ok(opened) => opened,
        Err(unopened) => {
            out.say("? no repository\n");
            return unopened.disk;
        }
    };
    let OpenedRepo { repo, said } = opened;
    let mut repo = repo;
    let mut number: u64 = 0;
    for job in jobs.as_slice() {
        number = number.saturating_add(1);
        repo = run_job(alloc, repo, said.youngest, number, job, out);
    }
    repo.close()
}

fn say_refusal(alloc: Global, fault: &Fault, out: &mut Transcript) {
    let mut sink = MemSink::new(alloc);
    match print_fault(&mut sink, Tool::Jobs, fault) {
        Ok(()) => out.lines(sink.bytes(), "", ":"),
        Err(_) => out.lose(),
    }
}

/// Runs a script over the repository on a disk, but for its commits.
pub fn run(alloc: Global, disk: MemDisk, script: Vec<u8>, out: &mut Transcript) -> MemDisk {
    let mut source = MemSource::new(alloc, script);
    match read_script(alloc, &mut source) {
        Ok(jobs) => run_jobs(alloc, disk, &jobs, out),
        Err(error) => {
            say_refusal(alloc, &Fault::from(error), out);
            disk
        }
    }
}
