//! The line of a job down to a path or the words of a fault.
ghost use Rattle.std.specs.Prelude.{◌≡◌, ◌≤◌, ◌++◌, length, codes, decimal};
ghost use Rattle.fsfs_jobs.specs.Lines.{stop_front};
ghost use Rattle.fsfs_jobs.specs.Pieces.{committed_front, read_front, conflict_front, answer_front, line_front};

use crate::answer::{JobAnswer, TextRead};
use arrayvec::ArrayString;
use fsfs_base::RevNum;
use fsfs_cli::{Fault, digest_text, number_text};
use itoa::Buffer;

// What stands behind a job's number, before a path or the words of a fault.
type Front = ArrayString<104>;

fn committed_front(rev: RevNum) -> Front
    ensures { result.bytes ≡ committed_front rev }
{
    let mut text = ArrayString::new();
    text.push_str("r");
    text.push_str(Buffer::new().format(rev.get() as u64));
    text
}

fn read_front(read: &TextRead) -> Front
    ensures { result.bytes ≡ read_front read.now }
{
    let mut text = ArrayString::new();
    text.push_str("read r");
    text.push_str(Buffer::new().format(read.rev.get() as u64));
    text.push_str(number_text(read.size).as_str());
    text.push_str(digest_text(&read.md5).as_str());
    text
}

fn conflict_front(head: RevNum) -> Front
    ensures { result.bytes ≡ conflict_front head }
{
    let mut text = ArrayString::new();
    text.push_str("conflict r");
    text.push_str(Buffer::new().format(head.get() as u64));
    text.push_str(" ");
    text
}

fn refused_front(line: u64) -> Front
    ensures { result.bytes ≡ codes "refused " ++ decimal line ++ codes " " }
{
    let mut text = ArrayString::new();
    text.push_str("refused ");
    text.push_str(Buffer::new().format(line));
    text.push_str(" ");
    text
}

fn word(text: &str) -> Front
    requires { length text.now ≤ 16 }
    ensures { result.bytes ≡ text.now }
{
    let mut front = ArrayString::new();
    front.push_str(text);
    front
}

fn stop_front(line: u64, fault: &Fault) -> Front
    ensures { result.bytes ≡ stop_front line fault.now }
{
    match fault {
        Fault::Request(_) => refused_front(line),
        Fault::Limit(_) => word("limit "),
        Fault::Words(_) => word("fault "),
        Fault::Repository(_) => word("fault "),
        Fault::Outside(_) => word("fault "),
        Fault::Memory => word("memory"),
    }
}

fn answer_front(answer: &JobAnswer) -> Front
    ensures { result.bytes ≡ answer_front answer.now }
{
    match answer {
        JobAnswer::Committed(rev) => committed_front(*rev),
        JobAnswer::Read(read) => read_front(read),
        JobAnswer::Conflict { head, .. } => conflict_front(*head),
        JobAnswer::Stopped { line, fault } => stop_front(*line, fault),
    }
}

/// The line of the job of this number, down to a path or the words of a fault.
pub(crate) fn line_front(number: u64, answer: &JobAnswer) -> ArrayString<128>
    ensures { result.bytes ≡ line_front number answer.now }
{
    let mut text = ArrayString::new();
    text.push_str(Buffer::new().format(number));
    text.push_str(" ");
    text.push_str(answer_front(answer).as_str());
    text
}
