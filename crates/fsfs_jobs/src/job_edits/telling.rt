//! The outcomes of a transaction's calls, as faults of a job.
ghost use Rattle.std.specs.Prelude.{◌≡◌};
ghost use Rattle.fsfs_jobs.specs.JobEdits.Answers.{found_nothing, found_file, is_there, counts_mergeinfo, made_fault, deleted_fault, copied_fault, text_fault, property_fault, IsOrMemory, IsTold, Tells, fault_of_failure, fault_of_left};

use crate::job_edits::failures::{of_failure, of_left};
use fsfs_base::FsPath;
use fsfs_cli::{Fault, LimitFault, RequestFault};
use fsfs_script::CopyFrom;
use fsfs_stands::LookFault;
use fsfs_txn::{Copied, Deleted, Made, PropertySet, TextSet, TxnError};
use std::alloc::Global;

/// So many names of the path lead to nothing.
pub(crate) fn nothing_at(alloc: Global, path: &FsPath, names: usize) -> Fault
    ensures { IsOrMemory (found_nothing path.now names) result }
{
    Fault::of_look(alloc, path, LookFault::NotFound { names })
}

/// So many names of the path lead to a file, and a directory must stand there.
pub(crate) fn file_at(alloc: Global, path: &FsPath, names: usize) -> Fault
    ensures { IsOrMemory (found_file path.now names) result }
{
    Fault::of_look(alloc, path, LookFault::NotDir { names })
}

pub(crate) fn is_there(path: &FsPath) -> Fault
    ensures { IsOrMemory (is_there path.now) result }
{
    match path.clone() {
        Ok(path) => Fault::Request(RequestFault::Exists(path)),
        Err(_) => Fault::Memory,
    }
}

fn counts_mergeinfo(path: &FsPath) -> Fault
    ensures { IsOrMemory (counts_mergeinfo path.now) result }
{
    match path.clone() {
        Ok(path) => Fault::Request(RequestFault::Mergeinfo(path)),
        Err(_) => Fault::Memory,
    }
}

fn made(alloc: Global, path: &FsPath, made: Made) -> Result<(), Fault>
    ensures { IsTold (made_fault path.now made) result }
{
    match made {
        Made::Done => Ok(()),
        Made::NotFound(names) => Err(nothing_at(alloc, path, names)),
        Made::NotDir(names) => Err(file_at(alloc, path, names)),
        Made::Exists => Err(is_there(path)),
        Made::Mergeinfo => Err(counts_mergeinfo(path)),
        Made::TooManyEntries => Err(Fault::Limit(LimitFault::TooManyEntries)),
    }
}

/// What is told of a new node.
pub(crate) fn tell_made(
    alloc: Global,
    path: &FsPath,
    outcome: Result<Made, TxnError>,
) -> Result<(), Fault>
    ensures { Tells fault_of_failure (made_fault path.now) outcome result }
{
    match outcome {
        Ok(outcome) => made(alloc, path, outcome),
        Err(error) => Err(of_failure(error)),
    }
}

fn deleted(alloc: Global, path: &FsPath, deleted: Deleted) -> Result<(), Fault>
    ensures { IsTold (deleted_fault path.now deleted) result }
{
    match deleted {
        Deleted::Done => Ok(()),
        Deleted::NotFound(names) => Err(nothing_at(alloc, path, names)),
        Deleted::NotDir(names) => Err(file_at(alloc, path, names)),
        Deleted::Absent => match path.clone() {
            Ok(path) => Err(Fault::Request(RequestFault::NotFound(path))),
            Err(_) => Err(Fault::Memory),
        },
        Deleted::RootFixed => Err(Fault::Request(RequestFault::RootFixed)),
        Deleted::Mergeinfo => Err(counts_mergeinfo(path)),
    }
}

/// What is told of a delete.
pub(crate) fn tell_deleted(
    alloc: Global,
    path: &FsPath,
    outcome: Result<Deleted, TxnError>,
) -> Result<(), Fault>
    ensures { Tells fault_of_failure (deleted_fault path.now) outcome result }
{
    match outcome {
        Ok(outcome) => deleted(alloc, path, outcome),
        Err(error) => Err(of_failure(error)),
    }
}

fn copied(alloc: Global, copy: &CopyFrom, copied: Copied) -> Result<(), Fault>
    ensures { IsTold (copied_fault copy.now.rev copy.now.from copy.now.to copied) result }
{
    match copied {
        Copied::Done => Ok(()),
        Copied::NotFound(names) => Err(nothing_at(alloc, &copy.to, names)),
        Copied::NotDir(names) => Err(file_at(alloc, &copy.to, names)),
        Copied::Exists => Err(is_there(&copy.to)),
        Copied::NoRev(youngest) => Err(Fault::Request(RequestFault::NoRev {
            asked: copy.rev,
            youngest,
        })),
        Copied::SourceNotFound(names) => Err(nothing_at(alloc, &copy.from, names)),
        Copied::SourceNotDir(names) => Err(file_at(alloc, &copy.from, names)),
        Copied::Mergeinfo => Err(counts_mergeinfo(&copy.to)),
        Copied::TooManyEntries => Err(Fault::Limit(LimitFault::TooManyEntries)),
    }
}

/// What is told of a copy.
pub(crate) fn tell_copied(
    alloc: Global,
    copy: &CopyFrom,
    outcome: Result<Copied, TxnError>,
) -> Result<(), Fault>
    ensures { Tells fault_of_failure (copied_fault copy.now.rev copy.now.from copy.now.to) outcome result }
{
    match outcome {
        Ok(outcome) => copied(alloc, copy, outcome),
        Err(error) => Err(of_failure(error)),
    }
}

fn text_set(path: &FsPath, set: TextSet) -> Result<(), Fault>
    ensures { IsTold (text_fault path.now set) result }
{
    match set {
        TextSet::Done => Ok(()),
        TextSet::NotFile => match path.clone() {
            Ok(path) => Err(Fault::Request(RequestFault::NotFile(path))),
            Err(_) => Err(Fault::Memory),
        },
        TextSet::Mergeinfo => Err(counts_mergeinfo(path)),
        TextSet::TooLong => Err(Fault::Limit(LimitFault::TextTooLong)),
        // These do not come: what was just opened is not stale, what is in memory does not fail, and no digest is given with it.
        TextSet::Stale { .. } => Err(Fault::Memory),
        TextSet::SourceFault => Err(Fault::Memory),
        TextSet::Checksum { .. } => Err(Fault::Memory),
    }
}

/// What is told of a text.
pub(crate) fn tell_text(path: &FsPath, outcome: Result<TextSet, TxnError>) -> Result<(), Fault>
    ensures { Tells fault_of_left (text_fault path.now) outcome result }
{
    match outcome {
        Ok(outcome) => text_set(path, outcome),
        Err(error) => Err(of_left(error)),
    }
}

fn property_set(path: &FsPath, set: PropertySet) -> Result<(), Fault>
    ensures { IsTold (property_fault path.now set) result }
{
    match set {
        PropertySet::Done => Ok(()),
        PropertySet::Mergeinfo => Err(counts_mergeinfo(path)),
        PropertySet::TooLong => Err(Fault::Limit(LimitFault::PropTooLong)),
        // What was just opened is not stale.
        PropertySet::Stale { .. } => Err(Fault::Memory),
    }
}

/// What is told of a property.
pub(crate) fn tell_property(
    path: &FsPath,
    outcome: Result<PropertySet, TxnError>,
) -> Result<(), Fault>
    ensures { Tells fault_of_left (property_fault path.now) outcome result }
{
    match outcome {
        Ok(outcome) => property_set(path, outcome),
        Err(error) => Err(of_left(error)),
    }
}
