//! Printing the line of a fault. It takes no memory.
ghost use Rattle.std.specs.Prelude.{◌≡◌, ◌∷◌};
ghost use Rattle.fsfs_base.specs.Paths.{path_text};
ghost use Rattle.fsfs_base.specs.Output.{Prints};
ghost use Rattle.fsfs_cli.specs.Lines.{fault_words, line_of};
ghost use Rattle.fsfs_cli.specs.Pieces.{request_path, path_values};

use crate::Tool;
use crate::faults::fault::Fault;
use crate::faults::line::{fault_text, head_text};
use crate::faults::request_fault::RequestFault;
use fsfs_base::{Failed, FsPath, Sink, print};

// Writes a name with a `/` before it.
fn print_name<S: Sink>(sink: &mut S, name: &str) -> Result<(), Failed>
    ensures printed { Prints (S.written sink.old) (S.written sink.new) (47 ∷ name.now) (S.faults sink.old) (S.faults sink.new) result }
{
    print(sink, b"/")?;
    print(sink, name.as_bytes())
}

/// Writes the text of a path, name by name; or where the sink fails, a first part of it. It takes no memory.
pub fn print_path<S: Sink>(sink: &mut S, path: &FsPath) -> Result<(), Failed>
    ensures printed { Prints (S.written sink.old) (S.written sink.new) (path_text path.now) (S.faults sink.old) (S.faults sink.new) result }
{
    if path.is_root() {
        return print(sink, b"/");
    }
    for name in path.names() {
        print_name(sink, name)?;
    }
    Ok(())
}

// Writes the path of what is asked for, where it is told.
fn print_request_path<S: Sink>(sink: &mut S, why: &RequestFault) -> Result<(), Failed>
    ensures printed { Prints (S.written sink.old) (S.written sink.new) (request_path why.now) (S.faults sink.old) (S.faults sink.new) result }
{
    match why {
        RequestFault::NotFound(path)
        | RequestFault::NotDir(path)
        | RequestFault::NotFile(path)
        | RequestFault::Exists(path)
        | RequestFault::Mergeinfo(path) => print_path(sink, path),
        _ => Ok(()),
    }
}

// Writes the path of a fault that has one.
fn print_path_of<S: Sink>(sink: &mut S, fault: &Fault) -> Result<(), Failed>
    ensures printed { Prints (S.written sink.old) (S.written sink.new) (path_values fault.now) (S.faults sink.old) (S.faults sink.new) result }
{
    match fault {
        Fault::Request(why) => print_request_path(sink, why),
        _ => Ok(()),
    }
}

/// Writes the words of a fault: its name, and its values with a space before each; or where the sink fails, a first part of them.
pub fn print_words<S: Sink>(sink: &mut S, fault: &Fault) -> Result<(), Failed>
    ensures printed { Prints (S.written sink.old) (S.written sink.new) (fault_words fault.now) (S.faults sink.old) (S.faults sink.new) result }
{
    print(sink, fault_text(fault).as_str().as_bytes())?;
    print_path_of(sink, fault)
}

/// Writes the line of a fault: the program's name, a colon, a space, the fault's name, its values with a space before
/// each, and the end of the line; or where the sink fails, a first part of it.
pub fn print_fault<S: Sink>(sink: &mut S, tool: Tool, fault: &Fault) -> Result<(), Failed>
    ensures printed { Prints (S.written sink.old) (S.written sink.new) (line_of tool fault.now) (S.faults sink.old) (S.faults sink.new) result }
{
    print(sink, head_text(tool, fault).as_str().as_bytes())?;
    print_path_of(sink, fault)?;
    print(sink, b"\n")
}
