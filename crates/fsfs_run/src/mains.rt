//! What the mains of all programs do.

use fsfs_cli::{Fault, OutsideFault, print_fault, status};
use fsfs_hostcalls::HostFileSystem;
use fsfs_mount::FolderHost;
use fsfs_outside::{
    Progress, ProgressGate, StreamSink, StreamSource, SystemClock, SystemDice, words,
};
use fsfs_top::{Tool, command};
use std::io::IsTerminal;
use std::process::ExitCode;
use std::sync::Wait;
use std::thread::Threads;

// What a program's gate tells of.
fn progress_of(tool: Tool) -> Progress {
    match tool {
        Tool::Jobs => Progress::Jobs,
        Tool::Admin | Tool::Look => Progress::Revisions,
    }
}

/// Makes the real outside, calls `command` for this program, and gives its status. Where the machine can't give the moment or
/// random bytes the program ends with `ReadFault` and 4, before the command. Only a `main` can hand in a handle on threads.
pub fn run<T: Threads + Wait + Sync>(threads: &T, rt: HostRuntime, tool: Tool) -> ExitCode {
    let mut err = StreamSink::new(rt.stderr());
    let Ok(words) = words(&rt) else {
        let _ = print_fault(&mut err, tool, &Fault::Memory);
        return ExitCode::from(status(&Fault::Memory));
    };
    // In the top call a clock and dice can't fail, so a machine that can't give them ends the program before.
    let (Ok(mut clock), Ok(mut dice)) = (SystemClock::read(&rt), SystemDice::draw(&rt)) else {
        let fault = Fault::Outside(OutsideFault::Read);
        let _ = print_fault(&mut err, tool, &fault);
        return ExitCode::from(status(&fault));
    };
    // A run of a script and a dump tell a terminal how far they have come.
    let shown = if rt.stderr().is_terminal() {
        Some(rt.stderr())
    } else {
        None
    };
    let gate = ProgressGate::new(rt, progress_of(tool), shown);
    ExitCode::from(command(
        threads,
        rt.alloc(),
        tool,
        &words,
        &mut FolderHost::new(rt.alloc(), HostFileSystem::for_one_folder(rt)),
        &mut StreamSource::new(rt.stdin()),
        &mut StreamSink::new(rt.stdout()),
        &mut err,
        &mut clock,
        &mut dice,
        &gate,
        // The machine's disks tell nothing.
        true,
    ))
}
