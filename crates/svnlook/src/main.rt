//! Looks into repositories: `svnlook youngest`, `uuid`, `tree`, `cat`, `changed`, `history`, `author`, `date`, `log` and `info`.
#![tactic(auto)]

use fsfs_run::{Tool, run};
use std::process::ExitCode;

fn main(rt: HostRuntime) -> ExitCode {
    run(&rt, rt, Tool::Look)
}
