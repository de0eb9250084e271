//! Commits the transactions of a job script: `svnjobs REPOS [-j N]`.
#![tactic(auto)]

use fsfs_run::{Tool, run};
use std::process::ExitCode;

fn main(rt: HostRuntime) -> ExitCode {
    run(&rt, rt, Tool::Jobs)
}
