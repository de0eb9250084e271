//! Administers repositories: `svnadmin create REPOS [--shard N]`, `lstxns REPOS`, `rmtxns REPOS TXN...`,
//! `dump REPOS`, `verify REPOS` and `pack REPOS`.
#![tactic(auto)]

use fsfs_run::{Tool, run};
use std::process::ExitCode;

fn main(rt: HostRuntime) -> ExitCode {
    run(&rt, rt, Tool::Admin)
}
