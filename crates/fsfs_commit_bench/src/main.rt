//! Times of commits: `fsfs_commit_bench REPOS COUNT` commits as often a new text of the file `/f`, which the first commit makes where
//! it isn't there, in the repository of a folder, and tells the microseconds. Without words it does nothing.
#![tactic(auto)]

mod commits;

use anyhow::{Result, bail};
use commits::commit_all;
use fsfs_disk::{Access, Disk, Host};
use fsfs_hostcalls::HostFileSystem;
use fsfs_mount::FolderHost;
use std::alloc::Global;
use std::env::args;
use std::rt::Clock;
use std::time::Instant;

// The disk isn't handed back: the program ends, and with it the locks.
fn time<R: Clock + Print, H: Host>(
    rt: &R,
    alloc: Global,
    host: &mut H,
    repos: &str,
    count: u64,
) -> Result<()>
where
    H::Mounted: Drop,
    <H::Mounted as Disk>::Bench: Drop,
{
    let Ok(disk) = host.mount(repos, Access::Write) else {
        bail!("the repository is refused");
    };
    let start = Instant::now(rt)?;
    let done = commit_all(alloc, disk, count);
    let took = start.elapsed(rt)?.as_micros();
    if done < count {
        bail!("a commit failed");
    }
    println!(rt; "{count} commits in {took} us")?;
    Ok(())
}

fn main(rt: HostRuntime) -> Result<()> {
    let alloc = rt.alloc();
    let words: Vec<String> = args(&rt)?.skip(1).collect(alloc)?;
    match words.as_slice() {
        [] => Ok(()),
        [repos, count] => {
            let Ok(count) = count.parse::<u64>() else {
                bail!("no number of commits");
            };
            let mut host = FolderHost::new(alloc, HostFileSystem::new(rt.clone()?));
            time(&rt, alloc, &mut host, repos.as_str(), count)
        }
        _ => bail!("fsfs_commit_bench [REPOS COUNT]"),
    }
}
