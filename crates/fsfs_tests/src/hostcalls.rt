// The calls over a folder of the machine.
use crate::each_call::{EACH_CALL, each_call};
use fsfs_folders::{CallError, Calls, Path};
use fsfs_hostcalls::HostCalls;
use std::test::Fail;
use std::{env, fs, process};

#[test]
fn each_call_is_answered_on_the_machine(rt: HostRuntime) -> Result<(), Fail> {
    let temp = env::temp_dir(&rt)?;
    let temp = temp.as_str();
    let id = process::id(rt.process());
    let alloc = rt.alloc();
    let folder = format!(in alloc; "{temp}/fsfs_hostcalls-{id}")?;
    fs::create_dir(&rt, folder.as_str())?;
    let again = String::from_str(alloc, folder.as_str())?;
    let mut calls = HostCalls::new(rt.clone()?, String::from_str(alloc, folder.as_str())?);
    let told = each_call(alloc, &mut calls)?;
    assert_eq!(rt; told.as_str(), EACH_CALL);
    let mut other = HostCalls::new(rt.clone()?, again);
    assert_eq!(rt; other.lock_folder(&Path::new("db")), Err(CallError::Locked));
    calls.unlock();
    assert_eq!(rt; other.lock_folder(&Path::new("db")), Ok(()));
    fs::remove_dir_all(&rt, folder.as_str())?;
    Ok(())
}
