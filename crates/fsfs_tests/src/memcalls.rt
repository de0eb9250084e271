// The calls in memory.
use crate::each_call::{EACH_CALL, each_call};
use fsfs_memcalls::MemCalls;
use std::test::Fail;

#[test]
fn each_call_is_answered_in_memory(rt: HostRuntime) -> Result<(), Fail> {
    let alloc = rt.alloc();
    let mut calls = MemCalls::new(alloc)?;
    let told = each_call(alloc, &mut calls)?;
    assert_eq!(rt; told.as_str(), EACH_CALL);
    Ok(())
}
