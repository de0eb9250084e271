// A caller that is held until another thread lets it go.
use fsfs_base::{Gate, GatePlace};
use fsfs_memory::HoldGate;
use std::sync::atomic::AtomicBool;
use std::sync::atomic::Ordering::SeqCst;
use std::test::Fail;
use std::thread;

#[test]
fn a_caller_is_held_until_the_other_place_is_passed(rt: HostRuntime) -> Result<(), Fail> {
    let gate = HoldGate::new(GatePlace::AfterPutRev, 1, GatePlace::AfterJob, 2);
    let done = AtomicBool::new(false);
    let (went_on_behind, _) = thread::join(
        &rt,
        || {
            gate.at(GatePlace::AfterPutRev, 1);
            done.load(SeqCst)
        },
        || {
            gate.at(GatePlace::InRead, 2);
            gate.at(GatePlace::AfterPutRev, 2);
            done.store(true, SeqCst);
            gate.at(GatePlace::AfterJob, 2);
        },
    );
    assert_eq!(&rt; went_on_behind, true);
    assert_eq!(&rt; gate.gave_up(), false);
    Ok(())
}

#[test]
fn nobody_is_held_once_the_other_place_was_passed(rt: HostRuntime) -> Result<(), Fail> {
    let gate = HoldGate::new(GatePlace::InRead, 2, GatePlace::AfterJob, 1);
    gate.at(GatePlace::AfterJob, 2);
    gate.at(GatePlace::AfterJob, 1);
    gate.at(GatePlace::InRead, 2);
    assert_eq!(rt; gate.turns(), 0);
    assert_eq!(rt; gate.gave_up(), false);
    Ok(())
}

#[test]
fn a_caller_that_nobody_lets_go_is_held_for_all_turns(rt: HostRuntime) -> Result<(), Fail> {
    let gate = HoldGate::new(GatePlace::BeforeReveal, 0, GatePlace::AfterJob, 1);
    gate.at(GatePlace::BeforeReveal, 1);
    assert_eq!(rt; gate.gave_up(), false);
    gate.at(GatePlace::BeforeReveal, 0);
    assert_eq!(rt; gate.turns(), 20_000_000);
    assert_eq!(rt; gate.gave_up(), true);
    // Only the first caller is held.
    gate.at(GatePlace::BeforeReveal, 0);
    assert_eq!(rt; gate.turns(), 20_000_000);
    Ok(())
}
