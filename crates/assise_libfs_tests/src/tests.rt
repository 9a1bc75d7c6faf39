//! What contracts can't say: that calls are answered, and after how many tries they are refused.
use crate::ledger::Ledger;
use crate::ledgers::{calls_of_two, sync_once};
use std::test::Fail;

/// Tries that wait, whether the ledger is full, and turns of a call; and what comes of a call, with the count of its tries.
const SYNCS: [(u32, bool, u32, &str); 6] = [
    (0, false, 1, "done by 1"),
    (3, false, 4, "done by 4"),
    (40, false, 41, "done by 41"),
    (3, false, 3, "F2 Busy by 3"),
    (40, false, 20, "F2 Busy by 20"),
    (3, true, 9, "F12 LogFull by 1"),
];

#[test]
fn a_call_is_tried_until_it_is_answered_or_its_turns_are_spent(
    rt: HostRuntime,
) -> Result<(), Fail> {
    for &(waits, full, turns, outcome) in &SYNCS {
        let ledger = Ledger::new(rt.alloc(), waits, full);
        let came = sync_once(&rt, rt.alloc(), ledger, turns).ok_or(outcome)?;
        assert_eq!(rt; came.as_str(), outcome);
    }
    Ok(())
}

#[test]
fn clients_that_meet_keep_their_calls(rt: HostRuntime) {
    assert_eq!(rt; calls_of_two(&rt, rt.alloc()), Some((1, 0)));
}
