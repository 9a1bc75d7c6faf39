//! Members fail, are filled and join while there is memory.
use crate::refused::steps_or_stays;

#[test]
fn nodes_fail_are_filled_and_join(rt: HostRuntime) {
    assert!(rt; steps_or_stays(rt.alloc()) == Some(true));
}
