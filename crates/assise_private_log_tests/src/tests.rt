//! Logs are filled, copied and regrouped while there is memory.
use crate::refused::{copy_is_alike, regroups_or_stays};

#[test]
fn logs_are_copied_and_regrouped(rt: HostRuntime) {
    assert!(rt; copy_is_alike(rt.alloc()) == Some(true));
    assert!(rt; regroups_or_stays(rt.alloc()) == Some(true));
}
