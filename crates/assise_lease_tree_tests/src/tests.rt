//! Leases are acquired and listed while there is memory.
use crate::refused::acquires_or_leaves;

#[test]
fn leases_are_acquired_and_listed(rt: HostRuntime) {
    assert!(rt; acquires_or_leaves(rt.alloc()) == Some(true));
}
