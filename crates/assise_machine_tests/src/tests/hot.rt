//! Which inodes are hot at a node.
use crate::tests::desk::{Cluster, Desk};
use crate::tests::tasks::{Task, on_desk};
use std::alloc::Global;
use std::process::Abort;

/// Steps, a node, and whether the root and the first two inodes of client 1 are hot there behind them: what a call visits is, at its
/// client's home and nowhere else, and where fewer may be hot the longest unused ones are cold.
const ROWS: [(&str, u32, [bool; 3]); 15] = [
    ("cluster 2 8 4096\nopen 2 least", 2, [false, false, false]),
    ("1 stat /", 2, [true, false, false]),
    ("", 1, [false, false, false]),
    (
        "1 create /f\n1 fsync\ncarry 2\ndigest 2",
        2,
        [true, false, false],
    ),
    ("1 stat /f", 2, [true, true, false]),
    (
        "cluster 1 8 1\nopen 1 least\n1 create /f",
        1,
        [true, false, false],
    ),
    ("digest 1\n1 stat /f", 1, [false, true, false]),
    ("1 stat /", 1, [true, false, false]),
    (
        "cluster 1 8 3\nopen 1 least\n1 create /a\n1 create /b\ndigest 1\n1 stat /a\n1 stat /b",
        1,
        [true, true, true],
    ),
    ("hot 1 2", 1, [true, false, true]),
    ("1 stat /a", 1, [true, true, false]),
    ("hot 1 4096", 1, [true, true, false]),
    ("1 stat /b", 1, [true, true, true]),
    ("hot 1 1", 1, [false, false, true]),
    (
        "cluster 1 8 64\nopen 1 least\n1 create /a\n1 create /b\ndigest 1\n1 stat /b\n1 stat /a",
        1,
        [true, true, true],
    ),
];

/// Sees that what each row says is hot.
pub(crate) fn see_hot(alloc: Global, rt: &impl Abort, desk: &mut Desk) {
    for &(steps, node, hot) in &ROWS {
        for line in steps.lines() {
            desk.make(alloc, line).expect(rt, "no memory");
        }
        assert!(rt; hot_at(&desk.cluster, node) == hot, "{steps}");
    }
}

fn hot_at(cluster: &Cluster, node: u32) -> [bool; 3] {
    match cluster.region(node) {
        Ok(region) => [
            region.is_hot(0),
            region.is_hot(4_294_967_296),
            region.is_hot(4_294_967_297),
        ],
        Err(_) => [false; 3],
    }
}

#[test]
fn what_a_call_visits_is_hot(rt: HostRuntime) {
    assert!(rt; on_desk(rt.alloc(), &rt, Task::Hot).is_ok());
}
