//! Scripts in which a node fails at each place, and comes back.
use crate::tests::desk::Desk;
use crate::tests::faults::{fault_at_the_end, fault_behind};
use crate::tests::tasks::{Task, on_desk};
use assise_test_rows::scripts::{
    BACK_AND_ALONE, BACK_BY_HAND, CARRIED_IN_PART, CRASHED, CROSSING, CUT_AT_AN_FSYNC, DONOR_FAILS,
    FAILS_AGAIN, HANDED_BY_HAND, HANDED_LEAST, HANDED_WHOLE, LOST_FILE, OUT_OF_ORDER, SHARED_FILE,
};
use std::alloc::Global;
use std::process::Abort;

/// A client writes on each of two nodes, and the lease of the file is handed over between them.
const HANDED_OVER: &str = "\
cluster 2 16 2
manual
open 1 least
open 2 whole
1 create /f
1 write /f 0 ta
1 fsync
carry 1
1 fsync
1 write /f 1 tb
2 write /f 2 tc
digest 1
digest 2
release
2 write /f 2 tc
carry 1
digest 2
digest 1
release
2 write /f 2 tc
2 fsync
carry 2
2 fsync
1 read /f 0 9
digest 1
digest 2
release
1 read /f 0 9
";

/// Clients of all of three nodes write, and leases are handed over.
const THREE_CLIENTS: &str = "\
cluster 3 16 2
manual
open 1 least
open 2 least
open 1 eights
1 create /f
1 create /g
1 create /h
1 fsync
carry 1
carry 2
1 fsync
digest 1
digest 2
digest 3
2 write /g 0 tx
release
2 write /g 0 tx
release
2 write /g 0 tx
3 write /h 0 ty
release
3 write /h 0 ty
1 write /f 0 tz
3 fsync
2 fsync
1 fsync
carry 1
carry 2
digest 1
digest 3
carry 3
1 fsync
2 fsync
crash 3
digest 1
3 unlink /h
";

/// Scripts with many steps.
const LONG: &[&str] = &[THREE_CLIENTS, CROSSING];

/// Scripts with fewer steps.
const SHORT: &[&str] = &[
    HANDED_OVER,
    SHARED_FILE,
    HANDED_BY_HAND,
    LOST_FILE,
    CUT_AT_AN_FSYNC,
    CARRIED_IN_PART,
    HANDED_LEAST,
    HANDED_WHOLE,
    BACK_AND_ALONE,
    BACK_BY_HAND,
    DONOR_FAILS,
    OUT_OF_ORDER,
    FAILS_AGAIN,
    CRASHED,
];

/// How many steps further who failed comes back.
const AT_ONCE: usize = 0;

const LATER: usize = 5;

/// More steps than any script has.
const AT_THE_END: usize = 512;

/// Sees that nothing is wrong in scripts, each served by steps, whichever node fails before whichever step, and comes back `away`
/// steps further.
pub(crate) fn see_failures(
    alloc: Global,
    rt: &impl Abort,
    desk: &mut Desk,
    away: usize,
    scripts: &[&str],
) {
    for script in scripts {
        desk.serve(alloc, script)
            .expect(rt, "no such line, or no memory");
        let steps = desk.steps.clone().expect(rt, "no memory");
        see_failures_of(alloc, rt, desk, steps.as_str(), away);
    }
}

/// The same of the steps of a script, the first of which makes the cluster.
fn see_failures_of(alloc: Global, rt: &impl Abort, desk: &mut Desk, steps: &str, away: usize) {
    for node in 1..=desk.nodes {
        for place in 1..=steps.lines().count() {
            let fault = fault_of(alloc, desk, steps, node, place, away);
            assert!(rt;
                fault == Some(""),
                "{fault:?}: node {node} fails before step {place}"
            );
        }
    }
}

/// What is wrong behind a step from the place on where a node fails, which comes back `away` steps further, or at the end. Steps may
/// be refused then.
fn fault_of(
    alloc: Global,
    desk: &mut Desk,
    steps: &str,
    node: u32,
    place: usize,
    away: usize,
) -> Option<&'static str> {
    let mut number = 0_usize;
    for step in steps.lines() {
        fail_or_return(alloc, desk, node, place, away, number)?;
        desk.make(alloc, step)?;
        if place <= number {
            let fault = fault_behind(alloc, desk)?;
            if !fault.is_empty() {
                return Some(fault);
            }
        }
        number = number.saturating_add(1);
    }
    fail_or_return(alloc, desk, node, place, away, number)?;
    fault_at_the_end(alloc, desk)
}

/// A node fails before the step of a place, and comes back `away` steps further.
fn fail_or_return(
    alloc: Global,
    desk: &mut Desk,
    node: u32,
    place: usize,
    away: usize,
    number: usize,
) -> Option<()> {
    if number == place {
        desk.make_of(alloc, "fail", node)?;
    }
    if number == place.saturating_add(away) {
        desk.bring_back(alloc, node)?;
    }
    Some(())
}

fn fail(alloc: Global, rt: &impl Abort, away: usize, scripts: &[&str]) {
    on_desk(alloc, rt, Task::Failures(away, scripts)).expect(rt, "no memory");
}

#[test]
fn a_node_that_fails_anywhere_is_back_at_once(rt: HostRuntime) {
    fail(rt.alloc(), &rt, AT_ONCE, LONG);
}

#[test]
fn a_node_that_fails_anywhere_is_back_five_steps_further(rt: HostRuntime) {
    fail(rt.alloc(), &rt, LATER, LONG);
}

#[test]
fn a_node_that_fails_anywhere_is_back_at_the_end(rt: HostRuntime) {
    fail(rt.alloc(), &rt, AT_THE_END, LONG);
}

#[test]
fn a_node_that_fails_anywhere_in_a_short_script_is_back_at_once(rt: HostRuntime) {
    fail(rt.alloc(), &rt, AT_ONCE, SHORT);
}

#[test]
fn a_node_that_fails_anywhere_in_a_short_script_is_back_five_steps_further(rt: HostRuntime) {
    fail(rt.alloc(), &rt, LATER, SHORT);
}

#[test]
fn a_node_that_fails_anywhere_in_a_short_script_is_back_at_the_end(rt: HostRuntime) {
    fail(rt.alloc(), &rt, AT_THE_END, SHORT);
}
