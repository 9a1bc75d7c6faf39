//! Steps that are refused as out of memory, where each allocation of a run is refused in turn. What is refused leaves all as it
//! was, and the same step answers then.
use crate::tests::desk::Desk;
use crate::tests::seen::see;
use crate::tests::tasks::{Task, on_desk};
use assise_names::refusal::Refusal;
use std::alloc::Global;
use std::process::Abort;

/// A frame is sent, and its record digested; a lease is handed over; a node fails and comes back, and then the other one fails; fewer
/// inodes may be hot than are; and an optimistic client's dsync makes a group, which is sent and digested. No digest has more than one
/// group.
const ROWS: &str = "\
cluster 2 8 2
open 1 least => Opened(Ok(1))
1 create /f => Called(Ok(Answered(Done)))
1 fsync => Called(Ok(NotYet))
carry 1 => Carried(Ok(1))
carry 2 => Carried(Ok(0))
1 fsync => Called(Ok(Answered(Done)))
raise 1 => Raised(Ok(()))
digest 1 => Digested(Ok(1))
digest 2 => Digested(Ok(1))
digest 2 => Digested(Ok(0))
cluster 1 8 2
open 1 least => Opened(Ok(1))
open 1 whole => Opened(Ok(2))
1 create /f => Called(Ok(Answered(Done)))
2 write /f 0 ta => Called(Ok(NotYet))
digest 1 => Digested(Ok(1))
release => Released(1)
2 write /f 0 ta => Called(Ok(NotYet))
release => Released(1)
2 write /f 0 ta => Called(Ok(Answered(Done)))
digest 1 => Digested(Ok(1))
cluster 2 8 2
open 1 least => Opened(Ok(1))
1 create /f => Called(Ok(Answered(Done)))
1 fsync => Called(Ok(NotYet))
carry 1 => Carried(Ok(1))
1 fsync => Called(Ok(Answered(Done)))
1 write /f 0 tbb => Called(Ok(Answered(Done)))
fail 1 => Failed(Ok([(1, 2)]))
digest 2 => Digested(Ok(1))
open 2 least => Opened(Ok(2))
back 1 => Began(Ok(2))
refill 1 => Left(Ok(1))
refill 1 => Left(Ok(0))
join 1 => Joined(Ok(()))
fail 2 => Failed(Ok([]))
crash 2 => Crashed(Err(NodeDown))
open 1 least => Opened(Ok(3))
crash 3 => Crashed(Ok(()))
cluster 1 8 2
open 1 least => Opened(Ok(1))
1 create /f => Called(Ok(Answered(Done)))
digest 1 => Digested(Ok(1))
1 stat /f => Called(Ok(Answered(File(0))))
hot 1 1 => HotSet(Ok(()))
hot 1 2 => HotSet(Ok(()))
cluster 2 8 2
open 1 least optimistic => Opened(Ok(1))
1 create /f => Called(Ok(Answered(Done)))
1 write /f 0 ta => Called(Ok(Answered(Done)))
1 write /f 0 tb => Called(Ok(Answered(Done)))
1 dsync => Called(Ok(NotYet))
carry 1 => Carried(Ok(1))
1 dsync => Called(Ok(Answered(Done)))
digest 1 => Digested(Ok(2))
digest 2 => Digested(Ok(2))
";

/// Makes the steps, each once more where it is refused as out of memory. Sees that no refused step changed what is seen, and that each
/// step comes to what its row says then.
pub(crate) fn see_made_again(alloc: Global, rt: &impl Abort, desk: &mut Desk) {
    assert!(rt;
        are_right(alloc, desk) != Some(false),
        "{}",
        desk.line.as_str()
    );
}

/// None where memory runs out for the test itself.
fn are_right(alloc: Global, desk: &mut Desk) -> Option<bool> {
    for row in ROWS.lines() {
        let (step, wanted) = row.split_once(" => ").unwrap_or((row, ""));
        if !is_right(alloc, desk, step, wanted)? {
            return Some(false);
        }
    }
    Some(true)
}

/// Makes a step, once more where it is refused as out of memory.
fn is_right(alloc: Global, desk: &mut Desk, step: &str, wanted: &str) -> Option<bool> {
    see(&desk.cluster, &mut desk.before).ok()?;
    desk.make(alloc, step)?;
    if desk.outcome.as_str() == wanted {
        return Some(true);
    }
    see(&desk.cluster, &mut desk.after).ok()?;
    if !may_be_refused(desk) || desk.before.as_str() != desk.after.as_str() {
        return Some(false);
    }
    desk.make(alloc, step)?;
    Some(desk.outcome.as_str() == wanted)
}

/// Whether want of memory is all that stood against a step. A carry only says what came.
fn may_be_refused(desk: &Desk) -> bool {
    let outcome = desk.outcome.as_str();
    outcome.contains("OutOfMemory") || outcome == "Carried(Ok(0))"
}

#[test]
fn what_is_refused_is_made_again(rt: HostRuntime) {
    let ended = on_desk(rt.alloc(), &rt, Task::Again);
    assert!(rt; matches!(ended, Ok(()) | Err(Refusal::OutOfMemory)));
}
