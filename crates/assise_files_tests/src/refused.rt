//! Allocations that are refused: `checks/allocations desk` refuses each in turn.
use crate::requests::Requests;
use std::alloc::Global;

/// What a request that finds no memory is answered with.
const NO_MEMORY: i64 = -101;

/// Two nodes, whose logs get full; what is handed over, lost, listed, brought back and renewed.
const STEPS: &str = "\
make 2 8 4 => 0
open 1 => 1
open 2 => 2
mkdir 1 /d => 0
create 1 /d/f => 0
write 1 /d/f text => 0
write 1 4 /d/f text => 0
write 1 8 /d/f text => 0
truncate 1 6 /d/f => 0
create 1 /d/g => 0
create 1 /d/h => 0
unlink 1 /d/g => 0
rename 1 /d/h /d/i => 0
read 2 0 64 /d/f => 6
list 2 0 64 /d => 4
write 2 /d/f next => 0
fsync 2 => 0
create 1 /lost => 0
fail 1 => 12
open 2 => 3
stat 3 /lost => -1
back 1 => 0
open 1 => 4
read 4 2 64 /d/f => 4
renew 3 8 4 => 0
read 1 2 64 /d/f => 4
legal => 1
free => 0
";

/// Whether the request of a row has its result: where it finds no memory it is made again. A node whose return found none fails first.
fn is_served(alloc: Global, requests: &mut Requests, row: &str) -> Option<bool> {
    let (step, wanted) = row.split_once(" => ")?;
    requests.step(alloc, step)?;
    if requests.result() == NO_MEMORY {
        if step == "back 1" {
            requests.step(alloc, "fail 1")?;
        }
        requests.step(alloc, step)?;
    }
    Some(Ok(requests.result()) == wanted.parse::<i64>())
}

/// The first row that hasn't its result.
fn first_wrong(alloc: Global) -> Option<&'static str> {
    let mut requests = Requests::new();
    STEPS
        .lines()
        .find(|row| is_served(alloc, &mut requests, row) != Some(true))
}

#[test]
fn refused_requests_are_served_once_there_is_memory(rt: HostRuntime) {
    let wrong = first_wrong(rt.alloc());
    assert!(rt; wrong == None, "{wrong:?}");
}
