//! Allocations that are refused: `checks/allocations members` refuses each in turn.
use assise_manager::members::Members;
use assise_names::refusal::Refusal;
use std::alloc::Global;

/// What is done to three nodes: lists are begun and grow, a node comes back and lacks more, another joins, and the donor fails.
const STEPS: &[(&str, u32, &[u64])] = &[
    ("fail", 3, &[0, 7]),
    ("write", 1, &[5]),
    ("back", 3, &[]),
    ("write", 1, &[1, 2, 3, 4, 6]),
    ("fail", 2, &[8]),
    ("back", 2, &[]),
    ("copied", 2, &[]),
    ("join", 2, &[]),
    ("reserved", 1, &[9]),
    ("fail", 1, &[10]),
];

/// Makes a step, where another epoch can begin.
fn step(members: &mut Members, word: &str, node: u32, inodes: &[u64]) -> Result<(), Refusal> {
    match word {
        "fail" if members.epoch() < u64::MAX => members.fail(node, inodes)?,
        "join" if members.epoch() < u64::MAX => members.join(node)?,
        "write" => members.note_written(node, inodes)?,
        "reserved" => write_reserved(members, node, inodes)?,
        "back" => {
            members.back(node)?;
        }
        "copied" => {
            members.note_copied(node)?;
        }
        _ => return Err(Refusal::WrongPhase),
    }
    Ok(())
}

/// Inodes are written at a node, once there is room.
fn write_reserved(members: &mut Members, node: u32, inodes: &[u64]) -> Result<(), Refusal> {
    members.reserve_written(node, inodes.len())?;
    members.note_reserved(node, inodes);
    Ok(())
}

/// The epoch, how many nodes are full, whether the others come back, and how long the epoch's list is.
fn seen(members: &Members) -> (u64, usize, bool, bool, usize) {
    let epoch = members.epoch();
    let written = match members.written_in(epoch) {
        Some(inodes) => inodes.len(),
        None => 0,
    };
    let full = members.full_nodes().len();
    (
        epoch,
        full,
        members.donor(2).is_ok(),
        members.donor(3).is_ok(),
        written,
    )
}

/// Makes all steps. None where memory ran out; false where a refused step changed the members.
pub(crate) fn steps_or_stays(alloc: Global) -> Option<bool> {
    let mut members = Members::new(alloc, 3).ok()?;
    for &(word, node, inodes) in STEPS {
        let before = seen(&members);
        if step(&mut members, word, node, inodes).is_err() {
            return if seen(&members) == before {
                None
            } else {
                Some(false)
            };
        }
    }
    Some(true)
}

#[test]
fn a_refused_allocation_leaves_all_members(rt: HostRuntime) {
    assert!(rt; steps_or_stays(rt.alloc()) != Some(false));
}
