//! Allocations that are refused: `checks/allocations logs` refuses each in turn.
use assise_names::name::Name;
use assise_private_log::log::Log;
use assise_record::effect::Effect;
use assise_record::record::Record;
use std::alloc::Global;

/// An effect that takes memory when it is copied.
fn unlink(alloc: Global) -> Option<Vec<Effect>> {
    let name = Name::parse(alloc, "f").ok()?;
    let mut effects = Vec::new(alloc);
    effects.push(Effect::Unlink { directory: 7, name }).ok()?;
    Some(effects)
}

/// Adds a record of effects, if there may be one.
fn add(log: &mut Log, effects: Vec<Effect>) -> Option<()> {
    let number = log.end();
    if number == u64::MAX || effects.is_empty() || effects.len() > 4 {
        return None;
    }
    log.append(Record::new(number, effects)).ok()
}

/// A log of 8 with two records.
fn log_of_two(alloc: Global) -> Option<Log> {
    let mut log = Log::new(alloc, 8).ok()?;
    add(&mut log, unlink(alloc)?)?;
    add(&mut log, unlink(alloc)?)?;
    Some(log)
}

/// Whether a log has `count` records, and the first is of call 0 and touches inode 7.
fn has_first_of(log: &Log, count: usize) -> bool {
    let is_first = log.get(0).is_some_and(|record| record.call() == 0);
    is_first && log.len() == count && log.view().touches(0, 7)
}

/// Copies a log, and says whether log and copy are what the log was. None where memory ran out, and the log is as it was.
pub(crate) fn copy_is_alike(alloc: Global) -> Option<bool> {
    let log = log_of_two(alloc)?;
    let copied = log.copy(alloc);
    if !has_first_of(&log, 2) {
        return Some(false);
    }
    Some(has_first_of(&copied.ok()?, 2))
}

/// Cuts a log into groups, and says whether one record is left. None where memory ran out, and both are left.
pub(crate) fn regroups_or_stays(alloc: Global) -> Option<bool> {
    let mut log = log_of_two(alloc)?;
    match log.regroup(alloc, 0) {
        Ok(()) => Some(has_first_of(&log, 1)),
        Err(_) if has_first_of(&log, 2) => None,
        Err(_) => Some(false),
    }
}

#[test]
fn a_log_that_cannot_be_regrouped_stays(rt: HostRuntime) {
    assert!(rt; regroups_or_stays(rt.alloc()) != Some(false));
}

#[test]
fn a_refused_allocation_is_answered(rt: HostRuntime) {
    assert!(rt; copy_is_alike(rt.alloc()) != Some(false));
}
