//! Allocations that are refused: `checks/allocations digest` refuses each in turn.
use crate::regions::{append, coalesce, digest, region_of, seen};
use assise_digest::region::Region;
use assise_names::refusal::Refusal;
use std::alloc::Global;

/// What a client does.
const WRITES: &[&str] = &["new_file 10", "write 10 0 ab", "write 10 2 cd"];

const WRITES_TWICE: &[&str] = &["new_file 10", "write 10 0 ab", "write 10 0 cd"];

/// Three records become a group, which is digested. None where memory runs out for the test itself.
fn digests(alloc: Global, at_home: bool, wanted: &str) -> Option<bool> {
    let mut region = region_of(alloc, at_home, WRITES)?;
    digests_of(alloc, &mut region, wanted)
}

fn digests_of(alloc: Global, region: &mut Region, wanted: &str) -> Option<bool> {
    coalesce(region, 0)?.ok()?;
    let before = seen(alloc, region)?;
    let digested = digest(region)?;
    let after = seen(alloc, region)?;
    match digested {
        Ok(3) => Some(after.as_str() == wanted),
        Err(Refusal::OutOfMemory) => Some(after.as_str() == before.as_str()),
        _ => Some(false),
    }
}

/// Two of three records become a group, of which one is left.
fn coalesces(alloc: Global, wanted: &str) -> Option<bool> {
    let mut region = region_of(alloc, true, WRITES_TWICE)?;
    coalesces_of(alloc, &mut region, wanted)
}

fn coalesces_of(alloc: Global, region: &mut Region, wanted: &str) -> Option<bool> {
    let before = seen(alloc, region)?;
    let coalesced = coalesce(region, 1)?;
    let after = seen(alloc, region)?;
    match coalesced {
        Ok(()) => Some(after.as_str() == wanted),
        Err(_) => Some(after.as_str() == before.as_str()),
    }
}

/// The last of three records is appended.
fn appends(alloc: Global, wanted: &str) -> Option<bool> {
    let (last, others) = WRITES.split_last()?;
    let mut region = region_of(alloc, true, others)?;
    appends_to(alloc, &mut region, last, wanted)
}

fn appends_to(alloc: Global, region: &mut Region, effect: &str, wanted: &str) -> Option<bool> {
    let before = seen(alloc, region)?;
    let appended = append(alloc, region, effect);
    let after = seen(alloc, region)?;
    match appended {
        Some(()) => Some(after.as_str() == wanted),
        None => Some(after.as_str() == before.as_str()),
    }
}

/// What is seen of three records of a client that lives elsewhere, of which a number is digested.
const DIGESTED: [&str; 4] = [
    " 0..0..3; dir 0; none;",
    " 0..1..3; dir 0; file 0;",
    " 0..2..3; dir 0; file 2 ab;",
    " 0..3..3; dir 0; file 4 abcd;",
];

/// Three records are digested, each whole or not at all.
fn digests_each(alloc: Global) -> Option<bool> {
    let mut region = region_of(alloc, false, WRITES)?;
    digests_each_of(alloc, &mut region)
}

fn digests_each_of(alloc: Global, region: &mut Region) -> Option<bool> {
    let count = digest(region)?.unwrap_or(0);
    let after = seen(alloc, region)?;
    Some(DIGESTED.get(count) == Some(&after.as_str()))
}

#[test]
fn a_record_is_appended_or_not(rt: HostRuntime) {
    let all = " 0..0..3; dir 0; dir 0; none; file 4 abcd;";
    assert!(rt; appends(rt.alloc(), all) != Some(false));
}

#[test]
fn each_record_is_digested_or_not(rt: HostRuntime) {
    assert!(rt; digests_each(rt.alloc()) != Some(false));
}

#[test]
fn a_group_is_digested_whole_or_not_at_all(rt: HostRuntime) {
    let home = " 0..3..3; dir 0; dir 0; file 4 abcd; file 4 abcd;";
    assert!(rt; digests(rt.alloc(), true, home) != Some(false));
    let elsewhere = " 0..3..3; dir 0; file 4 abcd;";
    assert!(rt; digests(rt.alloc(), false, elsewhere) != Some(false));
}

#[test]
fn a_log_is_coalesced_whole_or_not_at_all(rt: HostRuntime) {
    let left = " 0..0..2; dir 0; dir 0; none; file 2 cd;";
    assert!(rt; coalesces(rt.alloc(), left) != Some(false));
}
