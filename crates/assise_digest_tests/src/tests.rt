//! What no contract of a region says: that groups are digested at once, and what is hot.
ghost use Rattle.std.specs.Prelude.{◌≡◌, [], true};

use crate::regions::{digest, region_of, seen};
use assise_digest::region::Region;
use assise_inode_table::inode::Inode;
use assise_test_rows::{Subject, split_word, wrong_rows};
use std::alloc::Global;

/// What is seen where four groups of a record each were digested.
fn seen_behind_a_digest(alloc: Global) -> Option<String> {
    let effects = [
        "new_file 10",
        "write 10 0 ab",
        "write 10 0 cd",
        "set_len 10 1",
    ];
    let mut region = region_of(alloc, true, &effects)?;
    digest(&mut region)?.ok()?;
    seen(alloc, &region)
}

#[test]
fn groups_are_digested_at_once(rt: HostRuntime) {
    let text = seen_behind_a_digest(rt.alloc()).expect(&rt, "no memory");
    assert!(rt;
        text.as_str() == " 0..4..4; dir 0; dir 0; file 1 c; file 1 c;",
        "{text}"
    );
}

/// A new region without clients for each row, of which 4 inodes may be hot: `refill INODE`, `touch INODE`, `capacity COUNT`, and
/// `hot INODE`, which asks.
#[derive(Clone, Copy)]
struct NewRegion;

impl Subject for NewRegion {
    fn put(&mut self, alloc: Global, steps: &str, text: &mut String) -> Option<()> {
        let mut region = Region::new(alloc, 4).ok()?;
        put_steps(alloc, &mut region, steps, text)
    }
}

fn put_steps(alloc: Global, region: &mut Region, steps: &str, text: &mut String) -> Option<()> {
    for step in steps.split_terminator(", ") {
        let (word, number) = split_word(step);
        let number = number.parse::<u64>().ok()?;
        match word {
            "refill" => refill(alloc, region, number)?,
            "touch" => region.touch(number),
            "capacity" => set_hot_capacity(region, number as usize)?,
            _ => text
                .push_str(if region.is_hot(number) {
                    " hot"
                } else {
                    " cold"
                })
                .ok()?,
        }
    }
    Some(())
}

/// A number gets a directory.
fn refill(alloc: Global, region: &mut Region, inode: u64) -> Option<()> {
    if region.clients() != 0 {
        return None;
    }
    let directory = Inode::new_directory(alloc);
    region.refill_one(inode, Some(directory)).ok()
}

fn set_hot_capacity(region: &mut Region, capacity: usize) -> Option<()> {
    if capacity == 0 || capacity > 4096 {
        return None;
    }
    region.set_hot_capacity(capacity).ok()
}

/// What a use makes hot, and what cools where fewer may be hot: no contract of a region says which are.
const HOT: &str = "\
hot 0, touch 0, hot 0, touch 10, hot 10 => cold hot cold
refill 10, capacity 1, touch 10, hot 10, hot 0, touch 0, hot 0, hot 10 => hot cold hot cold
refill 10, capacity 2, touch 0, touch 10, hot 0, hot 10, capacity 1, hot 0, hot 10 => hot hot cold hot
refill 10, capacity 2, touch 0, touch 10, touch 0, capacity 1, hot 0, hot 10, capacity 4096, hot 0, hot 10 => hot cold hot cold
refill 10, refill 11, capacity 2, touch 0, touch 10, touch 11, hot 0, hot 10, hot 11 => cold hot hot
";

#[test]
fn what_was_used_last_is_hot(rt: HostRuntime) {
    let wrong = wrong_rows(rt.alloc(), &mut NewRegion, HOT).expect(&rt, "no memory");
    assert!(rt; wrong.is_empty(), "what comes out:\n{wrong}");
}
