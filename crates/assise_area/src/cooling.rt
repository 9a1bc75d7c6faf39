//! Hot inodes that become cold, the longest unused ones first.
ghost use Rattle.std.specs.Prelude.{◌≡◌, ◌<◌, ℕ, IfOk, IsSome, None, OnErr, OnOk, Some, [], drop, false, length, nat_eq, take, true};
ghost use Rattle.std.specs.List.{list_any};
ghost use Rattle.std.specs.Map.{keys_of};
ghost use Rattle.std.specs.Option.{option_or};
ghost use Rattle.assise_area.specs.Parts.{AreDisjoint, AreWritten, IsCooled, cold_at, hot_at};
ghost use Rattle.assise_inode_table.specs.Contents.{regular};
ghost use Rattle.lru.specs.LruCache.{lru_cache};

use crate::parts::overwrite;
use assise_inode_table::inode::Inode;
use indexmap::IndexMap;
use lru::LruCache;
use std::alloc::{AllocError, Global};

/// Makes the longest unused hot inodes cold, so that no more than `most` are hot. Places for all of them are made among
/// the cold ones first. Where memory runs out nothing moves, and where no more are hot none is asked for.
pub(crate) fn cool(
    alloc: Global,
    hot: &mut LruCache<u64, Inode>,
    cold: &mut IndexMap<u64, Inode>,
    most: usize,
) -> Result<(), AllocError>
    requires disjoint { AreDisjoint hot.old.entries cold.old.entries }
    ensures ok { OnOk result (IsCooled most hot.old hot.new cold.old.entries cold.new.entries) }
    ensures err { OnErr result (hot.new ≡ hot.old) }
    ensures err_cold { OnErr result ((q : ℕ) →
        cold_at cold.new.entries q ≡ cold_at cold.old.entries q) }
    ensures asked { OnErr result (most < length hot.old.entries) }
    ensures smaller { OnErr result (most < hot.old.cap) }
{
    if hot.len() <= most {
        return Ok(());
    }
    let leaving = numbers_beyond(alloc, hot, most)?;
    make_places(alloc, cold, leaving.as_slice())?;
    move_beyond(hot, cold, most);
    Ok(())
}

/// The numbers of the hot inodes behind the first ones.
fn numbers_beyond(
    alloc: Global,
    hot: &LruCache<u64, Inode>,
    first: usize,
) -> Result<Vec<u64>, AllocError>
    ensures { IfOk result (λ numbers. numbers.items ≡ keys_of (drop first hot.now.entries)) }
{
    hot.iter()
        .skip(first)
        .map(|(number, _)| *number)
        .collect(alloc)
}

/// Makes a place for each of some numbers that aren't cold: an empty file, which takes no memory of its own. Where memory
/// runs out, no place is left.
fn make_places(
    alloc: Global,
    cold: &mut IndexMap<u64, Inode>,
    numbers: &[u64],
) -> Result<(), AllocError>
    requires absent { (q : ℕ) → list_any (nat_eq q) numbers.now ≡ true →
        cold_at cold.old.entries q ≡ None }
    ensures ok { OnOk result (AreWritten numbers.now
        (Some (regular [])) cold.old.entries cold.new.entries) }
    ensures err { OnErr result ((q : ℕ) → cold_at cold.new.entries q ≡ cold_at cold.old.entries q) }
{
    let made = put_places(alloc, cold, numbers);
    if made.is_err() {
        take_places(cold, numbers);
    }
    made
}

/// Makes a place for each of some numbers, as far as there is memory.
fn put_places(
    alloc: Global,
    cold: &mut IndexMap<u64, Inode>,
    numbers: &[u64],
) -> Result<(), AllocError>
    ensures ok { OnOk result (AreWritten numbers.now
        (Some (regular [])) cold.old.entries cold.new.entries) }
    ensures others { (q : ℕ) → list_any (nat_eq q) numbers.now ≡ false →
        cold_at cold.new.entries q ≡ cold_at cold.old.entries q }
{
    for number in numbers {
        cold.insert(*number, Inode::new_file(alloc))?;
    }
    Ok(())
}

/// Takes the places of some numbers out, as many as there are.
fn take_places(cold: &mut IndexMap<u64, Inode>, numbers: &[u64])
    ensures { AreWritten numbers.now None cold.old.entries cold.new.entries }
{
    for number in numbers {
        cold.swap_remove(number);
    }
}

/// Moves the hot inodes behind the first ones into their places among the cold ones. It takes no memory.
fn move_beyond(hot: &mut LruCache<u64, Inode>, cold: &mut IndexMap<u64, Inode>, first: usize)
    requires places { (q : ℕ) → IsSome (hot_at (drop first hot.old.entries) q) →
        IsSome (cold_at cold.old.entries q) }
    ensures left { hot.new ≡ lru_cache (take first hot.old.entries) hot.old.cap }
    ensures moved { (q : ℕ) → cold_at cold.new.entries q ≡ option_or
        (hot_at (drop first hot.old.entries) q) (cold_at cold.old.entries q) }
{
    while hot.len() > first {
        let Some(entry) = hot.pop_lru() else {
            unreachable!()
        };
        overwrite(cold, entry);
    }
}
