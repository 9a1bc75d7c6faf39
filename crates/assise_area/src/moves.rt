//! Inodes that move between the hot part and the cold one.
ghost use Rattle.std.specs.Prelude.{◌≡◌, ◌-◌, ℕ, IfOk, IsSome, None, OnErr, OnOk, Some, cond, nat_eq, option_map, slice_get};
ghost use Rattle.assise_area.specs.Parts.{AreDisjoint, IsPushed, IsWarmed, cold_at, hot_at};
ghost use Rattle.lru.specs.LruCache.{IsValid};

use crate::parts::overwrite;
use assise_inode_table::inode::Inode;
use indexmap::IndexMap;
use lru::LruCache;
use std::alloc::{AllocError, Global};
use std::mem;

/// The inode that cools once another one gets hot: at the capacity the one that is longest unused.
fn leaving(hot: &LruCache<u64, Inode>) -> Option<u64>
    ensures last { result ≡ option_map (λ e. e.0) (slice_get hot.now.entries (hot.now.cap - 1)) }
    ensures valid { IsValid nat_eq hot.now }
{
    if hot.len() < hot.cap().get() {
        return None;
    }
    match hot.peek_lru() {
        Some((number, _)) => Some(*number),
        None => None,
    }
}

/// Moves a cold inode to the front of the hot ones, and gives back the one that had to leave there with its number.
/// Where memory runs out nothing moves.
fn push_hot(
    alloc: Global,
    hot: &mut LruCache<u64, Inode>,
    cold: &mut IndexMap<u64, Inode>,
    inode: u64,
) -> Result<Option<(u64, Inode)>, AllocError>
    requires absent { hot_at hot.old.entries inode ≡ None }
    requires there { IsSome (cold_at cold.old.entries inode) }
    ensures left { IfOk result (λ left. left ≡ slice_get hot.old.entries (hot.old.cap - 1)) }
    ensures pushed { OnOk result (IsPushed inode hot.old hot.new cold.old.entries) }
    ensures taken { OnOk result ((q : ℕ) → cold_at cold.new.entries q ≡ cond
        (nat_eq inode q) None (cold_at cold.old.entries q)) }
    ensures err { OnErr result (hot.new ≡ hot.old) }
    ensures err_cold { OnErr result ((q : ℕ) →
        cold_at cold.new.entries q ≡ cold_at cold.old.entries q) }
{
    let Some(slot) = cold.get_mut(&inode) else {
        unreachable!()
    };
    let content = mem::replace(slot, Inode::new_file(alloc));
    match hot.push(inode, content) {
        Ok(left) => {
            cold.swap_remove(&inode);
            Ok(left)
        }
        Err(failed) => {
            overwrite(cold, failed.value);
            Err(AllocError)
        }
    }
}

/// Makes a cold inode the first of the hot ones, where there are as many as may be: the last of them takes a place among
/// the cold ones, which is made first. Where memory runs out nothing moves.
fn trade(
    alloc: Global,
    hot: &mut LruCache<u64, Inode>,
    cold: &mut IndexMap<u64, Inode>,
    last: u64,
    inode: u64,
) -> Result<(), AllocError>
    requires disjoint { AreDisjoint hot.old.entries cold.old.entries }
    requires valid { IsValid nat_eq hot.old }
    requires last { Some last ≡ option_map (λ e. e.0)
        (slice_get hot.old.entries (hot.old.cap - 1)) }
    requires absent { hot_at hot.old.entries inode ≡ None }
    requires there { IsSome (cold_at cold.old.entries inode) }
    ensures ok { OnOk result (IsWarmed inode hot.old hot.new cold.old.entries cold.new.entries) }
    ensures err { OnErr result (hot.new ≡ hot.old) }
    ensures err_cold { OnErr result ((q : ℕ) →
        cold_at cold.new.entries q ≡ cold_at cold.old.entries q) }
{
    cold.insert(last, Inode::new_file(alloc))?;
    match push_hot(alloc, hot, cold, inode) {
        Ok(left) => {
            let Some(entry) = left else { unreachable!() };
            overwrite(cold, entry);
            Ok(())
        }
        Err(refusal) => {
            cold.swap_remove(&last);
            Err(refusal)
        }
    }
}

/// Makes a cold inode the first of the hot ones. Of more than may be hot the longest unused one is cold then. Where
/// memory runs out nothing moves.
pub(crate) fn warm(
    alloc: Global,
    hot: &mut LruCache<u64, Inode>,
    cold: &mut IndexMap<u64, Inode>,
    inode: u64,
) -> Result<(), AllocError>
    requires disjoint { AreDisjoint hot.old.entries cold.old.entries }
    requires absent { hot_at hot.old.entries inode ≡ None }
    requires there { IsSome (cold_at cold.old.entries inode) }
    ensures ok { OnOk result (IsWarmed inode hot.old hot.new cold.old.entries cold.new.entries) }
    ensures err { OnErr result (hot.new ≡ hot.old) }
    ensures err_cold { OnErr result ((q : ℕ) →
        cold_at cold.new.entries q ≡ cold_at cold.old.entries q) }
{
    let Some(last) = leaving(hot) else {
        push_hot(alloc, hot, cold, inode)?;
        return Ok(());
    };
    trade(alloc, hot, cold, last, inode)
}
