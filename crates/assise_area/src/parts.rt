//! What is done to one of the two parts.
ghost use Rattle.std.specs.Prelude.{◌≡◌, ◌≤◌, ℕ, IsOk, IsSome, OnErr, OnOk, Some, cond, nat_eq, option_map};
ghost use Rattle.std.specs.NonZero.{non_zero_usize_get};
ghost use Rattle.assise_area.specs.Parts.{cold_at};
ghost use Rattle.assise_inode_table.specs.Effects.{AsksForMemory, TakesAway, changed};
ghost use Rattle.assise_record.specs.Touched.{touched_by};
ghost use Rattle.lru.specs.LruCache.{IsValid};

use assise_inode_table::inode::Inode;
use assise_record::effect::Effect;
use indexmap::IndexMap;
use lru::LruCache;
use std::alloc::AllocError;
use std::num::NonZeroUsize;

/// Changes the cold inode that an effect touches, where there is one.
pub(crate) fn change_cold(
    cold: &mut IndexMap<u64, Inode>,
    effect: &Effect,
) -> Result<(), AllocError>
    ensures taken_away { TakesAway effect.now → IsOk result }
    ensures ok { let inode = touched_by effect.now in let had = cold_at cold.old.entries inode in
        OnOk result ((q : ℕ) → cold_at cold.new.entries q ≡ cond (nat_eq inode q)
        (option_map (λ content. changed content effect.now) had) (cold_at cold.old.entries q)) }
    ensures err { OnErr result (cold.new.entries ≡ cold.old.entries) }
    ensures asked { OnErr result (AsksForMemory effect.now
        (cold_at cold.old.entries (touched_by effect.now))) }
{
    let Some(inode) = cold.get_mut(&effect.touches()) else {
        return Ok(());
    };
    inode.change(effect)?;
    Ok(())
}

/// Sees that no inode is hot twice, and no more are hot than may be.
pub(crate) fn see_order(hot: &LruCache<u64, Inode>)
    ensures { IsValid nat_eq hot.now }
{
    let _ = hot.len();
}

/// How many inodes may be hot, as the hot part takes it.
pub(crate) fn hot_places(capacity: usize) -> NonZeroUsize
    requires { 1 ≤ capacity }
    ensures { non_zero_usize_get result ≡ capacity }
{
    NonZeroUsize::new(capacity).unwrap()
}

/// Writes over a cold inode. It takes no memory.
pub(crate) fn overwrite(cold: &mut IndexMap<u64, Inode>, entry: (u64, Inode))
    requires there { IsSome (cold_at cold.old.entries entry.0) }
    ensures { (q : ℕ) → cold_at cold.new.entries q ≡ cond (nat_eq entry.0 q) (Some entry.1)
        (cold_at cold.old.entries q) }
{
    let (inode, content) = entry;
    if cold.insert(inode, content).is_err() {
        unreachable!();
    }
}
