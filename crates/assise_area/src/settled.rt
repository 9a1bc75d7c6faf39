//! Inodes that are put in place of what their numbers had, once there is room for all of them.
ghost use Rattle.std.specs.Prelude.{◌≡◌, ◌+◌, ◌<◌, ◌≤◌, ℕ, Some, cond, nat_eq};
ghost use Rattle.std.specs.Map.{keys_of};
ghost use Rattle.std.specs.Option.{option_or};
ghost use Rattle.assise_area.specs.Parts.{AreDisjoint, value_in};
ghost use Rattle.std.specs.FinMap as map;
ghost use Rattle.indexmap.specs.IndexMap.{spare};

use assise_inode_table::inode::Inode;
use assise_inode_table::table::InodeTable;
use indexmap::IndexMap;
use lru::LruCache;

/// Puts an inode in place of what its number had: over the hot one where it is hot, and else among the cold ones,
/// where there is a place for it. It takes no memory.
fn put_reserved(
    hot: &mut LruCache<u64, Inode>,
    cold: &mut IndexMap<u64, Inode>,
    inode: u64,
    content: Inode,
)
    requires room { 0 < spare cold.old }
    requires disjoint { AreDisjoint hot.old.entries cold.old.entries }
    ensures values { (q : ℕ) → value_in hot.new.entries cold.new.entries q ≡ cond (nat_eq inode q)
        (Some content) (value_in hot.old.entries cold.old.entries q) }
    ensures keys { keys_of hot.new.entries ≡ keys_of hot.old.entries }
    ensures cap { hot.new.cap ≡ hot.old.cap }
    ensures disjoint { AreDisjoint hot.new.entries cold.new.entries }
    ensures room { spare cold.old ≤ spare cold.new + 1 }
{
    let Some(held) = hot.peek_mut(&inode) else {
        let Ok(_) = cold.insert(inode, content) else {
            unreachable!()
        };
        return;
    };
    *held = content;
}

/// Moves inodes in place of what their numbers had, each as [`put_reserved`] does, where there are places for all.
pub(crate) fn put_all_reserved(
    hot: &mut LruCache<u64, Inode>,
    cold: &mut IndexMap<u64, Inode>,
    inodes: &mut InodeTable,
)
    requires room { map.len inodes.old ≤ spare cold.old }
    requires disjoint { AreDisjoint hot.old.entries cold.old.entries }
    ensures values { (q : ℕ) → value_in hot.new.entries cold.new.entries q ≡ option_or
        (map.get inodes.old q) (value_in hot.old.entries cold.old.entries q) }
    ensures moved { inodes.new ≡ map.empty }
    ensures keys { keys_of hot.new.entries ≡ keys_of hot.old.entries }
    ensures cap { hot.new.cap ≡ hot.old.cap }
    ensures disjoint { AreDisjoint hot.new.entries cold.new.entries }
{
    while let Some((inode, content)) = inodes.pop() {
        put_reserved(hot, cold, inode, content);
    }
}
