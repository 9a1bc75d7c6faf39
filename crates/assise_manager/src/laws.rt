//! Laws of memberships. Each function does nothing: its contract is the law.
ghost use Rattle.std.specs.Prelude.{◌≡◌, ◌<◌, ◌≤◌, ◌-◌, ℕ, List, Some, length, true};
ghost use Rattle.std.specs.FinSet as set;
ghost use Rattle.std.specs.Ordering.{nat_cmp};
ghost use Rattle.assise_manager.specs.Changes.{all_full};
ghost use Rattle.assise_manager.specs.MemberCalls.{MemberCall, MemberCallDoes, AllMemberCalls};
ghost use Rattle.assise_manager.specs.Membership.{Membership, IsMembership, first_listed, written_since};
ghost use Rattle.assise_manager.specs.Standings.{Standing, full, down, returning, standing_of};

/// Each call that isn't refused keeps a membership lawful, and so does any list of calls from the start, where all nodes are
/// full, whether they are refused or not.
pub fn members_stay_lawful()
    ensures call { (old new : Membership) (call : MemberCall) → IsMembership old →
        MemberCallDoes old call new → IsMembership new }
    ensures calls { (count : ℕ) (calls : List MemberCall) (new : Membership) → 0 < count →
        AllMemberCalls (all_full count) calls new → IsMembership new }
{}

/// Of a node that isn't full it is known which epoch its first failure began. That epoch has a list of the inodes that were
/// written in it, and so has each epoch after it, the current one included.
pub fn lists_go_back_to_failures()
    ensures down { (m : Membership) (node since : ℕ) → IsMembership m →
        standing_of m.nodes node ≡ Some (down since) →
        (first_listed m ≤ since) × (since ≤ m.epoch) }
    ensures returning { (m : Membership) (node since donor : ℕ) (stale : set.FinSet nat_cmp) →
        IsMembership m → standing_of m.nodes node ≡ Some (returning since donor stale) →
        (first_listed m ≤ since) × (since ≤ m.epoch) }
    ensures lists { (m : Membership) (epoch : ℕ) → IsMembership m → first_listed m ≤ epoch →
        epoch ≤ m.epoch → epoch - first_listed m < length m.written }
{}

/// What a node that comes back may lack was written since its first failure.
pub fn stale_inodes_were_written()
    ensures { (m : Membership) (node since donor : ℕ) (stale : set.FinSet nat_cmp) →
        IsMembership m → standing_of m.nodes node ≡ Some (returning since donor stale) →
        (inode : ℕ) → set.contains stale inode ≡ true →
        set.contains (written_since m since) inode ≡ true }
{}

/// A node that comes back is filled from a full one.
pub fn donors_are_full()
    ensures { (m : Membership) (node since donor : ℕ) (stale : set.FinSet nat_cmp) →
        IsMembership m → standing_of m.nodes node ≡ Some (returning since donor stale) →
        standing_of m.nodes donor ≡ Some full }
{}
