//! The headline.
ghost use Rattle.std.specs.Prelude.{◌≡◌, ◌≤◌, false, ℕ};
ghost use Rattle.assise_seq_tree.specs.Tree.{opening};
ghost use Rattle.assise_history.specs.Kept.{IsRun, tree_after};
ghost use Rattle.assise_history.specs.Legal.{IsLegal};
ghost use Rattle.assise_inode_table.specs.Spelled.{Spells};
ghost use Rattle.assise_digest.specs.Region.{alone};
ghost use Rattle.assise_machine.specs.Clusters.{region_of};
ghost use Rattle.assise_machine.specs.HandedOver.{AreReplicated, has_write_lease};
ghost use Rattle.assise_machine.specs.Headline.{IsSynced, IsUp, all_acked, history_of, kept_below, replicated_calls, replicated_to};

use crate::cluster::ClusterOf;
use assise_lease_table::revoker::Revokes;

/// **The headline.** It holds of every cluster, whatever calls, deliveries, digests, hand-overs, crashes, failures and returns it
/// has been through: its type keeps it, so nothing is presupposed. [`run`](fn@crate::run::run) says what more events do: the
/// history grows by what they answer, and no replicated call is lost again.
pub fn headline<C: Revokes + Drop>(cluster: &ClusterOf<C>)
    // All answered calls stand in one legal history: at any time one plain tree gives the replies of all calls but those that failures
    // took, and a failure takes nothing but tails of its node's clients, each behind the client's last answered sync.
    ensures legal { IsLegal (history_of cluster.now) }

    // Some node is up, and each that is has, alone, the tree of all replicated calls: its region gives it with the replicated numbers.
    ensures some_up { (n : ℕ) × IsUp cluster.now n }
    ensures alone { (n : ℕ) → IsUp cluster.now n →
        Spells (alone (region_of cluster.now n) (all_acked cluster.now))
        (tree_after opening (replicated_calls cluster.now)) }

    // Each client's calls are replicated up to its last answered sync.
    ensures synced { (c : ℕ) → IsSynced cluster.now c }

    // Nobody has seen what may yet be lost: whatever tails go of calls that aren't replicated, all others stand with their replies.
    ensures unseen { (bound : ℕ → ℕ) → ((c : ℕ) → replicated_to cluster.now c ≤ bound c) →
        IsRun opening (kept_below bound (history_of cluster.now)) }
{}

/// An inode is handed over only once what its client wrote is safe: all kept calls that changed an inode are replicated, where their
/// client has no lease to write it.
pub fn what_is_handed_over_is_replicated<C: Revokes + Drop>(cluster: &ClusterOf<C>)
    ensures handed_over { (c i : ℕ) → has_write_lease cluster.now c i ≡ false →
        AreReplicated cluster.now c i }
{}
