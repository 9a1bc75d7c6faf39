//! Laws of deliveries. Each function does nothing: its contract is the law.
ghost use Rattle.std.specs.Prelude.{◌≡◌, ◌⊎◌, ◌++◌, ◌∷◌, Err, List, Ok, filter, length, nat_lt, ◌<◌, ℕ};
ghost use Rattle.assise_history.specs.Entries.{EntryValue, calls};
ghost use Rattle.assise_names.specs.declared.reply.TreeError.TheVariants.{NoEnt};
ghost use Rattle.assise_seq_tree.specs.Contents.{bytes_from};
ghost use Rattle.assise_history.specs.Legal.{IsLegal, IsPastSyncs};
ghost use Rattle.assise_names.specs.declared.call.Op.TheVariants.{Read};
ghost use Rattle.assise_names.specs.declared.reply.Reply.TheVariants.{Bytes, Error};
ghost use Rattle.assise_history.specs.declared.call.Call.{Call};
ghost use Rattle.assise_history.specs.Kept.{IsRun, kept, tree_after};
ghost use Rattle.assise_seq_tree.specs.Tree.{Tree, at, file, opening};
ghost use Rattle.assise_seq_tree.specs.Answer.{answer};
ghost use Rattle.assise_inode_table.specs.Spelled.{Spells};
ghost use Rattle.assise_digest.specs.Region.{alone};
ghost use Rattle.assise_machine.specs.Clusters.{region_of};
ghost use Rattle.assise_machine.specs.Headline.{IsUp, all_acked, history_of, replicated_calls};
ghost use Rattle.assise_mail.specs.Delivery.{AllLeave, CallsLeave, IsMessageDelivered, IsDelivery, IsDraftedAndMoved};

use assise_lease_table::revoker::Revokes;
use assise_machine::cluster::ClusterOf;
use assise_machine::headline::headline;

/// What a delivery put in place stands there, whole, while other calls leave it; before that nothing of it is there.
pub fn what_was_delivered_stands()
    ensures stands { (t : Tree) (before created written moved : List Call) (make write move : Call)
        (draft place : List (List ℕ)) (message : List ℕ) →
        IsRun t (before ++ make ∷ (created ++ write ∷ (written ++ move ∷ moved))) →
        IsDelivery draft place message make write move →
        AllLeave draft created → AllLeave draft written → AllLeave place moved →
        at (tree_after t (before ++ make ∷ (created ++ write ∷ (written ++ move ∷ moved)))) place ≡
        Ok (file message) }
{}

/// A message whose delivery was answered is there in the tree of all calls below any bounds that lie past the syncs, in particular in that
/// of all replicated calls.
pub fn an_answered_delivery_stays()
    ensures { (h : List EntryValue) (bound : ℕ → ℕ) (draft place : List (List ℕ))
        (message : List ℕ) → IsLegal h →
        ((c : ℕ) → IsPastSyncs h (record { client = c; first = bound c })) →
        IsRun opening (filter (λ x. nat_lt x.number (bound x.client)) (kept h)) →
        IsMessageDelivered h draft place message →
        at (tree_after opening (filter (λ x. nat_lt x.number (bound x.client)) (kept h))) place ≡
        Ok (file message) }
{}

/// **A delivered message stays.** Of every cluster, whatever it has been through: a message whose delivery was answered is in the tree that
/// each node that is up gives alone, whole, while what others call leaves it.
pub fn a_delivered_message_is_at_each_node<C: Revokes + Drop>(cluster: &ClusterOf<C>)
    ensures { (draft place : List (List ℕ)) (message : List ℕ) →
        IsMessageDelivered (history_of cluster.now) draft place message → (n : ℕ) →
        IsUp cluster.now n →
        Spells (alone (region_of cluster.now n) (all_acked cluster.now))
        (tree_after opening (replicated_calls cluster.now)) ×
        (at (tree_after opening (replicated_calls cluster.now)) place ≡ Ok (file message)) }
{
    headline(cluster);
}

/// No reader sees a part of a message: until something is made at its place there is nothing, and where one delivery alone makes something
/// there, a read finds nothing or reads the message, whatever failures took between.
pub fn no_reader_sees_a_part()
    ensures nothing { (h front behind : List EntryValue) (r : Call) (place : List (List ℕ))
        (offset most : ℕ) → IsLegal h → h ≡ front ++ calls r ∷ behind →
        r.op ≡ Read place offset most →
        0 < length place → CallsLeave place front → r.reply ≡ Error NoEnt }
    ensures whole { (h front behind : List EntryValue) (r : Call) (draft place : List (List ℕ))
        (message : List ℕ) (offset most : ℕ) → IsLegal h → h ≡ front ++ calls r ∷ behind →
        r.op ≡ Read place offset most → 0 < length place →
        IsDraftedAndMoved front draft place message →
        (r.reply ≡ Error NoEnt) ⊎ (r.reply ≡ Bytes (bytes_from offset most message)) }
{}
