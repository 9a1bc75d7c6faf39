//! A state whose nodes replicate and digest.
ghost use Rattle.std.specs.Prelude.{◌≡◌, ◌≤◌, ℕ, IfOk};
ghost use Rattle.assise_manager.specs.NodeLevels.{level_of, newest};
ghost use Rattle.assise_machine.specs.Answers.{delivery_answer, digesting_answer, sending_answer};
ghost use Rattle.assise_machine.specs.Clusters.{machine};
ghost use Rattle.assise_machine.specs.Following.{IsWork, led_by, worked_by};
ghost use Rattle.assise_model_events.specs.Events.{Answer, ClusterEvent, deliver, digest, outgoing, release_ready, released};
ghost use Rattle.assise_model_events.specs.Happenings.{Happens};

use assise_digest::region::Region;
use assise_history::growing::Growing;
use assise_lease_table::revoker::Revokes;
use assise_machine::cluster::ClusterOf;
use assise_names::refusal::Refusal;
use assise_record::frame::Frame;
use std::alloc::Global;

/// A state whose nodes send frames to one another and digest what all have; none of that is an entry of its history. A cluster is one.
pub trait Replicated: Growing {
    /// What an event does to the state, with its answer: of a cluster, all that the laws say of it.
    ghost acts: { Self → ClusterEvent → Answer → Self → Type 0 };

    /// The newest version of frames that each node reads.
    ghost reads: { Self → ℕ → ℕ };

    /// What a node has for others: frames, each with the node that it is for.
    fn outgoing(&self, alloc: Global, node: u32) -> Result<Vec<(Frame, u32)>, Refusal>
        ensures acts { acts self.now (outgoing node) (sending_answer result) self.now };

    /// The newest version of frames that a node reads.
    fn level(&self, node: u32) -> Result<u8, Refusal>
        ensures read { IfOk result (λ level. level ≡ reads self.now node) }
        ensures known { IfOk result (λ level. (1 ≤ level) × (level ≤ 2)) };

    /// A frame comes to a node.
    fn deliver(&mut self, frame: Frame, node: u32) -> Result<u64, Refusal>
        ensures unchanged { Self.Growing.history self.new ≡ Self.Growing.history self.old }
        ensures acts { acts self.old (deliver frame node) (delivery_answer result) self.new };

    /// A node digests, and answers how many records.
    fn digest(&mut self, alloc: Global, node: u32) -> Result<usize, Refusal>
        ensures unchanged { Self.Growing.history self.new ≡ Self.Growing.history self.old }
        ensures acts { acts self.old (digest node) (digesting_answer result) self.new };

    /// Lets go of the leases that may go, and answers how many.
    fn release_ready(&mut self) -> usize
        ensures unchanged { Self.Growing.history self.new ≡ Self.Growing.history self.old }
        ensures acts { acts self.old release_ready (released result) self.new };

    /// How many records more a client's log at a node has room for: none where there is no such log. It only says when to digest, so
    /// nothing is promised of it.
    fn spare(&self, node: u32, client: u32) -> usize;

    ghost acts_lead: { (s : Self) (e : ClusterEvent) (a : Answer) (t : Self) → acts s e a t
        → Self.Growing.leads s t };

    ghost acts_work: { (s : Self) (e : ClusterEvent) (a : Answer) (t : Self) → IsWork e
        → acts s e a t → Self.Growing.works s t };
}

impl<C: Revokes + Drop> Replicated for ClusterOf<C> {
    ghost acts = { λ s e a t. Happens (machine s) e a (machine t) };

    ghost acts_lead = { λ s e a t happens. led_by (machine s) e a (machine t) happens };

    ghost acts_work = { λ s e a t work happens.
        worked_by (machine s) e a (machine t) work happens };

    ghost reads = { λ s n. newest (level_of (machine s).members.levels n) };

    fn outgoing(&self, alloc: Global, node: u32) -> Result<Vec<(Frame, u32)>, Refusal> {
        ClusterOf::outgoing(self, alloc, node)
    }

    fn level(&self, node: u32) -> Result<u8, Refusal> {
        ClusterOf::level(self, node)
    }

    fn deliver(&mut self, frame: Frame, node: u32) -> Result<u64, Refusal> {
        ClusterOf::deliver(self, frame, node)
    }

    fn digest(&mut self, alloc: Global, node: u32) -> Result<usize, Refusal> {
        ClusterOf::digest(self, alloc, node)
    }

    fn release_ready(&mut self) -> usize {
        ClusterOf::release_ready(self)
    }

    fn spare(&self, node: u32, client: u32) -> usize {
        match ClusterOf::region(self, node) {
            Ok(region) => spare_at(region, client),
            Err(_) => 0,
        }
    }
}

/// How many records more a client's log has room for at a node: none where the node has no such log.
fn spare_at(region: &Region, client: u32) -> usize {
    let client = client as usize;
    if client < 1 || region.clients() < client {
        return 0;
    }
    region.log(client).spare()
}
