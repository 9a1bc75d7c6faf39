//! A state that serves clients.
ghost use Rattle.std.specs.Prelude.{◌≡◌, List, [], ◌∷◌, ◌++◌, IfErr, IfOk, OnErr};
ghost use Rattle.assise_history.specs.Entries.{EntryValue, opens};
ghost use Rattle.assise_history.specs.Legal.{IsLegal};
ghost use Rattle.assise_libfs.specs.Calling.{MayRefuseTry, Tries};
ghost use Rattle.assise_libfs.specs.Opening.{MayRefuseOpen};
ghost use Rattle.assise_libfs.specs.InTurns.{tried_answer};
ghost use Rattle.assise_machine.specs.Following.{IsWork};
ghost use Rattle.assise_machine_calls.specs.Answers.{opening_answer};
ghost use Rattle.assise_model_events.specs.Events.{Answer, ClusterEvent, open_client, try_call};

use assise_history::growing::Growing;
use assise_names::call::Op;
use assise_names::durability::Durability;
use assise_names::refusal::Refusal;
use assise_names::reply::Reply;
use std::alloc::Global;

/// A state that opens clients and tries their calls, with a history that is legal. A cluster is one.
pub trait Served: Growing {
    /// What a client is opened with, and the state stores: of a cluster, a revoker.
    type Stored;

    /// What an event does to the state, with its answer: of a cluster, all that the laws say of it.
    ghost acts: { Self → ClusterEvent → Answer → Self → Type 0 };

    /// Opens a client on a node, with this durability, and answers its number. Refused with [`Refusal::BadNode`] where
    /// there is no such node, [`Refusal::NodeDown`] where it is down or comes back, [`Refusal::BadClient`] where no client can
    /// be opened any more, and [`Refusal::OutOfMemory`]: what is refused leaves the history as it was, and gives back what would
    /// have been stored.
    fn open(
        &mut self,
        alloc: Global,
        node: u32,
        stored: Self::Stored,
        durability: Durability,
    ) -> Result<u32, (Refusal, Self::Stored)>
        ensures opened { IfOk result (λ c. Self.Growing.history self.new ≡
            Self.Growing.history self.old ++ opens c node durability ∷ []) }
        ensures unchanged { OnErr result
            (Self.Growing.history self.new ≡ Self.Growing.history self.old) }
        ensures refused { IfErr result (λ back.
            MayRefuseOpen node (Self.Growing.history self.old) back.0) }
        ensures given_back { IfErr result (λ back. back.1 ≡ stored) }
        ensures acts { acts self.old (open_client node durability) (opening_answer result)
            self.new };

    /// Tries a client's call once: its reply, or `None` where a lease or a replication is awaited. A call that isn't answered adds
    /// nothing to the history. It is refused as [`LibFs::call`](crate::libfs::LibFs::call) says, but never with [`Refusal::Busy`],
    /// and with [`Refusal::BadClient`] where there is no such client.
    fn try_call(&mut self, alloc: Global, client: u32, op: &Op) -> Result<Option<Reply>, Refusal>
        ensures tries { Tries client op.now
            (Self.Growing.history self.old) result (Self.Growing.history self.new) }
        ensures refused { IfErr result (λ r. MayRefuseTry client op.now
            (Self.Growing.history self.old) r) }
        ensures acts { acts self.old (try_call client op.now) (tried_answer result) self.new };

    ghost legal: { (s : Self) → ∥ IsLegal (Self.Growing.history s) ∥₁ };

    ghost acts_lead: { (s : Self) (e : ClusterEvent) (a : Answer) (t : Self) → acts s e a t
        → Self.Growing.leads s t };

    ghost acts_work: { (s : Self) (e : ClusterEvent) (a : Answer) (t : Self) → IsWork e
        → acts s e a t → Self.Growing.works s t };
}
