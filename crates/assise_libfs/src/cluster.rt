//! A cluster serves clients.
ghost use Rattle.std.proofs.Math.Logic.{∥∥₁_map};
ghost use Rattle.assise_machine.specs.Clusters.{machine};
ghost use Rattle.assise_machine.specs.Following.{led_by, worked_by};
ghost use Rattle.assise_model_events.specs.Happenings.{Happens};

use crate::served::Served;
use assise_lease_table::revoker::Revokes;
use assise_machine::cluster::ClusterOf;
use assise_machine_calls::turn::Turn;
use assise_names::call::Op;
use assise_names::durability::Durability;
use assise_names::refusal::Refusal;
use assise_names::reply::Reply;
use std::alloc::Global;

impl<C: Revokes + Drop> Served for ClusterOf<C> {
    type Stored = C;

    ghost acts = { λ s e a t. Happens (machine s) e a (machine t) };

    ghost acts_lead = { λ s e a t happens. led_by (machine s) e a (machine t) happens };

    ghost acts_work = { λ s e a t work happens.
        worked_by (machine s) e a (machine t) work happens };

    fn open(
        &mut self,
        alloc: Global,
        node: u32,
        stored: C,
        durability: Durability,
    ) -> Result<u32, (Refusal, C)> {
        ClusterOf::open(self, alloc, node, stored, durability)
    }

    fn try_call(&mut self, alloc: Global, client: u32, op: &Op) -> Result<Option<Reply>, Refusal> {
        match ClusterOf::try_call(self, alloc, client, op)? {
            Turn::Answered(reply) => Ok(Some(reply)),
            Turn::NotYet => Ok(None),
        }
    }

    ghost legal = { λ s. ∥∥₁_map s.sound.invariant.holds (λ h. h.recorded.legal) };
}
