//! Plans where the visits of a call end.
ghost use Rattle.std.specs.Prelude.{◌≡◌, []};
ghost use Rattle.assise_inode_plan.specs.Planning.{ready, shown};
ghost use Rattle.assise_inode_plan.specs.Walking.{plan_stopped};

use crate::plan::{Outcome, Planned, Visits};
use crate::walk::Stop;
use assise_names::mode::Mode;
use assise_names::reply::Reply;
use assise_record::effect::Effect;
use std::alloc::Global;

/// The plan of a call that changes nothing.
pub(crate) fn answered(alloc: Global, reply: Reply, reads: Visits) -> Planned
    ensures { shown result ≡ ready (record { visits = reads.items; reply = reply; effects = [] }) }
{
    Planned::Ready(Outcome {
        reply,
        reads,
        effects: Vec::new(alloc),
    })
}

/// The plan of a call whose walk stopped.
pub(crate) fn stopped(alloc: Global, stop: Stop, reads: Visits) -> Planned
    ensures { shown result ≡ plan_stopped reads.items stop }
{
    match stop {
        Stop::Fault(error) => answered(alloc, Reply::Error(error), reads),
        Stop::Unleased(inode) => Planned::Missing(inode, Mode::Read),
    }
}

/// The plan of a call that has made its visits.
pub(crate) fn finished(reply: Reply, reads: Visits, effects: Vec<Effect>) -> Planned
    ensures { shown result ≡ ready (record {
      visits = reads.items;
      reply = reply;
      effects =
          effects.items;
    }) }
{
    Planned::Ready(Outcome {
        reply,
        reads,
        effects,
    })
}
