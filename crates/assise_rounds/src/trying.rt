//! Tries of a client's call.
ghost use Rattle.std.specs.Prelude.{◌≡◌, ◌≤◌, length, map};
ghost use Rattle.assise_names.specs.declared.limits.TheConstants.{MOST_NODES};
ghost use Rattle.assise_machine.specs.Clusters.{machine};
ghost use Rattle.assise_rounds.specs.Traces.{Told};
ghost use Rattle.assise_rounds.specs.NodeLinks.{FaithfulAt};
ghost use Rattle.assise_rounds.specs.Trying.{TriesOften};

use crate::rounds::round_over;
use assise_lease_table::revoker::Revokes;
use assise_link::link::Link;
use assise_machine::cluster::ClusterOf;
use assise_machine_calls::turn::Turn;
use assise_names::call::Op;
use assise_names::refusal::Refusal;
use assise_names::reply::Reply;
use std::alloc::Global;

/// Tries a call until it isn't awaited any more, at most `turns` times, with a round over these links between two tries. Refused as
/// [`ClusterOf::try_call`], and with [`Refusal::Busy`] where the call is still awaited: after the last try, or after a round in which
/// there was nothing to do. Zero times is once.
pub fn try_often<C: Revokes + Drop, L: Link>(
    alloc: Global,
    cluster: &mut ClusterOf<C>,
    links: &mut [L],
    client: u32,
    op: &Op,
    turns: u32,
) -> Result<Reply, Refusal>
    requires { MOST_NODES ≤ length links.old }
    ensures tries { (es : Told) ×
        TriesOften (FaithfulAt (map L.kind links.old)) turns client op.now result
        (machine cluster.old) es (machine cluster.new) }
    ensures stay { map L.kind links.new ≡ map L.kind links.old }
{
    for _ in 1..turns {
        match cluster.try_call(alloc, client, op)? {
            Turn::Answered(reply) => return Ok(reply),
            Turn::NotYet => {
                if !round_over(alloc, cluster, links) {
                    return Err(Refusal::Busy);
                }
            }
        }
    }
    match cluster.try_call(alloc, client, op)? {
        Turn::Answered(reply) => Ok(reply),
        Turn::NotYet => Err(Refusal::Busy),
    }
}
