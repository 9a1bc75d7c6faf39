//! A call is tried until it is settled.
ghost use Rattle.std.specs.Prelude.{◌≡◌, ◌≤◌, length, map};
ghost use Rattle.assise_names.specs.declared.limits.TheConstants.{MOST_NODES};
ghost use Rattle.assise_machine.specs.Clusters.{machine};
ghost use Rattle.assise_rounds.specs.NodeLinks.{FaithfulAt};
ghost use Rattle.assise_rounds.specs.Traces.{Told};
ghost use Rattle.assise_rounds.specs.CallTries.{IsTriedOut, MakesRoom};

use crate::rounds::round_over;
use assise_lease_table::revoker::Revokes;
use assise_link::link::Link;
use assise_machine::cluster::ClusterOf;
use assise_machine_calls::turn::Turn;
use assise_names::call::Op;
use assise_names::refusal::Refusal;
use assise_names::reply::Reply;
use std::alloc::Global;

/// Tries a call until it is answered or refused, at most `turns` times, with a round over these links behind each try that waits or finds
/// its client's log full. Where such a round has nothing to do, and where no try settles it, it is [`Refusal::Busy`], or
/// [`Refusal::LogFull`] where the log stays full.
pub fn settle_call<C: Revokes + Drop, L: Link>(
    alloc: Global,
    cluster: &mut ClusterOf<C>,
    links: &mut [L],
    client: u32,
    op: &Op,
    turns: u32,
) -> Result<Reply, Refusal>
    requires { MOST_NODES ≤ length links.old }
    ensures tries { (es : Told) × IsTriedOut (FaithfulAt (map L.kind links.old)) turns client op.now
        result (machine cluster.old) es (machine cluster.new) }
    ensures stay { map L.kind links.new ≡ map L.kind links.old }
{
    for _ in 0..turns {
        match cluster.try_call(alloc, client, op) {
            Ok(Turn::Answered(reply)) => return Ok(reply),
            Ok(Turn::NotYet) => {
                if !round_over(alloc, cluster, links) {
                    return Err(Refusal::Busy);
                }
            }
            Err(refusal) => {
                if refusal != Refusal::LogFull {
                    return Err(refusal);
                }
                if !make_room(alloc, cluster, links, client) {
                    return Err(Refusal::LogFull);
                }
            }
        }
    }
    Err(Refusal::Busy)
}

/// What is done where a client's log is full: a round alone sends nothing that no sync, crash or lease asks for, so a dsync is tried
/// first. Whether the round had anything to do.
fn make_room<C: Revokes + Drop, L: Link>(
    alloc: Global,
    cluster: &mut ClusterOf<C>,
    links: &mut [L],
    client: u32,
) -> bool
    requires { MOST_NODES ≤ length links.old }
    ensures makes { (es : Told) × MakesRoom (FaithfulAt (map L.kind links.old)) result client
        (machine cluster.old) es (machine cluster.new) }
    ensures stay { map L.kind links.new ≡ map L.kind links.old }
{
    let _ = cluster.try_call(alloc, client, &Op::Dsync);
    round_over(alloc, cluster, links)
}
