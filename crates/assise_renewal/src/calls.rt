//! A call of a client, where nobody else works on the cluster.
ghost use Rattle.assise_machine.specs.Clusters.{machine};
ghost use Rattle.assise_renewal.specs.Led.{IsThisCall, IsLedBy};

use assise_lease_table::revoker::Revokes;
use assise_link::link::PerfectLink;
use assise_machine::cluster::ClusterOf;
use assise_names::call::Op;
use assise_names::limits::MOST_NODES;
use assise_names::refusal::Refusal;
use assise_names::reply::Reply;
use assise_rounds::attempts::settle_call;
use std::alloc::Global;
use std::array;

/// Makes a call of a client: it is tried at most `turns` times, over links that lose nothing. Where the client's log is full, a dsync
/// makes room. Refused as [`settle_call`](fn@settle_call).
pub(crate) fn make_call<C: Revokes + Drop>(
    alloc: Global,
    cluster: &mut ClusterOf<C>,
    client: u32,
    op: &Op,
    turns: u32,
) -> Result<Reply, Refusal>
    ensures { IsLedBy (IsThisCall client op.now) (machine cluster.old) (machine cluster.new) }
{
    let mut links: [PerfectLink; MOST_NODES as usize] = array::from_fn(|_| PerfectLink::new());
    settle_call(alloc, cluster, &mut links, client, op, turns)
}
