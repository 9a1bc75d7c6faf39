//! A keeper ends, its cluster is renewed, and the next keeper begins.
ghost use Rattle.std.specs.Prelude.{◌≡◌, ◌<◌, ◌≤◌, IfErr, IfOk, None};
ghost use Rattle.assise_names.specs.declared.limits.TheConstants.{MOST_NODES};
ghost use Rattle.assise_keeper.specs.declared.view.Opens.TheVariants.{Alone};
ghost use Rattle.assise_keeper.specs.Passes.{IsPassOf, client, last, opens};
ghost use Rattle.assise_keeper_renewal.specs.Renewed.{IsGivenBack, IsLastRenewed};

use assise_keeper::keeper::Keeper;
use assise_keeper::pass::Pass;
use assise_lease_table::revoker::Revokes;
use assise_machine::cluster::ClusterOf;
use assise_renewal::renewal::{Sizes, renewed};
use assise_renewal::renewal_fault::RenewalFault;
use std::alloc::Global;
use std::sync::Wait;

/// Ends a keeper whose threads are done, with a pass of it, and makes the next one: it keeps the cluster that is
/// [`renewed`](fn@renewed), and its first pass has no client and alone may open some. Client 1 is open already, as there.
///
/// Refused as [`renewed`](fn@renewed), and with [`Refusal::OutOfMemory`](assise_names::refusal::Refusal::OutOfMemory) where there is
/// none for the next keeper. The old cluster then comes back, to which nothing happened but what its settling takes: dsyncs of its
/// clients, and rounds.
pub fn renewed_keeper<C: Revokes + Drop, R: Wait>(
    rt: &R,
    alloc: Global,
    keeper: Keeper<ClusterOf<C>>,
    pass: Pass<ClusterOf<C>>,
    sizes: Sizes,
    revoker: C,
    turns: u32,
) -> Result<(Keeper<ClusterOf<C>>, Pass<ClusterOf<C>>), (RenewalFault, ClusterOf<C>)>
    requires own { IsPassOf keeper pass }
    requires some_nodes { 0 < sizes.nodes }
    requires few_nodes { sizes.nodes ≤ MOST_NODES }
    requires least_log { 8 ≤ sizes.log }
    requires most_log { sizes.log ≤ 4096 }
    requires least_hot { 1 ≤ sizes.hot }
    requires most_hot { sizes.hot ≤ 4096 }
    ensures first { IfOk result (λ made. IsPassOf made.0 made.1) }
    ensures clientless { IfOk result (λ made. client made.1 ≡ None) }
    ensures right { IfOk result (λ made. opens made.1 ≡ Alone) }
    ensures renewed { IfOk result (λ made. IsLastRenewed pass sizes (last made.1)) }
    ensures given_back { IfErr result (λ refused. IsGivenBack pass refused.1) }
{
    let mut old = keeper.into_state(rt, pass);
    let new = match renewed(alloc, &mut old, sizes, revoker, turns) {
        Ok(new) => new,
        Err(fault) => return Err((fault, old)),
    };
    match Keeper::new(alloc, new) {
        Ok(made) => Ok(made),
        Err((refusal, _)) => Err((RenewalFault::Refused(refusal), old)),
    }
}
