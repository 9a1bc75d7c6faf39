//! What the failure of a full node comes to.
ghost use Rattle.std.specs.Prelude.{◌<◌, ◌^◌, IfOk, length};
ghost use Rattle.assise_machine_state.specs.Observed.{world_of};
ghost use Rattle.assise_machine_state.specs.Invariant.{PartsInvariant};
ghost use Rattle.assise_machine_state.specs.Whole.{value_of};
ghost use Rattle.assise_machine_failures.specs.Failures.{IsListed};

use crate::listing::{all_kept, entry_losses, filled_from, losses, touched_inodes};
use assise_history::call::Loss;
use assise_lease_table::lease::Asked;
use assise_lease_table::revoker::Revokes;
use assise_machine_state::state::StateOf;
use std::alloc::{AllocError, Global};

/// What the failure of a full node comes to, listed before anything changes, so that nothing asks for memory afterwards.
#[derive(Drop)]
pub(crate) struct Failure {
    /// The places up to which the clients' logs are kept.
    pub(crate) kept: Vec<u64>,
    /// Each client that loses a record, with its first lost call.
    pub(crate) losses: Vec<(u32, u64)>,
    /// The same for the history.
    pub(crate) entry: Vec<Loss>,
    /// The inodes that records touch which still stand in a log then.
    pub(crate) inodes: Vec<u64>,
    /// The leases of the node's clients that are revoked by it.
    pub(crate) asked: Vec<Asked>,
    /// The nodes that are filled from it.
    pub(crate) filled: Vec<u32>,
}

impl Failure {
    /// Lists what a node's failure comes to.
    pub(crate) fn list<C: Revokes + Drop>(
        alloc: Global,
        state: &StateOf<C>,
        node: u32,
    ) -> Result<Failure, AllocError>
        requires few { length state.now.clients < 2 ^ 32 }
        requires parts { PartsInvariant (value_of state.now) }
        ensures listed { IfOk result (λ failure. IsListed (value_of state.now) node failure) }
    {
        let kept = all_kept(alloc, state, node)?;
        let losses = losses(alloc, state, node, &kept)?;
        let entry = entry_losses(alloc, &losses)?;
        let inodes = touched_inodes(alloc, state, node, &kept)?;
        let asked = state.leases.unasked_below(node)?;
        let filled = filled_from(alloc, state, node)?;
        Ok(Failure {
            kept,
            losses,
            entry,
            inodes,
            asked,
            filled,
        })
    }
}
