//! Why a node can't send or digest, whatever memory there is: the first fault that stands.
ghost use Rattle.std.specs.Prelude.{◌≡◌};
ghost use Rattle.assise_model_events.specs.Faults.{node_fault};
ghost use Rattle.assise_machine_state.specs.Whole.{machine_of};

use assise_lease_table::revoker::Revokes;
use assise_machine_state::state::StateOf;
use assise_manager::phase::Phase;
use assise_names::refusal::Refusal;

/// Why a node does nothing: [`Refusal::BadNode`] where there is no such node, and [`Refusal::WrongPhase`] where it isn't full.
pub(crate) fn node_refusal<C: Revokes + Drop>(state: &StateOf<C>, node: u32) -> Option<Refusal>
    ensures { result ≡ node_fault (machine_of state.now) node }
{
    let phase = match state.members.phase(node) {
        Ok(phase) => phase,
        Err(refusal) => return Some(refusal),
    };
    match phase {
        Phase::Full => None,
        Phase::Down | Phase::Returning => Some(Refusal::WrongPhase),
    }
}
