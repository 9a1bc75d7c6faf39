//! Why a call is refused, whatever memory there is: the first fault that stands.
ghost use Rattle.std.specs.Prelude.{◌≡◌};
ghost use Rattle.assise_model_events.specs.Faults.{call_fault, client_fault, is_too_large, open_fault};
ghost use Rattle.assise_machine_state.specs.Whole.{machine_of};

use assise_lease_table::revoker::Revokes;
use assise_machine_state::state::StateOf;
use assise_manager::phase::Phase;
use assise_names::call::Op;
use assise_names::limits::MOST_CLIENTS;
use assise_names::refusal::Refusal;
use assise_record::effect::MOST_EXTENT_BYTES;

/// Why a client can't be opened on a node: [`Refusal::BadNode`] where there is no such node, [`Refusal::NodeDown`] where it isn't
/// full, and [`Refusal::BadClient`] where all clients were opened that can be.
pub fn open_refusal<C: Revokes + Drop>(state: &StateOf<C>, node: u32) -> Option<Refusal>
    ensures { result ≡ open_fault (machine_of state.now) node }
{
    let phase = match state.members.phase(node) {
        Ok(phase) => phase,
        Err(refusal) => return Some(refusal),
    };
    match phase {
        Phase::Down | Phase::Returning => Some(Refusal::NodeDown),
        Phase::Full if state.clients.len() >= MOST_CLIENTS as usize => Some(Refusal::BadClient),
        Phase::Full => None,
    }
}

/// Why a client can't call: [`Refusal::BadClient`] where there is no such client, [`Refusal::ClientGone`] where it crashed, and
/// [`Refusal::NodeDown`] where its node has failed since it was opened.
pub fn client_refusal<C: Revokes + Drop>(state: &StateOf<C>, client: u32) -> Option<Refusal>
    ensures { result ≡ client_fault (machine_of state.now) client }
{
    if client == 0 || client as usize > state.clients.len() {
        return Some(Refusal::BadClient);
    }
    let known = state.clients.get(client);
    if known.has_crashed() {
        Some(Refusal::ClientGone)
    } else if known.has_failed() {
        Some(Refusal::NodeDown)
    } else {
        None
    }
}

/// Why a client can't make a call, whatever it finds: as [`client_refusal`] says, and [`Refusal::TooLarge`] where it would write
/// more than 65,536 bytes.
pub fn call_refusal<C: Revokes + Drop>(state: &StateOf<C>, client: u32, op: &Op) -> Option<Refusal>
    ensures { result ≡ call_fault (machine_of state.now) client op.now }
{
    let refusal = client_refusal(state, client);
    if refusal.is_some() {
        return refusal;
    }
    if is_too_large(op) {
        Some(Refusal::TooLarge)
    } else {
        None
    }
}

/// Whether a write has more bytes than one write takes.
fn is_too_large(op: &Op) -> bool
    ensures { result ≡ is_too_large op.now }
{
    match op {
        Op::Write(_, _, bytes) => bytes.len() > MOST_EXTENT_BYTES,
        _ => false,
    }
}
