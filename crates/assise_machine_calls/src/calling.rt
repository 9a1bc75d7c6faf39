//! A client's call.
ghost use Rattle.std.specs.Prelude.{◌≡◌, IfErr, IfOk, None, false, true};
ghost use Rattle.assise_inode_plan.specs.Planning.{step_in};
ghost use Rattle.assise_lease_tree.specs.Trees.{KeepsRevokers, stored_by};
ghost use Rattle.assise_model_events.specs.ClientEvents.{Calling};
ghost use Rattle.assise_model_events.specs.Events.{not_yet, refused};
ghost use Rattle.assise_model_events.specs.Faults.{call_fault};
ghost use Rattle.assise_model_events.specs.Happenings.{Trying};
ghost use Rattle.assise_machine_state.specs.Invariant.{CutsInvariant, ShapeInvariant};
ghost use Rattle.assise_machine_state.specs.Whole.{StateInvariant, machine_of, value_of};
ghost use Rattle.assise_machine_calls.specs.Answers.{turn_answer};
ghost use Rattle.assise_machine_calls.specs.Asked.{CutsAreAnswers};
ghost use Rattle.assise_machine_calls.specs.Leasing.{GotLeases, HasAllLeases, IsVisited, LacksChange, MayChange, NeverSyncs};

use crate::asking::ask;
use crate::commit::commit;
use crate::faults::call_refusal;
use crate::sync::{try_dsync, try_fsync};
use crate::turn::Turn;
use assise_inode_plan::plan::{Outcome, Planned, plan_by_visits};
use assise_inode_table::numbers::inode_number;
use assise_lease_table::revoker::Revokes;
use assise_lease_tree::request::Request;
use assise_machine_state::sound::SoundOf;
use assise_machine_state::state::StateOf;
use assise_names::call::Op;
use assise_names::mode::Mode;
use assise_names::refusal::Refusal;
use std::alloc::Global;

/// Tries a client's call. It reads at its home: the node's inodes after those of its own records that aren't digested there.
///
/// It gets the leases that the call needs, one after another: of what it visits for reading, in the order of the visits, and
/// then of what it changes for writing. Where others stand in the way of one, they are asked, each by the revoker that it stored,
/// and it is [`Turn::NotYet`]: the call may be tried again. Where it has all, it is [`Turn::Answered`], with one entry of the
/// history, and one record of the client's log if it has effects. [`Op::Fsync`] is tried as [`try_fsync`] says, and [`Op::Dsync`]
/// as [`try_dsync`] says.
///
/// Refused as [`call_refusal`] says, with all as it was; and once it has its leases with [`Refusal::InodesSpent`] where it would make
/// an inode and the client has made 1,048,576, and with [`Refusal::LogFull`] where it has effects and the client's log has no room.
/// [`Refusal::OutOfMemory`] may come at any point. Of what is refused no more stays than leases that were got.
pub fn try_call<C: Revokes + Drop>(
    alloc: Global,
    sound: &mut SoundOf<C>,
    client: u32,
    op: &Op,
) -> Result<Turn, Refusal>
    ensures happens { Trying (machine_of sound.old.state) client op.now (turn_answer result)
        (machine_of sound.new.state) }
    ensures cuts { CutsAreAnswers C.answers (stored_by sound.old.state.leases)
        (machine_of sound.old.state) (machine_of sound.new.state) }
    ensures revokers { KeepsRevokers sound.old.state.leases sound.new.state.leases }
{
    match op {
        Op::Fsync => return try_fsync(sound, client),
        Op::Dsync => return try_dsync(sound, client),
        _ => {}
    }
    let state = &mut sound.state;
    if let Some(refusal) = call_refusal(state, client, op) {
        return Err(refusal);
    }
    call(alloc, state, client, op)
}

/// Answers a call, or gets a lease of what it visits and begins again, or asks those who stand in the way of one.
fn call<C: Revokes + Drop>(
    alloc: Global,
    state: &mut StateOf<C>,
    client: u32,
    op: &Op,
) -> Result<Turn, Refusal>
    requires fine { call_fault (machine_of state.old) client op.now ≡ None }
    requires call { NeverSyncs op.now }
    requires invariant { StateInvariant state.old }
    ensures happens { Calling (machine_of state.old) client op.now (turn_answer result)
        (machine_of state.new) }
    ensures cuts { CutsAreAnswers C.answers (stored_by state.old.leases)
        (machine_of state.old) (machine_of state.new) }
    ensures shape { ShapeInvariant (value_of state.new) }
    ensures noted { CutsInvariant (value_of state.new) }
    ensures revokers { KeepsRevokers state.old.leases state.new.leases }
{
    let known = state.clients.get(client);
    let (home, fresh) = (known.home(), inode_number(client, known.made()));
    let view = state.view(client);
    match plan_by_visits(alloc, &view, op, fresh)? {
        Planned::Ready(outcome) => {
            if !lease_changes(state, client, op, &outcome)? {
                return Ok(Turn::NotYet);
            }
            commit(alloc, state, client, op, outcome)
        }
        Planned::Missing(inode, mode) => {
            let request = Request {
                client,
                node: home,
                inode,
                mode,
            };
            if !state.leases.is_free(request) {
                ask(state, request)?;
                return Ok(Turn::NotYet);
            }
            state.leases.grant(request)?;
            call(alloc, state, client, op)
        }
    }
}

/// Gets the leases that a call whose visits are leased needs for what it changes, in the order of its effects: whether it has
/// them all. Where others stand in the way of one, they are asked. The one refusal is [`Refusal::OutOfMemory`].
fn lease_changes<C: Revokes + Drop>(
    state: &mut StateOf<C>,
    client: u32,
    op: &Op,
    outcome: &Outcome,
) -> Result<bool, Refusal>
    requires fine { call_fault (machine_of state.old) client op.now ≡ None }
    requires call { NeverSyncs op.now }
    requires invariant { StateInvariant state.old }
    requires visited { IsVisited (machine_of state.old) client op.now (step_in outcome.now) }
    ensures all { IfOk result (λ all. all ≡ true →
        HasAllLeases (machine_of state.old) client op.now (step_in outcome.now)
        (machine_of state.new)) }
    ensures waits { IfOk result (λ all. all ≡ false →
        Calling (machine_of state.old) client op.now not_yet (machine_of state.new)) }
    ensures refused { IfErr result (λ r. Calling (machine_of state.old) client op.now (refused r)
        (machine_of state.new)) }
    ensures cuts { CutsAreAnswers C.answers (stored_by state.old.leases)
        (machine_of state.old) (machine_of state.new) }
    ensures shape { ShapeInvariant (value_of state.new) }
    ensures noted { CutsInvariant (value_of state.new) }
    ensures revokers { KeepsRevokers state.old.leases state.new.leases }
{
    for effect in &outcome.effects {
        let inode = effect.touches();
        if !state.leases.holds(client, inode, Mode::Write)
            && !lease_change(state, client, op, outcome, inode)?
        {
            return Ok(false);
        }
    }
    Ok(true)
}

/// Gets the lease that a call whose visits are leased lacks first for what it changes: whether it has it. Where others stand in its
/// way, they are asked. The one refusal is [`Refusal::OutOfMemory`].
fn lease_change<C: Revokes + Drop>(
    state: &mut StateOf<C>,
    client: u32,
    op: &Op,
    outcome: &Outcome,
    inode: u64,
) -> Result<bool, Refusal>
    requires fine { call_fault (machine_of state.old) client op.now ≡ None }
    requires call { NeverSyncs op.now }
    requires invariant { StateInvariant state.old }
    requires visited { IsVisited (machine_of state.old) client op.now (step_in outcome.now) }
    requires lacked { LacksChange (machine_of state.old) client (step_in outcome.now) inode }
    ensures got { IfOk result (λ got. got ≡ true →
        GotLeases (machine_of state.old) client op.now (step_in outcome.now)
        (machine_of state.new)) }
    ensures leased { IfOk result (λ got. got ≡ true →
        MayChange (machine_of state.new) client inode) }
    ensures waits { IfOk result (λ got. got ≡ false →
        Calling (machine_of state.old) client op.now not_yet (machine_of state.new)) }
    ensures refused { IfErr result (λ r. Calling (machine_of state.old) client op.now (refused r)
        (machine_of state.new)) }
    ensures cuts { CutsAreAnswers C.answers (stored_by state.old.leases)
        (machine_of state.old) (machine_of state.new) }
    ensures shape { ShapeInvariant (value_of state.new) }
    ensures noted { CutsInvariant (value_of state.new) }
    ensures revokers { KeepsRevokers state.old.leases state.new.leases }
{
    let request = Request {
        client,
        node: state.clients.get(client).home(),
        inode,
        mode: Mode::Write,
    };
    if !state.leases.is_free(request) {
        ask(state, request)?;
        return Ok(false);
    }
    state.leases.grant(request)?;
    Ok(true)
}
