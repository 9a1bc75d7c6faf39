//! Records that come to a node.
ghost use Rattle.std.specs.Prelude.{◌≡◌, ◌+◌, ◌<◌, ◌≤◌, ◌^◌, IfNone, IfOk, IfSome, IsOkUnless, None, Some, false, length, take, true};
ghost use Rattle.assise_names.specs.declared.refusal.Refusal.{Refusal as Refused};
ghost use Rattle.assise_names.specs.declared.refusal.Refusal.TheVariants.{OutOfMemory, StaleMessage};
ghost use Rattle.assise_lease_tree.specs.Trees.{KeepsRevokers};
ghost use Rattle.assise_private_log.specs.NumberedLog.{records_from};
ghost use Rattle.assise_digest.specs.Region.{AreWhole};
ghost use Rattle.assise_chain.specs.Messages.{last_marks};
ghost use Rattle.assise_model_events.specs.Faults.{IsTimelyDelivery, delivery_fault};
ghost use Rattle.assise_model_events.specs.NodeEvents.{Delivering};
ghost use Rattle.assise_machine_state.specs.Places.{IsNumber};
ghost use Rattle.assise_machine_state.specs.Invariant.{ShapeInvariant};
ghost use Rattle.assise_machine_state.specs.Whole.{machine_of, value_of};
ghost use Rattle.assise_machine.specs.Answers.{delivery_answer};
ghost use Rattle.assise_machine.specs.Taking.{HasMarksOf, HasRoomFor, IsNextOf, lacking, own_log};

use crate::faults::node_refusal;
use assise_chain::acceptance::is_timely;
use assise_lease_table::revoker::Revokes;
use assise_machine_state::sound::SoundOf;
use assise_machine_state::state::StateOf;
use assise_names::refusal::Refusal;
use assise_private_log::log::Log;
use assise_record::frame::Frame;
use assise_record::record::Record;
use std::alloc::Global;

/// A node takes in what it lacks of a frame's records, and answers the number behind the last record of the client that it has
/// then. Nothing of the sender is trusted: a frame may come in any order, and again and again, and what the node has of it is
/// passed over.
///
/// Refused as [`delivery_refusal`] says, and with [`Refusal::StaleMessage`] where the frame is of another epoch, is of a version
/// that the node doesn't read, leaves a gap, or has a record that the node lacks and that isn't next in the client's own log, ends
/// inside a group of it, or has other marks. What is refused
/// leaves all as it was. It takes no memory.
pub(crate) fn deliver<C: Revokes + Drop>(
    sound: &mut SoundOf<C>,
    frame: Frame,
    node: u32,
) -> Result<u64, Refusal>
    ensures happens { Delivering (machine_of sound.old.state) frame node (delivery_answer result)
        (machine_of sound.new.state) }
    ensures revokers { KeepsRevokers sound.old.state.leases sound.new.state.leases }
{
    let state = &mut sound.state;
    if let Some(refusal) = delivery_refusal(state, &frame, node) {
        return Err(refusal);
    }
    let client = frame.client();
    let received = state.nodes.log(node, client).end();
    if !is_next(state, &frame, node, received) {
        return Err(Refusal::StaleMessage);
    }
    let place = frame.first() + frame.records().len() as u64;
    if place <= received {
        return Ok(received);
    }
    let had = (received - frame.first()) as usize;
    let own = state.own_node(client);
    let log = state.own_log(client);
    let records = with_own_payloads(log, frame, received);
    state.nodes.extend(node, client, own, records, had);
    Ok(place)
}

/// A frame's records. The payloads of those that lie past a number, with which the client's own log goes on, lie where that log has
/// them: so they stand in memory once, and the bytes that came go.
fn with_own_payloads(own: &Log, frame: Frame, received: u64) -> Vec<Record>
    requires begun { own.now.first ≤ received }
    requires no_gap { frame.first ≤ received }
    requires some { received < frame.first + length frame.records }
    requires same { take (length (lacking frame received)) (records_from own.now received) ≡
        lacking frame received }
    ensures { result.items ≡ frame.records }
{
    let had = (received - frame.first()) as usize;
    let mut records = frame.into_records();
    share_payloads(own, received, &mut records[had..]);
    records
}

/// Lets the payloads of records lie where those of a log's records lie that are the same, from a number on: so they stand in memory
/// once, and the bytes that came go.
fn share_payloads(log: &Log, from: u64, records: &mut [Record])
    requires begun { log.now.first ≤ from }
    requires fits { from + length records.old < 2 ^ 64 }
    requires same { take (length records.old) (records_from log.now from) ≡ records.old }
    ensures { records.new ≡ records.old }
{
    for place in 0..records.len() {
        if let Some(own) = log.get(from + place as u64) {
            records[place].share_payload(own);
        }
    }
}

/// As [`deliver`], with a copy of a frame, whose payloads are shared. It is refused with [`Refusal::OutOfMemory`] only where nothing
/// else stands against it, and then all stays as it was.
pub(crate) fn deliver_copy<C: Revokes + Drop>(
    alloc: Global,
    sound: &mut SoundOf<C>,
    frame: &Frame,
    node: u32,
) -> Result<u64, Refusal>
    ensures happens { Delivering (machine_of sound.old.state) frame.now node
        (delivery_answer result) (machine_of sound.new.state) }
    ensures revokers { KeepsRevokers sound.old.state.leases sound.new.state.leases }
{
    match frame.copy(alloc) {
        Ok(copy) => deliver(sound, copy, node),
        Err(lack) => Err(frame_refusal(sound, frame, node).unwrap_or(lack)),
    }
}

/// Why a frame isn't taken in at a node: as [`delivery_refusal`] says, and [`Refusal::StaleMessage`] as [`deliver`] says.
fn frame_refusal<C: Revokes + Drop>(sound: &SoundOf<C>, frame: &Frame, node: u32) -> Option<Refusal>
    ensures fault { (r : Refused) → delivery_fault (machine_of sound.now.state) frame.now node ≡
        Some r → result ≡ Some r }
    ensures stale { delivery_fault (machine_of sound.now.state) frame.now node ≡ None →
        IfSome result (λ r. r ≡ StaleMessage) }
    ensures taken { delivery_fault (machine_of sound.now.state) frame.now node ≡ None →
        IsTimelyDelivery (machine_of sound.now.state) frame.now node → result ≡ None }
    ensures fine { IfNone result (delivery_fault (machine_of sound.now.state) frame.now node ≡
        None) }
    ensures timely { IfNone result (IsTimelyDelivery (machine_of sound.now.state) frame.now node) }
{
    let state = &sound.state;
    if let Some(refusal) = delivery_refusal(state, frame, node) {
        return Some(refusal);
    }
    let client = frame.client();
    let received = state.nodes.log(node, client).end();
    if is_next(state, frame, node, received) {
        None
    } else {
        Some(Refusal::StaleMessage)
    }
}

/// Why nothing can be delivered to a node, whatever the records are: [`Refusal::BadNode`] where there is no such node,
/// [`Refusal::WrongPhase`] where it isn't full, and [`Refusal::BadClient`] where there is no such client.
pub(crate) fn delivery_refusal<C: Revokes + Drop>(
    state: &StateOf<C>,
    frame: &Frame,
    node: u32,
) -> Option<Refusal>
    ensures { result ≡ delivery_fault (machine_of state.now) frame.now node }
{
    if let Some(refusal) = node_refusal(state, node) {
        return Some(refusal);
    }
    if frame.client() as usize > state.clients.len() {
        return Some(Refusal::BadClient);
    }
    None
}

/// Whether a frame is of this epoch and of a version that a node reads, leaves no gap behind what was received, and goes on as the
/// client's own log does, with its groups, up to the end of one.
fn is_next<C: Revokes + Drop>(state: &StateOf<C>, frame: &Frame, node: u32, received: u64) -> bool
    requires client { IsNumber state.now.clients frame.now.client }
    requires shape { ShapeInvariant (value_of state.now) }
    requires begun { (own_log (value_of state.now) frame.now.client).first ≤ received }
    ensures timely { result ≡ true → IsNextOf (value_of state.now) frame.now node received }
    ensures stale { result ≡ false → IsNextOf (value_of state.now) frame.now node received → ⊥ }
    ensures room { result ≡ true → 0 < length (lacking frame.now received) →
        HasRoomFor (own_log (value_of state.now) frame.now.client) received
        (length (lacking frame.now received)) }
    ensures whole { result ≡ true → AreWhole (lacking frame.now received) }
{
    if !is_timely(frame, received, state.members.epoch()) {
        return false;
    }
    if frame.version() > state.members.level(node).newest() {
        return false;
    }
    let client = frame.client();
    let own = state.own_log(client);
    if !has_own_marks(own, frame, received) {
        return false;
    }
    let had = received - frame.first();
    if frame.records().len() as u64 <= had {
        return true;
    }
    let new = &frame.records()[had as usize..];
    let passed = (received - own.first()) as usize;
    new.len() <= own.len().saturating_sub(passed)
        && own.is_border(frame.first() + frame.records().len() as u64)
        && goes_on_with(own, received, new)
}

/// Whether a frame's marks, if it has some, are those of a log, from what was received on.
fn has_own_marks(log: &Log, frame: &Frame, received: u64) -> bool
    requires no_gap { frame.now.first ≤ received }
    ensures same { result ≡ true → HasMarksOf log.now frame.now received }
    ensures other { result ≡ false → HasMarksOf log.now frame.now received → ⊥ }
{
    let had = (received - frame.first()) as usize;
    match frame.last().get(had..) {
        Some(marks) => has_marks(log, received, marks),
        None => true,
    }
}

/// Whether these are the marks of a log's records from a number on: whether each is the last of its group.
fn has_marks(log: &Log, from: u64, marks: &[bool]) -> bool
    requires fits { from + length marks.now < 2 ^ 64 }
    ensures same { result ≡ true → marks.now ≡ last_marks log.now from (length marks.now) }
    ensures other { result ≡ false → marks.now ≡ last_marks log.now from (length marks.now) → ⊥ }
{
    let Some((first, rest)) = marks.split_first() else {
        return true;
    };
    *first == log.is_border(from + 1) && has_marks(log, from + 1, rest)
}

/// Whether a log's records from a number on begin with these.
fn goes_on_with(log: &Log, from: u64, records: &[Record]) -> bool
    requires begun { log.now.first ≤ from }
    ensures same { result ≡ true → take (length records.now) (records_from log.now from) ≡
        records.now }
    ensures other { result ≡ false → take (length records.now) (records_from log.now from) ≡
        records.now → ⊥ }
{
    let Some((first, rest)) = records.split_first() else {
        return true;
    };
    if log.end() <= from {
        return false;
    }
    match log.get(from) {
        Some(own) => own == first && goes_on_with(log, from + 1, rest),
        None => false,
    }
}
