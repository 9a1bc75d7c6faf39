//! What a prefix of a history says.
ghost use Rattle.std.specs.Prelude.{◌≡◌, ◌==◌, ◌&&◌, OnOk, map, filter, not};
ghost use Rattle.assise_history.specs.Legal.{is_sync};
ghost use Rattle.assise_history.specs.Summary.{summary_after, follows, nothing_yet, newly_opened, is_fair, is_down, is_past, comes_next, makes_next_call, may_lose, ascend_from, summary_with_call, with_crash, with_failure};
ghost use Rattle.std.specs.List.{list_any, list_all};

use crate::call::{Call, Loss};
use crate::entry::{Entry, EntryKind};
use assise_names::call::Op;
use assise_names::durability::Durability;
use std::alloc::{AllocError, Global};
use std::marker::Model;

/// What a prefix of a history says of a client: how it was opened, its last call, its last sync, and whether it crashed or its node failed.
#[derive(Clone, Copy, Debug)]
struct ClientSummary {
    client: u32,
    node: u32,
    durability: Durability,
    last: Option<u64>,
    synced: Option<u64>,
    crashed: bool,
    failed: bool,
}

/// The clients in the order of their opening, and the nodes that failed and are not back.
pub(crate) struct Prefix {
    clients: Vec<ClientSummary>,
    down: Vec<u32>,
}

// One call lets go of it, wherever it is owned.
impl Drop for Prefix {
    fn drop(self) {
        let Prefix {
            clients: _,
            down: _,
        } = self;
    }
}

impl Model for Prefix {
    ghost use Rattle.assise_history.specs.Summary.{Summary};

    ghost Value = { Summary };

    ghost view = { λ a. record { clients = a.clients.items; down = a.down.items } };
}

impl Prefix {
    pub(crate) fn new(alloc: Global) -> Prefix
        ensures { result ≡ nothing_yet }
    {
        Prefix {
            clients: Vec::new(alloc),
            down: Vec::new(alloc),
        }
    }

    /// Whether the entry may come next.
    pub(crate) fn allows(&self, entry: &Entry) -> bool
        ensures { result ≡ follows self.now entry.now }
    {
        match entry.kind() {
            EntryKind::Open { client, node, .. } => {
                *client as usize == self.clients.len() + 1 && !self.is_down(*node)
            }
            EntryKind::Call(call) => some_makes(self.clients.as_slice(), call),
            EntryKind::Crash { client } => some_runs(self.clients.as_slice(), *client),
            EntryKind::Fail { node, losses } => self.is_fair(*node, losses.as_slice()),
            EntryKind::Return { node } => self.is_down(*node),
        }
    }

    fn is_down(&self, node: u32) -> bool
        ensures { result ≡ is_down self.now node }
    {
        self.down.iter().any(|m| *m == node)
    }

    fn is_fair(&self, node: u32, losses: &[Loss]) -> bool
        ensures { result ≡ is_fair self.now node losses.now }
    {
        ascend(losses) && all_may_be_lost(self.clients.as_slice(), node, losses)
    }

    /// Takes the entry in.
    pub(crate) fn note(&mut self, entry: &Entry) -> Result<(), AllocError>
        ensures { OnOk result (self.new ≡ summary_after self.old entry.now) }
    {
        match entry.kind() {
            EntryKind::Open {
                client,
                node,
                durability,
            } => {
                self.clients.push(opened(*client, *node, *durability))?;
                Ok(())
            }
            EntryKind::Call(call) => {
                note_call(self.clients.as_mut_slice(), call);
                Ok(())
            }
            EntryKind::Crash { client } => {
                note_crash(self.clients.as_mut_slice(), *client);
                Ok(())
            }
            EntryKind::Fail { node, .. } => {
                self.down.push(*node)?;
                note_failure(self.clients.as_mut_slice(), *node);
                Ok(())
            }
            EntryKind::Return { node } => {
                note_return(&mut self.down, *node);
                Ok(())
            }
        }
    }
}

fn opened(client: u32, node: u32, durability: Durability) -> ClientSummary
    ensures { result ≡ newly_opened client node durability }
{
    ClientSummary {
        client,
        node,
        durability,
        last: None,
        synced: None,
        crashed: false,
        failed: false,
    }
}

fn is_sync(op: &Op, durability: Durability) -> bool
    ensures { result ≡ is_sync op.now durability }
{
    match op {
        Op::Create(_) => false,
        Op::Mkdir(_) => false,
        Op::Read(_, _, _) => false,
        Op::Write(_, _, _) => false,
        Op::Truncate(_, _) => false,
        Op::Rename(_, _) => false,
        Op::Unlink(_) => false,
        Op::Rmdir(_) => false,
        Op::List(_) => false,
        Op::Stat(_) => false,
        Op::Fsync => match durability {
            Durability::Pessimistic => true,
            Durability::Optimistic => false,
        },
        Op::Dsync => true,
    }
}

fn comes_next(last: Option<u64>, number: u64) -> bool
    ensures { result ≡ comes_next last number }
{
    match last {
        None => number == 0,
        Some(l) => number > 0 && number - 1 == l,
    }
}

fn is_past(last: Option<u64>, number: u64) -> bool
    ensures { result ≡ is_past last number }
{
    match last {
        None => true,
        Some(l) => l < number,
    }
}

fn makes(call: &Call, k: &ClientSummary) -> bool
    ensures { result ≡ makes_next_call call.now k.now }
{
    k.client == call.client && !k.crashed && !k.failed && comes_next(k.last, call.number)
}

fn may_lose(node: u32, loss: &Loss, k: &ClientSummary) -> bool
    ensures { result ≡ may_lose node loss.now k.now }
{
    k.client == loss.client && k.node == node && !k.failed && is_past(k.synced, loss.first)
}

fn some_makes(clients: &[ClientSummary], call: &Call) -> bool
    ensures { result ≡ list_any (makes_next_call call.now) clients.now }
{
    clients.iter().any(|k| makes(call, k))
}

fn some_runs(clients: &[ClientSummary], client: u32) -> bool
    ensures { result ≡ list_any (λ k. (k.client == client) && not k.crashed) clients.now }
{
    clients.iter().any(|k| k.client == client && !k.crashed)
}

fn some_may_lose(clients: &[ClientSummary], node: u32, loss: &Loss) -> bool
    ensures { result ≡ list_any (may_lose node loss.now) clients.now }
{
    clients.iter().any(|k| may_lose(node, loss, k))
}

fn all_may_be_lost(clients: &[ClientSummary], node: u32, losses: &[Loss]) -> bool
    ensures { result ≡ list_all (λ l. list_any (may_lose node l) clients.now) losses.now }
{
    losses.iter().all(|l| some_may_lose(clients, node, l))
}

/// Whether the clients ascend.
fn ascend(losses: &[Loss]) -> bool
    ensures { result ≡ ascend_from None losses.now }
{
    let mut before: Option<u64> = None;
    for loss in losses {
        if !is_past(before, u64::from(loss.client)) {
            return false;
        }
        before = Some(u64::from(loss.client));
    }
    true
}

fn with_call(call: &Call, k: ClientSummary) -> ClientSummary
    ensures { result ≡ summary_with_call call.now k }
{
    if k.client != call.client {
        return k;
    }
    let synced = if is_sync(&call.op, k.durability) {
        Some(call.number)
    } else {
        k.synced
    };
    ClientSummary {
        last: Some(call.number),
        synced,
        ..k
    }
}

fn with_crash(client: u32, k: ClientSummary) -> ClientSummary
    ensures { result ≡ with_crash client k }
{
    if k.client == client {
        ClientSummary { crashed: true, ..k }
    } else {
        k
    }
}

fn with_failure(node: u32, k: ClientSummary) -> ClientSummary
    ensures { result ≡ with_failure node k }
{
    if k.node == node {
        ClientSummary { failed: true, ..k }
    } else {
        k
    }
}

fn note_call(clients: &mut [ClientSummary], call: &Call)
    ensures { clients.new ≡ map (summary_with_call call.now) clients.old }
{
    for k in clients.iter_mut() {
        *k = with_call(call, *k);
    }
}

fn note_crash(clients: &mut [ClientSummary], client: u32)
    ensures { clients.new ≡ map (with_crash client) clients.old }
{
    for k in clients.iter_mut() {
        *k = with_crash(client, *k);
    }
}

fn note_failure(clients: &mut [ClientSummary], node: u32)
    ensures { clients.new ≡ map (with_failure node) clients.old }
{
    for k in clients.iter_mut() {
        *k = with_failure(node, *k);
    }
}

fn note_return(down: &mut Vec<u32>, node: u32)
    ensures { down.new.items ≡ filter (λ m. not (m == node)) down.old.items }
{
    down.retain(|m| *m != node);
}
