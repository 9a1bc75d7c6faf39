//! A small state that serves clients.
ghost use Rattle.std.specs.Prelude.{◌≡◌, ◌≤◌};
ghost use Rattle.assise_names.specs.declared.limits.TheConstants.{MOST_CLIENTS};
ghost use Rattle.std.proofs.Math.Logic.{∥∥₁_map};
ghost use Rattle.assise_history.specs.Legal.{calls_made, is_call_of};
ghost use Rattle.assise_libfs_tests.specs.Ledgers.{IsLedger, opened_once};

use assise_history::call::Call;
use assise_history::entry::{Entry, EntryKind};
use assise_history::growing::Growing;
use assise_history::history::History;
use assise_libfs::served::Served;
use assise_names::call::Op;
use assise_names::durability::Durability;
use assise_names::limits::MOST_CLIENTS;
use assise_names::refusal::Refusal;
use assise_names::reply::Reply;
use std::alloc::Global;

/// Clients are opened on node 1, the one node. Their fsyncs are answered, once `waits` tries have waited, or refused where the ledger
/// is full; their other calls wait for ever. It counts the tries.
#[derive(Drop)]
pub struct Ledger {
    clients: u32,
    history: History,
    waits: u32,
    full: bool,
    tries: u64,
    ghost few: { clients ≤ MOST_CLIENTS },
    ghost kept: { ∥ IsLedger clients history.events ∥₁ },
}

impl Growing for Ledger {
    ghost history = { λ l. l.history.events };

    ghost leads = { λ old new. Unit {0} };

    ghost works = { λ old new. Unit {0} };

    ghost opens_once = { λ l. opened_once l.clients l.history.events l.kept };

    ghost stays = { λ l. tt };

    ghost goes_on = { λ s t u first more. tt };

    ghost rests = { λ l. tt };

    ghost works_on = { λ s t u first more. tt };
}

impl Ledger {
    ghost use Rattle.std.specs.Prelude.{◌≡◌, []};

    /// A ledger in which nothing happened, where `waits` tries wait.
    pub fn new(alloc: Global, waits: u32, full: bool) -> Ledger
        ensures { result.history.events ≡ [] }
    {
        Ledger {
            clients: 0,
            history: History::new(alloc),
            waits,
            full,
            tries: 0,
        }
    }

    /// How often calls were tried.
    pub fn tries(&self) -> u64 {
        self.tries
    }
}

/// Whether an entry is a call of a client.
fn is_call_of(client: u32, entry: &Entry) -> bool
    ensures { result ≡ is_call_of client entry.now }
{
    match entry.kind() {
        EntryKind::Call(call) => client == call.client,
        EntryKind::Open { .. } => false,
        EntryKind::Crash { .. } => false,
        EntryKind::Fail { .. } => false,
        EntryKind::Return { .. } => false,
    }
}

/// How many of the entries are calls of a client.
fn calls_made(client: u32, entries: &[Entry]) -> u64
    ensures { result ≡ calls_made client entries.now }
{
    entries
        .iter()
        .filter(|entry| is_call_of(client, entry))
        .count() as u64
}

impl Served for Ledger {
    type Stored = u32;

    ghost acts = { λ s e a t. Unit {0} };

    ghost acts_lead = { λ s e a t happens. tt };

    ghost acts_work = { λ s e a t work happens. tt };

    fn open(
        &mut self,
        _alloc: Global,
        node: u32,
        stored: u32,
        durability: Durability,
    ) -> Result<u32, (Refusal, u32)> {
        if node != 1 {
            return Err((Refusal::BadNode, stored));
        }
        if self.clients == MOST_CLIENTS {
            return Err((Refusal::BadClient, stored));
        }
        if self.history.reserve().is_err() {
            return Err((Refusal::OutOfMemory, stored));
        }
        let client = self.clients + 1;
        self.history.push(Entry::open(client, 1, durability));
        self.clients = client;
        Ok(client)
    }

    fn try_call(&mut self, _alloc: Global, client: u32, op: &Op) -> Result<Option<Reply>, Refusal> {
        self.tries = self.tries.saturating_add(1);
        if client == 0 || client > self.clients {
            return Err(Refusal::BadClient);
        }
        if self.full {
            return Err(Refusal::LogFull);
        }
        if self.waits > 0 {
            self.waits -= 1;
            return Ok(None);
        }
        let Op::Fsync = op else {
            return Ok(None);
        };
        self.history.reserve()?;
        let number = calls_made(client, self.history.entries());
        self.history.push(Entry::call(Call {
            client,
            number,
            op: Op::Fsync,
            reply: Reply::Done,
        }));
        Ok(Some(Reply::Done))
    }

    ghost legal = { λ l. ∥∥₁_map l.kept (λ k. k.legal) };
}
