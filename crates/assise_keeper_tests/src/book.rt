//! A small state: a history and a counter.
ghost use Rattle.std.specs.Prelude.{◌≡◌, ◌≤◌, ℕ};
ghost use Rattle.assise_history.specs.Opened.{OpensOnce};
ghost use Rattle.assise_keeper.specs.Clients.{openings};

use assise_history::call::Call;
use assise_history::entry::Entry;
use assise_history::growing::Growing;
use assise_history::history::History;
use assise_names::call::Op;
use assise_names::durability::Durability;
use assise_names::refusal::Refusal;
use assise_names::reply::Reply;
use std::alloc::Global;

/// Clients are opened from 1 on, and their calls counted together.
#[derive(Drop)]
pub struct Book {
    next_client: u32,
    calls: u64,
    history: History,
    ghost once: { OpensOnce history.events },
    ghost unused: { (c : ℕ) → next_client ≤ c → openings c history.events ≡ 0 },
}

impl Growing for Book {
    ghost history = { λ b. b.history.events };

    ghost leads = { λ old new. Unit {0} };

    ghost works = { λ old new. Unit {0} };

    ghost opens_once = { λ b. b.once };

    ghost stays = { λ b. tt };

    ghost goes_on = { λ s t u first more. tt };

    ghost rests = { λ b. tt };

    ghost works_on = { λ s t u first more. tt };
}

impl Book {
    ghost use Rattle.std.specs.Prelude.{◌≡◌, [], ◌∷◌, ◌++◌, IfOk, OnErr};
    ghost use Rattle.assise_names.specs.declared.durability.Durability.TheVariants.{Pessimistic};
    ghost use Rattle.assise_history.specs.Entries.{opens};
    ghost use Rattle.assise_keeper_tests.specs.Made.{made};

    /// A book in which nothing happened.
    pub fn new(alloc: Global) -> Book
        ensures { result.history.events ≡ [] }
    {
        Book {
            next_client: 1,
            calls: 0,
            history: History::new(alloc),
        }
    }

    /// Opens a client on node 1, and answers its number.
    pub fn open(&mut self) -> Result<u32, Refusal>
        ensures opened { IfOk result (λ c. self.new.history.events ≡
            self.old.history.events ++ opens c 1 Pessimistic ∷ []) }
        ensures refused { OnErr result (self.new.history.events ≡ self.old.history.events) }
    {
        let client = self.next_client;
        let Some(next) = client.checked_add(1) else {
            return Err(Refusal::BadClient);
        };
        self.history.reserve()?;
        self.history
            .push(Entry::open(client, 1, Durability::Pessimistic));
        self.next_client = next;
        Ok(client)
    }

    /// Makes a call of a client, and answers the call's number.
    pub fn call(&mut self, client: u32) -> Result<u64, Refusal>
        ensures called { IfOk result (λ k. self.new.history.events ≡ self.old.history.events ++
            made client k ∷ []) }
        ensures refused { OnErr result (self.new.history.events ≡ self.old.history.events) }
    {
        let number = self.calls;
        let Some(next) = number.checked_add(1) else {
            return Err(Refusal::OutOfMemory);
        };
        self.history.reserve()?;
        self.history.push(Entry::call(Call {
            client,
            number,
            op: Op::Fsync,
            reply: Reply::Done,
        }));
        self.calls = next;
        Ok(number)
    }

    /// How many calls were made.
    pub fn calls(&self) -> u64 {
        self.calls
    }

    /// What happened.
    pub fn history(&self) -> &History
        ensures { result.now ≡ self.now.history }
    {
        &self.history
    }
}
