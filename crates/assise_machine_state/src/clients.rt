//! What is known of all clients.
ghost use Rattle.std.specs.Prelude.{◌≡◌, ◌==◌, ◌+◌, ◌^◌, ◌<◌, ◌≤◌, [], ◌∷◌, ◌++◌, IfOk, length, vec_capacity};
ghost use Rattle.std.specs.Borrow.{Lends, sem};
ghost use Rattle.assise_names.specs.declared.limits.TheConstants.{MOST_CLIENTS};
ghost use Rattle.assise_machine_state.specs.ClientValues.{client_in, crashed_at, failed_at, opened_on, with_call, with_client, with_goal};
ghost use Rattle.assise_machine_state.specs.Places.{IsNumber};

use crate::client::Client;
use assise_names::durability::Durability;
use assise_names::limits::MOST_CLIENTS;
use std::alloc::{AllocError, Global};
use std::marker::Model;

/// The clients that were opened, by their numbers, from 1 on. A contract sees their list.
#[derive(Debug, Drop)]
pub struct Clients {
    clients: Vec<Client>,
    ghost room: { MOST_CLIENTS ≤ vec_capacity clients },
}

impl Model for Clients {
    ghost use Rattle.std.specs.Prelude.{List};
    ghost use Rattle.std.specs.Coded.{coded_list};
    ghost use Rattle.assise_machine_state.specs.ClientValues.{ClientValue, coded_client};

    ghost Value = { List ClientValue };

    ghost coded = { coded_list coded_client };

    ghost view = { λ s. s.clients.items };
}

impl Clients {
    ghost use Rattle.assise_machine_state.specs.contracts.client.Client.{the_row as client_row};
    ghost use Rattle.assise_machine_state.specs.contracts.clients.Clients.{the_row};

    /// No clients, with room for all that may be opened.
    pub fn new(alloc: Global) -> Result<Clients, AllocError>
        ensures none { IfOk result (λ clients. clients ≡ []) }
    {
        Ok(Clients {
            clients: Vec::with_capacity(alloc, MOST_CLIENTS as usize)?,
        })
    }

    /// How many were opened.
    pub fn len(&self) -> usize
        ensures { result ≡ length self.now }
    {
        self.clients.len()
    }

    /// Whether none was opened.
    pub fn is_empty(&self) -> bool
        ensures { result ≡ (length self.now == 0) }
    {
        self.clients.is_empty()
    }

    /// What is known of a client.
    pub fn get(&self, client: u32) -> &Client
        requires client { IsNumber self.now client }
        ensures { result.now ≡ client_in self.now client }
    {
        &self.clients[client as usize - 1]
    }

    /// The same, to be changed.
    fn get_mut(&mut self, client: u32) -> &mut Client
        requires client { IsNumber self.old client }
        ensures* writes_back { sem 𝓛 (Lends the_row client_row self.entry result
            (with_client self.old client)) }
        ensures value { result.now ≡ client_in self.old client }
    {
        &mut self.clients[client as usize - 1]
    }

    /// Adds a client that is opened on a node, where not all were opened that may be. It takes no memory.
    pub fn open(&mut self, home: u32, durability: Durability)
        requires room { length self.old < MOST_CLIENTS }
        ensures { self.new ≡ self.old ++ opened_on home durability ∷ [] }
    {
        self.clients.push_reserved(Client {
            home,
            durability,
            goal: 0,
            next: 0,
            made: 0,
            crashed: false,
            failed: false,
            last_cut: 0,
        });
    }

    /// A call more of a client is answered, which makes an inode or none. It takes no memory.
    pub fn note_call(&mut self, client: u32, makes: bool)
        requires client { IsNumber self.old client }
        requires next { (client_in self.old client).next + 1 < 2 ^ 64 }
        requires made { (client_in self.old client).made + 1 < 2 ^ 64 }
        ensures { self.new ≡ with_client self.old client
            (with_call makes (client_in self.old client)) }
    {
        let it = self.get_mut(client);
        it.next += 1;
        if makes {
            it.made += 1;
        }
    }

    /// A client's log is to be replicated up to a place, or further where it was. It takes no memory.
    pub fn raise_goal(&mut self, client: u32, to: u64)
        requires client { IsNumber self.old client }
        ensures { self.new ≡ with_client self.old client
            (with_goal to (client_in self.old client)) }
    {
        let it = self.get_mut(client);
        it.goal = it.goal.max(to);
    }

    /// A client crashes, and its log ends at a place. It takes no memory.
    pub fn crash(&mut self, client: u32, end: u64)
        requires client { IsNumber self.old client }
        ensures { self.new ≡ with_client self.old client
            (crashed_at end (client_in self.old client)) }
    {
        let it = self.get_mut(client);
        it.goal = end;
        it.crashed = true;
        it.last_cut = end;
    }

    /// A client's node fails, and its log is kept up to a place. It takes no memory.
    pub fn fail(&mut self, client: u32, end: u64)
        requires client { IsNumber self.old client }
        ensures { self.new ≡ with_client self.old client
            (failed_at end (client_in self.old client)) }
    {
        let it = self.get_mut(client);
        it.goal = it.goal.min(end);
        it.failed = true;
        it.last_cut = end;
    }
}
