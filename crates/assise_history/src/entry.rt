//! Entries, which clauses see as plain data.
ghost use Rattle.std.specs.Prelude.{◌≡◌, Some};
ghost use Rattle.assise_history.specs.Entries.{opens, calls, crashes, fails, returns};
ghost use Rattle.assise_history.specs.Seen.{event_of};
ghost use Rattle.assise_history.specs.Text.{call_text, durability_text, entry_text, losses_text};

use crate::call::{Call, Loss};
use assise_names::durability::Durability;
use std::fmt;
use std::fmt::{Display, Formatter};
use std::marker::Model;

/// What happened.
#[derive(Debug)]
pub enum EntryKind {
    /// A client was opened on a node.
    Open {
        /// The client.
        client: u32,
        /// Its node.
        node: u32,
        /// How its fsyncs are served.
        durability: Durability,
    },
    /// A call was answered.
    Call(Call),
    /// A client crashed.
    Crash {
        /// The client.
        client: u32,
    },
    /// A node failed, and its clients lost calls.
    Fail {
        /// The node.
        node: u32,
        /// What its clients lost.
        losses: Vec<Loss>,
    },
    /// A node was taken in again.
    Return {
        /// The node.
        node: u32,
    },
}

// One call lets go of it, wherever it is owned.
impl Drop for EntryKind {
    fn drop(self) {
        match self {
            EntryKind::Open {
                client: _,
                node: _,
                durability: _,
            }
            | EntryKind::Call(_)
            | EntryKind::Crash { client: _ }
            | EntryKind::Fail { node: _, losses: _ }
            | EntryKind::Return { node: _ } => (),
        }
    }
}

/// An entry of a history.
#[derive(Debug, Drop)]
pub struct Entry {
    kind: EntryKind,
}

impl Model for Entry {
    ghost use Rattle.assise_history.specs.Entries.{EntryValue};

    ghost Value = { EntryValue };

    ghost use Rattle.assise_history.specs.Seen.{event_of};

    ghost view = { λ e. event_of e.kind };
}

impl Entry {
    /// What happened.
    pub fn kind(&self) -> &EntryKind
        ensures { event_of result.now ≡ self.now }
    {
        &self.kind
    }

    /// The opening of a client on a node, and the durability that its fsyncs have.
    pub fn open(client: u32, node: u32, durability: Durability) -> Entry
        ensures { result ≡ opens client node durability }
    {
        Entry {
            kind: EntryKind::Open {
                client,
                node,
                durability,
            },
        }
    }

    /// An answered call.
    pub fn call(call: Call) -> Entry
        ensures { result ≡ calls call }
    {
        Entry {
            kind: EntryKind::Call(call),
        }
    }

    /// The crash of a client.
    pub fn crash(client: u32) -> Entry
        ensures { result ≡ crashes client }
    {
        Entry {
            kind: EntryKind::Crash { client },
        }
    }

    /// The failure of a node, with what its clients lose.
    pub fn fail(node: u32, losses: Vec<Loss>) -> Entry
        ensures { result ≡ fails node losses.items }
    {
        Entry {
            kind: EntryKind::Fail { node, losses },
        }
    }

    /// The return of a node.
    pub fn node_return(node: u32) -> Entry
        ensures { result ≡ returns node }
    {
        Entry {
            kind: EntryKind::Return { node },
        }
    }
}

/// The entry's line, without its end.
impl Display for Entry {
    ghost output = { λ entry. Some (entry_text entry) };

    fn fmt<W: fmt::Write>(&self, f: &mut Formatter<W>) -> fmt::Result {
        match self.kind() {
            EntryKind::Open {
                client,
                node,
                durability,
            } => {
                let how = Opened(*durability);
                write!(f, "open {client} {node}{how}")
            }
            EntryKind::Call(call) => write!(f, "{call}"),
            EntryKind::Crash { client } => write!(f, "crash {client}"),
            EntryKind::Fail { node, losses } => {
                let losses = Losses(losses.as_slice());
                write!(f, "fail {node}{losses}")
            }
            EntryKind::Return { node } => write!(f, "return {node}"),
        }
    }
}

impl Display for Call {
    ghost output = { λ call. Some (call_text call) };

    fn fmt<W: fmt::Write>(&self, f: &mut Formatter<W>) -> fmt::Result {
        let client = self.client;
        let number = self.number;
        let op = &self.op;
        let reply = &self.reply;
        write!(f, "call {client} {number} {op} = {reply}")
    }
}

/// How a client was opened, where it isn't the usual way.
#[derive(Drop)]
struct Opened(Durability);

impl Display for Opened {
    ghost output = { λ opened. Some (durability_text opened.0) };

    fn fmt<W: fmt::Write>(&self, f: &mut Formatter<W>) -> fmt::Result {
        match self.0 {
            Durability::Pessimistic => Ok(()),
            Durability::Optimistic => write!(f, " optimistic"),
        }
    }
}

/// A space before each client with the number of its first lost call.
#[derive(Drop)]
struct Losses<'a>(&'a [Loss]);

impl Display for Losses<'_> {
    ghost output = { λ losses. Some (losses_text losses.0.now) };

    fn fmt<W: fmt::Write>(&self, f: &mut Formatter<W>) -> fmt::Result {
        for loss in self.0 {
            let client = loss.client;
            let first = loss.first;
            write!(f, " {client}:{first}")?;
        }
        Ok(())
    }
}
