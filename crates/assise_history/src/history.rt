//! What happened, in order.
ghost use Rattle.std.specs.Prelude.{◌≡◌, ◌<◌, ◌-◌, ◌^◌, [], ◌∷◌, ◌++◌, IsOk, OnOk, Some, length, min};
ghost use Rattle.assise_history.specs.Payload.{payloads};
ghost use Rattle.assise_history.specs.Text.{history_text};

use crate::entry::Entry;
use crate::payload::payload;
use std::alloc::{AllocError, Global};
use std::fmt;
use std::fmt::{Display, Formatter};
use std::marker::Model;

/// Entries in the order in which they happened. A history only grows. A contract sees the events, and for how
/// many more entries there is room without another growth.
#[derive(Debug, Drop)]
pub struct History {
    entries: Vec<Entry>,
    payload: u64,
    ghost counted: { payload ≡ min (payloads entries.items) (2 ^ 64 - 1) },
}

impl Model for History {
    ghost use Rattle.std.specs.Prelude.{◌-◌, vec_capacity, vec_len};
    ghost use Rattle.assise_history.specs.Entries.{Recorded};

    ghost Value = { Recorded };

    ghost view = { λ h. record { events = h.entries.items; room = vec_capacity h.entries - vec_len h.entries } };
}

impl History {
    /// A history in which nothing happened. Its entries lie where the allocator puts them.
    pub fn new(alloc: Global) -> History
        ensures { result.events ≡ [] }
    {
        History {
            entries: Vec::new(alloc),
            payload: 0,
        }
    }

    /// The entries in order.
    pub fn entries(&self) -> &[Entry]
        ensures { result.now ≡ self.now.events }
    {
        self.entries.as_slice()
    }

    /// How many bytes its calls wrote, read and listed: at most 2^64 - 1. It keeps them all.
    pub fn payload(&self) -> u64
        ensures { result ≡ min (payloads self.now.events) (2 ^ 64 - 1) }
    {
        self.payload
    }

    /// Makes room for an entry. Where there is room already, it takes no memory. There are never 2^63 entries.
    pub fn reserve(&mut self) -> Result<(), AllocError>
        ensures room { OnOk result (0 < self.new.room) }
        ensures granted { 0 < self.old.room → IsOk result }
        ensures same { self.new.events ≡ self.old.events }
        ensures few { length self.new.events < 2 ^ 63 }
    {
        self.entries.reserve(1)?;
        Ok(())
    }

    /// Adds an entry, for which room was made. There are never 2^63 entries.
    pub fn push(&mut self, entry: Entry)
        requires { 0 < self.old.room }
        ensures grown { self.new.events ≡ self.old.events ++ entry ∷ [] }
        ensures few { length self.new.events < 2 ^ 63 }
    {
        self.payload = self.payload.saturating_add(payload(&entry));
        self.entries.push_reserved(entry);
    }
}

/// The count of the entries, and then each in a line of its own. The last line has no end.
impl Display for History {
    ghost output = { λ history. Some (history_text history.events) };

    fn fmt<W: fmt::Write>(&self, f: &mut Formatter<W>) -> fmt::Result {
        let entries = self.entries();
        let count = entries.len();
        write!(f, "history {count}")?;
        for entry in entries {
            write!(f, "\n{entry}")?;
        }
        Ok(())
    }
}
