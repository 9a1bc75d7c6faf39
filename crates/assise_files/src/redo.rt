//! A client's changes that a failure took.
ghost use Rattle.std.specs.Prelude.{◌≡◌, ◌↔◌, ◌||◌, IsTrue, Ok, nat_le, ℕ, ◌∷◌, ◌++◌, IfOk, IsOkUnless, List, OnOk, reverse};
ghost use Rattle.assise_names.specs.declared.refusal.Refusal.TheVariants.{OutOfMemory};
ghost use Rattle.assise_names.specs.declared.reply.Reply.TheVariants.{Done};
ghost use Rattle.assise_history.specs.Entries.{EntryValue};
ghost use Rattle.assise_files.specs.LostSearch.{AreFound, IsNumbered, are_taken, change_found, is_call_to, is_taken_from};
ghost use Rattle.assise_files.specs.LostChanges.{is_change, lost_changes};

use assise_history::call::{Call, Loss};
use assise_history::entry::{Entry, EntryKind};
use assise_names::call::Op;
use assise_names::refusal::Refusal;
use assise_names::reply::Reply;
use std::alloc::Global;

/// A change of files that a failure took.
#[derive(Drop)]
pub struct LostChange {
    /// The number of the lost call.
    pub number: u64,
    /// What was called.
    pub op: Op,
}

/// The first of a client's lost changes that isn't made again.
#[derive(Drop)]
pub struct Unmade {
    /// The number of the lost call.
    pub call: u64,
    /// What came in place of [`Reply::Done`].
    pub came: Result<Reply, Refusal>,
}

/// What a walk from a history's end to its front has found of a client.
#[derive(Drop)]
struct Lost {
    /// The first number from which on failures take its calls.
    taken: Option<u64>,
    /// Its lost changes, the last first.
    changes: Vec<LostChange>,
}

impl Lost {
    ghost use Rattle.std.specs.Prelude.{◌≡◌, ◌||◌, ℕ, ◌∷◌, ◌++◌, IsOkUnless, List, OnOk};
    ghost use Rattle.assise_names.specs.declared.refusal.Refusal.TheVariants.{OutOfMemory};
    ghost use Rattle.assise_history.specs.Entries.{EntryValue};
    ghost use Rattle.assise_files.specs.LostSearch.{AreFound, are_taken, change_found, is_taken_from};

    /// Notes the entry in front of those that were noted, for a client's changes from a number on. The one refusal is
    /// [`Refusal::OutOfMemory`].
    fn note(&mut self, entry: &Entry, client: u32, first: u64) -> Result<(), Refusal>
        ensures noted { OnOk result ((later : List EntryValue) →
            AreFound client first later self.old →
            AreFound client first (entry.now ∷ later) self.new) }
        ensures only_memory { IsOkUnless result OutOfMemory }
    {
        match entry.kind() {
            EntryKind::Call(call) => {
                if call.client == client {
                    self.note_call(call, first)
                } else {
                    Ok(())
                }
            }
            EntryKind::Fail { node: _, losses } => {
                self.note_losses(losses.as_slice(), client);
                Ok(())
            }
            EntryKind::Open { .. } => Ok(()),
            EntryKind::Crash { .. } => Ok(()),
            EntryKind::Return { .. } => Ok(()),
        }
    }

    /// Notes a call of the client.
    fn note_call(&mut self, call: &Call, first: u64) -> Result<(), Refusal>
        ensures taken { self.new.taken ≡ self.old.taken }
        ensures changes { OnOk result (self.new.changes.items ≡
            self.old.changes.items ++ change_found first self.old.taken call.now) }
        ensures only_memory { IsOkUnless result OutOfMemory }
    {
        let number = call.number;
        if first <= number && is_change(call) && is_taken_from(self.taken, number) {
            let op = call.op.copy()?;
            self.changes.push(LostChange { number, op })?;
        }
        Ok(())
    }

    /// Notes what a failure took.
    fn note_losses(&mut self, losses: &[Loss], client: u32)
        ensures taken { (number : ℕ) → is_taken_from self.new.taken number ≡
            (are_taken losses.now client number || is_taken_from self.old.taken number) }
        ensures changes { self.new.changes.items ≡ self.old.changes.items }
    {
        for loss in losses {
            if loss.client == client {
                self.taken = Some(lower(self.taken, loss.first));
            }
        }
    }
}

/// The lower of two numbers, of which one may be missing.
fn lower(taken: Option<u64>, first: u64) -> u64
    ensures { (number : ℕ) →
        nat_le result number ≡ (nat_le first number || is_taken_from taken number) }
{
    match taken {
        Some(taken) => taken.min(first),
        None => first,
    }
}

/// Whether a number is at or behind the first that is taken.
fn is_taken_from(taken: Option<u64>, number: u64) -> bool
    ensures { result ≡ is_taken_from taken number }
{
    match taken {
        Some(first) => first <= number,
        None => false,
    }
}

/// Whether this came of a call that was to be done.
pub(crate) fn is_done(came: &Result<Reply, Refusal>) -> bool
    ensures { IsTrue result ↔ (came.now ≡ Ok Done) }
{
    matches!(came, Ok(Reply::Done))
}

/// Whether a call changed files.
fn is_change(call: &Call) -> bool
    ensures { result ≡ is_change call.now }
{
    match (&call.reply, &call.op) {
        (Reply::Done, Op::Fsync | Op::Dsync) => false,
        (Reply::Done, _) => true,
        _ => false,
    }
}

/// Whether an entry is a call of a client up to a number.
fn is_call_to(entry: &Entry, client: u32, first: u64) -> bool
    ensures { result ≡ is_call_to client first entry.now }
{
    match entry.kind() {
        EntryKind::Call(call) => client == call.client && call.number <= first,
        _ => false,
    }
}

/// A client's lost changes from a number on, the last first. The one refusal is [`Refusal::OutOfMemory`]. It costs the entries behind
/// that call.
pub(crate) fn lost_changes(
    alloc: Global,
    entries: &[Entry],
    client: u32,
    first: u64,
) -> Result<Vec<LostChange>, Refusal>
    requires { IsNumbered entries.now }
    ensures found { IfOk result (λ found. found.items ≡
        reverse (lost_changes client first entries.now)) }
    ensures only_memory { IsOkUnless result OutOfMemory }
{
    let mut lost = Lost {
        taken: None,
        changes: Vec::new(alloc),
    };
    let mut rest = entries;
    while let Some((entry, before)) = rest.split_last() {
        lost.note(entry, client, first)?;
        if is_call_to(entry, client, first) {
            return Ok(lost.changes);
        }
        rest = before;
    }
    Ok(lost.changes)
}
