//! The calls that no later failure loses.
ghost use Rattle.std.specs.Prelude.{◌≡◌, IfOk, OnOk, false, map, filter, not};
ghost use Rattle.assise_history.specs.Kept.{kept, kept_more, loses};

use crate::call::{Call, Loss};
use crate::entry::{Entry, EntryKind};
use crate::history::History;
use std::alloc::{AllocError, Global};

/// The calls of a history that no later failure loses, in order. It costs the history's length, and for each failure the
/// calls before it times the clients that lose calls.
pub fn kept<'a>(alloc: Global, history: &'a History) -> Result<Vec<&'a Call>, AllocError>
    ensures ok { IfOk result (λ calls. map (λ call. call.now) calls.items ≡
        kept history.now.events) }
{
    kept_of(alloc, history.entries())
}

fn kept_of<'a>(alloc: Global, entries: &'a [Entry]) -> Result<Vec<&'a Call>, AllocError>
    ensures ok { IfOk result (λ calls. map (λ call. call.now) calls.items ≡ kept entries.now) }
{
    let mut calls = Vec::new(alloc);
    for entry in entries {
        keep(&mut calls, entry)?;
    }
    Ok(calls)
}

/// What is kept after an entry more.
fn keep<'a>(calls: &mut Vec<&'a Call>, entry: &'a Entry) -> Result<(), AllocError>
    ensures ok { OnOk result (map (λ call. call.now) calls.new.items ≡ kept_more
        (map (λ call. call.now) calls.old.items) entry.now) }
{
    match entry.kind() {
        EntryKind::Call(call) => {
            calls.push(call)?;
            Ok(())
        }
        EntryKind::Fail { node: _, losses } => {
            drop_lost(calls, losses.as_slice());
            Ok(())
        }
        EntryKind::Open { .. } => Ok(()),
        EntryKind::Crash { .. } => Ok(()),
        EntryKind::Return { .. } => Ok(()),
    }
}

/// Drops the calls that a failure loses, and says whether there were any.
pub(crate) fn drop_lost(calls: &mut Vec<&Call>, losses: &[Loss]) -> bool
    ensures left { map (λ call. call.now) calls.new.items ≡
        filter (λ call. not (loses losses.now call)) (map (λ call. call.now) calls.old.items) }
    ensures none { result ≡ false →
        map (λ call. call.now) calls.new.items ≡ map (λ call. call.now) calls.old.items }
{
    let before = calls.len();
    calls.retain(|call| !loses(losses, call));
    calls.len() < before
}

/// Whether a failure with these losses loses a call.
fn loses(losses: &[Loss], call: &Call) -> bool
    ensures { result ≡ loses losses.now call.now }
{
    losses.iter().any(|loss| loss.client == call.client && loss.first <= call.number)
}
