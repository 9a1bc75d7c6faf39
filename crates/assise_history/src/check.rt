//! Whether a history is legal.
ghost use Rattle.std.specs.Prelude.{◌↔◌, IsTrue, IfOk, IsOkUnless};
ghost use Rattle.assise_history.specs.Legal.{IsLegal};
ghost use Rattle.assise_names.specs.declared.refusal.Refusal.TheVariants.{OutOfMemory};

use crate::entry::Entry;
use crate::history::History;
use crate::played::Played;
use crate::prefix::Prefix;
use assise_names::refusal::Refusal;
use std::alloc::Global;

/// Whether the history is legal, or [`Refusal::OutOfMemory`]. Each call is played once, and a failure that takes calls
/// plays those that are kept again: so it costs what the calls cost on one plain tree, as often as one more than there
/// are such failures. Each entry also scans the clients, and a failure the kept calls once for each client that it lists.
pub fn check(alloc: Global, history: &History) -> Result<bool, Refusal>
    ensures decided { IfOk result (λ yes. IsTrue yes ↔ IsLegal history.now.events) }
    ensures only_memory { IsOkUnless result OutOfMemory }
{
    is_legal(alloc, history.entries())
}

fn is_legal(alloc: Global, entries: &[Entry]) -> Result<bool, Refusal>
    ensures decided { IfOk result (λ yes. IsTrue yes ↔ IsLegal entries.now) }
    ensures only_memory { IsOkUnless result OutOfMemory }
{
    let mut prefix = Prefix::new(alloc);
    let mut played = Played::new(alloc);
    for entry in entries {
        if !prefix.allows(entry) {
            return Ok(false);
        }
        if !played.take(alloc, entry)? {
            return Ok(false);
        }
        prefix.note(entry)?;
    }
    Ok(true)
}
