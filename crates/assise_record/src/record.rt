//! The effects of one call.
ghost use Rattle.std.specs.Prelude.{◌≡◌, ◌==◌, ◌<◌, ◌≤◌, IfOk, IsOkUnless, length};
ghost use Rattle.std.proofs.Common.{rules};
ghost use Rattle.std.specs.Cmp.Rules.{comparing};
ghost use Rattle.std.specs.Cmp.Lexicographic.{pointwise};
ghost use Rattle.std.specs.Ordering.{eq_of_both, on};
ghost use Rattle.assise_record.specs.contracts.effect.EffectPartialEq.TheImpl.{eq-value};
ghost use Rattle.assise_record.specs.contracts.effect.EffectEq.TheImpl.Laws.{laws-law};
ghost use Rattle.assise_names.specs.declared.refusal.Refusal.TheVariants.{OutOfMemory};

use crate::effect::Effect;
use assise_names::refusal::Refusal;
use std::alloc::{AllocError, Global};
use std::marker::Model;

/// The most effects of a record.
pub const MOST_EFFECTS: usize = 4;

/// The effects of one call, in order: 1 to 4 of them. The call is known by how many calls of its client were
/// answered before it.
#[derive(Debug, Drop)]
pub struct Record {
    call: u64,
    effects: Vec<Effect>,
}

impl Model for Record {
    ghost use Rattle.std.specs.Prelude.{◌<◌, ◌≤◌, length};
    ghost use Rattle.assise_record.specs.LogRecord.{LogRecord};

    ghost Value = { LogRecord };

    ghost view = { λ r. record { call = r.call; effects = r.effects.items } };

    ghost invariant = { λ r. (0 < length r.effects.items) × (length r.effects.items ≤ 4) };
}

impl Record {
    /// The effects of a call, in order.
    pub fn new(call: u64, effects: Vec<Effect>) -> Record
        requires some_effects { 0 < length effects.items }
        requires few_effects { length effects.items ≤ 4 }
        ensures call { result.call ≡ call }
        ensures effects { result.effects ≡ effects.items }
    {
        Record { call, effects }
    }

    /// How many calls of the client were answered before.
    pub fn call(&self) -> u64
        ensures { result ≡ self.now.call }
    {
        self.call
    }

    /// The effects, in order.
    pub fn effects(&self) -> &[Effect]
        ensures effects { result.now ≡ self.now.effects }
        ensures some { 0 < length self.now.effects }
        ensures few { length self.now.effects ≤ 4 }
    {
        self.effects.as_slice()
    }

    /// Lets the bytes of a write, which is a record's one effect, lie where those of an equal record lie, so that they stand in
    /// memory once. It takes no memory: where they can't be shared they stay where they are.
    pub fn share_payload(&mut self, equal: &Record)
        requires { self.old ≡ equal.now }
        ensures { self.new ≡ self.old }
    {
        if let ([effect], [shared]) = (self.effects.as_mut_slice(), equal.effects.as_slice()) {
            effect.share_payload(shared);
        }
    }

    /// An equal value, or [`Refusal::OutOfMemory`]. The bytes of writes are shared.
    pub fn copy(&self, alloc: Global) -> Result<Record, Refusal>
        ensures equal { IfOk result (λ copied. copied ≡ self.now) }
        ensures only_memory { IsOkUnless result OutOfMemory }
    {
        let effects = copies(alloc, &self.effects)?;
        Ok(Record {
            call: self.call,
            effects,
        })
    }
}

impl PartialEq for Record {
    ghost eq = { eq_of_both (on (λ r. r.call) ◌==◌) (on (λ r. r.effects) (pointwise eq-value.it)) };

    ghost laws = { Prim.search (comparing, laws-law, rules) };

    fn eq(&self, other: &Record) -> bool {
        self.call == other.call && self.effects() == other.effects()
    }
}

impl Eq for Record {
    ghost laws = { Prim.search (comparing, laws-law, rules) };
}

/// Equal effects, in order.
fn copies(alloc: Global, effects: &[Effect]) -> Result<Vec<Effect>, AllocError>
    ensures equal { IfOk result (λ copied. copied.items ≡ effects.now) }
{
    let mut copied = Vec::with_capacity(alloc, effects.len())?;
    for effect in effects {
        copied.push(effect.copy()?)?;
    }
    Ok(copied)
}
