//! Revokers for the clients that are to be opened.
ghost use Rattle.std.specs.Option.{option_to_list};
ghost use Rattle.std.specs.Prelude.{◌≡◌, ◌<◌, ◌++◌, ◌∷◌, [], IfErr, IsOk, IsSome, None, OnErr, OnOk, vec_capacity, vec_len};
ghost use Rattle.assise_fault_script.specs.declared.command.RevokerKind.{RevokerKind as Kind};
ghost use Rattle.assise_console.specs.Stored.{HasSpare, revokers_left};

use assise_fault_script::command::RevokerKind;
use std::alloc::Global;

/// Revokers of each kind that a script names, for the clients that are to be opened: each takes the last of its kind.
pub struct Stock<C> {
    /// Those of `least`.
    pub least: Vec<C>,
    /// Those of `whole`.
    pub whole: Vec<C>,
    /// Those of `eights`.
    pub eights: Vec<C>,
}

// One call lets go of it, wherever it is owned.
impl<C: Drop> Drop for Stock<C> {
    fn drop(self) {
        let Stock {
            least: _,
            whole: _,
            eights: _,
        } = self;
    }
}

impl<C> Stock<C> {
    /// No revokers.
    pub fn new(alloc: Global) -> Stock<C>
        ensures least { result.least.items ≡ [] }
        ensures whole { result.whole.items ≡ [] }
        ensures eights { result.eights.items ≡ [] }
    {
        Stock {
            least: Vec::new(alloc),
            whole: Vec::new(alloc),
            eights: Vec::new(alloc),
        }
    }

    /// Takes the last revoker of a kind, if one is left. [`put_back`](Stock::put_back) finds memory for it then.
    pub fn take(&mut self, kind: RevokerKind) -> Option<C>
        ensures taken { revokers_left kind self.old ≡ revokers_left kind self.new ++
            option_to_list result }
        ensures none { result ≡ None → revokers_left kind self.old ≡ [] }
        ensures kinds { (k : Kind) → (k ≡ kind → ⊥) →
            revokers_left k self.new ≡ revokers_left k self.old }
        ensures spare { IsSome result → HasSpare kind self.new }
    {
        match kind {
            RevokerKind::Least => take_last(&mut self.least),
            RevokerKind::Whole => take_last(&mut self.whole),
            RevokerKind::Eights => take_last(&mut self.eights),
        }
    }

    /// Puts a revoker behind those of its kind. Where there is no memory for it, it comes back, and the stock is as it was.
    pub fn put_back(&mut self, kind: RevokerKind, revoker: C) -> Result<(), C>
        ensures added { OnOk result (revokers_left kind self.new ≡ revokers_left kind self.old ++
            revoker ∷ []) }
        ensures kept { OnErr result (revokers_left kind self.new ≡ revokers_left kind self.old) }
        ensures returned { IfErr result (λ back. back ≡ revoker) }
        ensures kinds { (k : Kind) → (k ≡ kind → ⊥) →
            revokers_left k self.new ≡ revokers_left k self.old }
        ensures succeeds { HasSpare kind self.old → IsOk result }
    {
        match kind {
            RevokerKind::Least => add_last(&mut self.least, revoker),
            RevokerKind::Whole => add_last(&mut self.whole, revoker),
            RevokerKind::Eights => add_last(&mut self.eights, revoker),
        }
    }
}

/// Takes the last revoker, if there is one.
fn take_last<C>(revokers: &mut Vec<C>) -> Option<C>
    ensures taken { revokers.old.items ≡ revokers.new.items ++ option_to_list result }
    ensures none { result ≡ None → revokers.old.items ≡ [] }
    ensures spare { IsSome result → vec_len revokers.new < vec_capacity revokers.new }
{
    revokers.pop()
}

/// Adds a revoker at the end, or gives it back.
fn add_last<C>(revokers: &mut Vec<C>, revoker: C) -> Result<(), C>
    ensures added { OnOk result (revokers.new.items ≡ revokers.old.items ++ revoker ∷ []) }
    ensures kept { OnErr result (revokers.new.items ≡ revokers.old.items) }
    ensures returned { IfErr result (λ back. back ≡ revoker) }
    ensures succeeds { vec_len revokers.old < vec_capacity revokers.old → IsOk result }
{
    match revokers.push(revoker) {
        Ok(()) => Ok(()),
        Err(refused) => Err(refused.value),
    }
}
