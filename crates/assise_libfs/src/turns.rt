//! Turns of a client: a take, one try, and the give.
ghost use Rattle.std.specs.Prelude.{◌≡◌, IfErr, IfOk, None, OnErr, Some};
ghost use Rattle.assise_history.specs.Legal.{IsLegal, calls_made};
ghost use Rattle.assise_keeper.specs.declared.view.Opens.TheVariants.{Alone};
ghost use Rattle.assise_keeper.specs.Clients.{Extends, MayOpenClients, openings_of};
ghost use Rattle.assise_keeper.specs.Passes.{IsPassOf, client, opens, seen};
ghost use Rattle.assise_libfs.specs.Calling.{MayRefuseTry, SeesTry, answers};
ghost use Rattle.assise_libfs.specs.Lives.{EndsWithOpening, IsOpenedAs, OpensNoOther};
ghost use Rattle.assise_libfs.specs.Opening.{MayRefuseOpen};
ghost use Rattle.assise_libfs.specs.InTurns.{InOneTurn, IsPassTurn, tried_answer};
ghost use Rattle.assise_machine_calls.specs.Answers.{opening_answer};
ghost use Rattle.assise_model_events.specs.Events.{open_client, try_call};

use crate::served::Served;
use assise_keeper::keeper::Keeper;
use assise_keeper::pass::Pass;
use assise_names::call::Op;
use assise_names::durability::Durability;
use assise_names::refusal::Refusal;
use assise_names::reply::Reply;
use std::alloc::Global;
use std::sync::Wait;

/// One try of a call of the pass's client.
pub(crate) fn try_turn<S: Served, R: Wait>(
    rt: &R,
    alloc: Global,
    keeper: &Keeper<S>,
    pass: &mut Pass<S>,
    caller: u32,
    op: &Op,
) -> Result<Option<Reply>, Refusal>
    requires { IsPassOf keeper.now pass.old × (client pass.old ≡ Some caller) }
    ensures free { IsPassOf keeper.now pass.new }
    ensures client { client pass.new ≡ Some caller }
    ensures right { opens pass.new ≡ opens pass.old }
    ensures sees { SeesTry caller op.now (seen pass.old) result (seen pass.new) }
    ensures legal { ∥ IsLegal (seen pass.new) ∥₁ }
    ensures refused { IfErr result (λ r. MayRefuseTry caller op.now (seen pass.new) r) }
    ensures turn { InOneTurn S.Growing.history S.acts (try_call caller op.now)
        (tried_answer result) (seen pass.old) (seen pass.new) }
{
    let mut held = keeper.take(rt, pass);
    let tried = held.state().try_call(alloc, caller, op);
    keeper.give(pass, held);
    tried
}

/// Opens a client on a node, with this durability, which is the pass's from then on.
pub(crate) fn open_turn<S: Served, R: Wait>(
    rt: &R,
    alloc: Global,
    keeper: &Keeper<S>,
    pass: &mut Pass<S>,
    node: u32,
    stored: S::Stored,
    durability: Durability,
) -> Result<u32, (Refusal, S::Stored)>
    requires pass { IsPassOf keeper.now pass.old × (client pass.old ≡ None) }
    requires right { MayOpenClients (opens pass.old) }
    ensures free { IsPassOf keeper.now pass.new }
    ensures right { opens pass.new ≡ opens pass.old }
    ensures seen { Extends (seen pass.new) (seen pass.old) }
    ensures legal { ∥ IsLegal (seen pass.new) ∥₁ }
    ensures own { IfOk result (λ c. client pass.new ≡ Some c) }
    ensures opened { IfOk result (λ c. IsOpenedAs c node durability (seen pass.new)) }
    ensures last { IfOk result
        (λ c. EndsWithOpening c node durability (seen pass.old) (seen pass.new)) }
    ensures alone { IfOk result (λ c. opens pass.old ≡ Alone →
        OpensNoOther c node durability (seen pass.old) (seen pass.new)) }
    ensures no_calls { IfOk result (λ c. calls_made c (seen pass.new) ≡ 0) }
    ensures no_client { OnErr result (client pass.new ≡ None) }
    ensures no_opening { OnErr result (opens pass.old ≡ Alone →
        openings_of (seen pass.new) ≡ openings_of (seen pass.old)) }
    ensures refused { IfErr result (λ back. MayRefuseOpen node (seen pass.new) back.0) }
    ensures given_back { IfErr result (λ back. back.1 ≡ stored) }
    ensures turn { IsPassTurn S.Growing.history S.Growing.leads S.Growing.works S.acts
        (open_client node durability) (opening_answer result) pass.old pass.new }
{
    let mut held = keeper.take(rt, pass);
    let opened = held.state().open(alloc, node, stored, durability);
    keeper.give(pass, held);
    opened
}

/// How many calls a try answered.
pub(crate) fn answered(tried: &Result<Option<Reply>, Refusal>) -> u64
    ensures { result ≡ answers tried.now }
{
    match tried {
        Ok(Some(_)) => 1,
        Ok(None) | Err(_) => 0,
    }
}
