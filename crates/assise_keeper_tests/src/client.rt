//! Turns of a client and of a worker: a take, what is done with the state, and the give.
ghost use Rattle.std.specs.Prelude.{◌≡◌, ◌++◌, map, Some, None, IfOk, OnErr};
ghost use Rattle.assise_keeper.specs.Clients.{Extends, ExtendsByOne, MayOpenClients};
ghost use Rattle.assise_keeper.specs.Passes.{seen, client, mine, opens, IsPassOf};
ghost use Rattle.assise_keeper.specs.Working.{pass_of};
ghost use Rattle.assise_keeper_tests.specs.Made.{made};

use crate::book::Book;
use assise_keeper::keeper::Keeper;
use assise_keeper::pass::Pass;
use assise_keeper::worker_pass::WorkerPass;
use assise_names::refusal::Refusal;
use std::alloc::Global;
use std::sync::Wait;

/// Opens a client, which is the pass's from then on.
pub fn open_as<R: Wait>(
    rt: &R,
    keeper: &Keeper<Book>,
    pass: &mut Pass<Book>,
) -> Result<u32, Refusal>
    requires pass { IsPassOf keeper.now pass.old × (client pass.old ≡ None) }
    requires right { MayOpenClients (opens pass.old) }
    ensures free { IsPassOf keeper.now pass.new }
    ensures seen { Extends (seen pass.new) (seen pass.old) }
    ensures opened { IfOk result (λ c. client pass.new ≡ Some c) }
    ensures refused { OnErr result (client pass.new ≡ None) }
{
    let mut held = keeper.take(rt, pass);
    let opened = held.state().open();
    keeper.give(pass, held);
    opened
}

/// Makes a call of the pass's client, and answers its number.
pub fn call_as<R: Wait>(
    rt: &R,
    keeper: &Keeper<Book>,
    pass: &mut Pass<Book>,
    caller: u32,
) -> Result<u64, Refusal>
    requires { IsPassOf keeper.now pass.old × (client pass.old ≡ Some caller) }
    ensures free { IsPassOf keeper.now pass.new × (client pass.new ≡ Some caller) }
    ensures seen { Extends (seen pass.new) (seen pass.old) }
    ensures called { IfOk result (λ k. ExtendsByOne caller (seen pass.old) (seen pass.new)
        (made caller k)) }
    ensures refused { OnErr result (mine pass.new ≡ mine pass.old) }
{
    let mut held = keeper.take(rt, pass);
    match held.state().call(caller) {
        Ok(number) => {
            keeper.give(pass, held);
            Ok(number)
        }
        Err(refusal) => {
            keeper.give(pass, held);
            Err(refusal)
        }
    }
}

/// Makes `count` calls, each in a turn of its own, and answers their numbers.
pub fn calls_as<R: Wait>(
    rt: &R,
    alloc: Global,
    keeper: &Keeper<Book>,
    pass: &mut Pass<Book>,
    caller: u32,
    count: u32,
) -> Result<Vec<u64>, Refusal>
    requires { IsPassOf keeper.now pass.old × (client pass.old ≡ Some caller) }
    ensures free { IsPassOf keeper.now pass.new × (client pass.new ≡ Some caller) }
    ensures called { IfOk result (λ numbers. mine pass.new ≡ mine pass.old ++ map
        (made caller) numbers.items) }
{
    let mut numbers = Vec::new(alloc);
    for _ in 0..count {
        let number = call_as(rt, keeper, pass, caller)?;
        numbers.push(number)?;
    }
    Ok(numbers)
}

/// Looks at the book so often, and answers how many calls had been made the last time.
pub fn look_often<R: Wait>(
    rt: &R,
    keeper: &Keeper<Book>,
    worker: &mut WorkerPass<Book>,
    count: u32,
) -> u64
    requires { IsPassOf keeper.now (pass_of worker.old) }
    ensures { IsPassOf keeper.now (pass_of worker.new) }
{
    let mut calls = 0;
    for _ in 0..count {
        let mut held = worker.take(rt, keeper);
        calls = held.state().calls();
        worker.give(keeper, held);
    }
    calls
}
