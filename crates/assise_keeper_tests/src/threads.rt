//! Two clients and a worker in threads of their own.
ghost use Rattle.std.specs.Prelude.{◌≡◌, map, Some, None, IfSome};
ghost use Rattle.assise_keeper.specs.Clients.{MayOpenClients};
ghost use Rattle.assise_keeper.specs.Passes.{IsPassOf, seen, client, mine, opens};
ghost use Rattle.assise_keeper.specs.Working.{pass_of};
ghost use Rattle.assise_keeper_tests.specs.Made.{made, EndsWith};

use crate::book::Book;
use crate::client::{calls_as, look_often, open_as};
use assise_keeper::keeper::Keeper;
use assise_keeper::pass::Pass;
use assise_keeper::worker_pass::WorkerPass;
use std::alloc::Global;
use std::sync::Wait;
use std::thread::{Threads, join};

/// What a client did, and what it has seen.
#[derive(Drop)]
pub struct Served {
    /// Its pass.
    pub pass: Pass<Book>,
    /// Its number.
    pub client: u32,
    /// The numbers of its calls.
    pub numbers: Vec<u64>,
}

/// What is left of two clients that met, of a worker beside them, and of the keeper.
#[derive(Drop)]
pub struct Ended {
    /// The first client.
    pub first: Served,
    /// The second client.
    pub second: Served,
    /// How many calls had been made when the worker looked for the last time.
    pub looked: u64,
    /// The book, if it was there at the end.
    pub book: Option<Book>,
}

/// Opens a client, which makes `count` calls.
pub fn serve<R: Wait>(
    rt: &R,
    alloc: Global,
    keeper: &Keeper<Book>,
    mut pass: Pass<Book>,
    count: u32,
) -> Option<Served>
    requires pass { IsPassOf keeper.now pass × (client pass ≡ None) }
    requires right { MayOpenClients (opens pass) }
    ensures free { IfSome result (λ s. IsPassOf keeper.now s.pass ×
        (client s.pass ≡ Some s.client)) }
    ensures made { IfSome result (λ s. EndsWith (mine s.pass)
        (map (made s.client) s.numbers.items)) }
{
    let client = open_as(rt, keeper, &mut pass).ok()?;
    let numbers = calls_as(rt, alloc, keeper, &mut pass, client, count).ok()?;
    Some(Served {
        pass,
        client,
        numbers,
    })
}

/// A client in a thread, and a worker beside it in another.
fn serve_beside_worker<R: Threads + Wait + Sync>(
    rt: &R,
    alloc: Global,
    keeper: &Keeper<Book>,
    pass: Pass<Book>,
    mut worker: WorkerPass<Book>,
    count: u32,
) -> (Option<Served>, u64)
    requires client { IsPassOf keeper.now pass × (client pass ≡ None) }
    requires right { MayOpenClients (opens pass) }
    requires worker { IsPassOf keeper.now (pass_of worker) }
    ensures free { IfSome result.0 (λ s. IsPassOf keeper.now s.pass ×
        (client s.pass ≡ Some s.client)) }
    ensures made { IfSome result.0 (λ s. EndsWith (mine s.pass)
        (map (made s.client) s.numbers.items)) }
{
    join(
        rt,
        || serve(rt, alloc, keeper, pass, count),
        || look_often(rt, keeper, &mut worker, count),
    )
}

/// Two clients make `count` calls each, in two threads, beside a worker in a third; then they meet.
pub fn two_clients<R: Threads + Wait + Sync>(rt: &R, alloc: Global, count: u32) -> Option<Ended>
    ensures one { IfSome result (λ e. seen e.first.pass ≡ seen e.second.pass) }
    ensures first { IfSome result (λ e. EndsWith (mine e.first.pass)
        (map (made e.first.client) e.first.numbers.items)) }
    ensures second { IfSome result (λ e. EndsWith (mine e.second.pass)
        (map (made e.second.client) e.second.numbers.items)) }
{
    let (keeper, mut first) = Keeper::new(alloc, Book::new(alloc)).ok()?;
    let second = keeper.split_sharing(&mut first);
    let worker = WorkerPass::new(keeper.split(&mut first));
    let (first, (second, looked)) = join(
        rt,
        || serve(rt, alloc, &keeper, first, count),
        || -> (Option<Served>, u64)
            requires { IsPassOf keeper second × (client second ≡ None) ×
                MayOpenClients (opens second) × IsPassOf keeper (pass_of worker) }
            ensures free { IfSome result.0 (λ s. IsPassOf keeper s.pass ×
                (client s.pass ≡ Some s.client)) }
            ensures made { IfSome result.0 (λ s. EndsWith (mine s.pass)
                (map (made s.client) s.numbers.items)) }
        { serve_beside_worker(rt, alloc, &keeper, second, worker, count) },
    );
    let met = meet(rt, &keeper, first, second);
    let book = keeper.close();
    let (first, second) = met?;
    Some(Ended {
        first,
        second,
        looked,
        book,
    })
}

/// Two clients that meet have seen the same, and each still has its own calls.
fn meet<R: Wait>(
    rt: &R,
    keeper: &Keeper<Book>,
    first: Option<Served>,
    second: Option<Served>,
) -> Option<(Served, Served)>
    requires first { IfSome first (λ s. IsPassOf keeper.now s.pass ×
        EndsWith (mine s.pass) (map (made s.client) s.numbers.items)) }
    requires second { IfSome second (λ s. IsPassOf keeper.now s.pass ×
        EndsWith (mine s.pass) (map (made s.client) s.numbers.items)) }
    ensures one { IfSome result (λ r. seen r.0.pass ≡ seen r.1.pass) }
    ensures first { IfSome result (λ r. EndsWith (mine r.0.pass)
        (map (made r.0.client) r.0.numbers.items)) }
    ensures second { IfSome result (λ r. EndsWith (mine r.1.pass)
        (map (made r.1.client) r.1.numbers.items)) }
{
    let first = first?;
    let second = second?;
    let (one, other) = keeper.meet(rt, first.pass, second.pass);
    let first = Served {
        pass: one,
        client: first.client,
        numbers: first.numbers,
    };
    let second = Served {
        pass: other,
        client: second.client,
        numbers: second.numbers,
    };
    Some((first, second))
}
