//! Clients of a ledger.
ghost use Rattle.std.specs.Prelude.{◌≡◌, ◌≤◌, None};
ghost use Rattle.assise_keeper.specs.Clients.{MayOpenClients};
ghost use Rattle.assise_keeper.specs.Passes.{IsPassOf, client, opens};

use crate::calls::{TURNS, told};
use crate::ledger::Ledger;
use assise_keeper::keeper::Keeper;
use assise_keeper::pass::Pass;
use assise_libfs::libfs::LibFs;
use assise_names::durability::Durability;
use std::alloc::Global;
use std::sync::Wait;

/// A client of a ledger makes an fsync of `turns` turns: what it came to, and how often it was tried.
pub fn sync_once<R: Wait>(rt: &R, alloc: Global, ledger: Ledger, turns: u32) -> Option<String>
    requires some { 1 ≤ turns }
    requires few { turns ≤ 1000000 }
{
    let (keeper, pass) = Keeper::new(alloc, ledger).ok()?;
    let outcome = open_and_sync(rt, alloc, &keeper, pass, turns);
    let ledger = keeper.close()?;
    let (tries, outcome) = (ledger.tries(), outcome?);
    format!(in alloc; "{outcome} by {tries}").ok()
}

fn open_and_sync<R: Wait>(
    rt: &R,
    alloc: Global,
    keeper: &Keeper<Ledger>,
    pass: Pass<Ledger>,
    turns: u32,
) -> Option<String>
    requires pass { IsPassOf keeper.now pass × (client pass ≡ None) }
    requires right { MayOpenClients (opens pass) }
    requires some { 1 ≤ turns }
    requires few { turns ≤ 1000000 }
{
    let durability = Durability::Pessimistic;
    let mut libfs = LibFs::open(rt, alloc, keeper, pass, 1, 0, durability, turns).ok()?;
    told(alloc, &libfs.fsync(rt, alloc))
}

/// Two clients of a ledger meet once the first has made an fsync: how many calls each has made then.
pub fn calls_of_two<R: Wait>(rt: &R, alloc: Global) -> Option<(u64, u64)> {
    let (keeper, mut first) = Keeper::new(alloc, Ledger::new(alloc, 0, false)).ok()?;
    let second = keeper.split_sharing(&mut first);
    let calls = sync_and_meet(rt, alloc, &keeper, first, second);
    keeper.close()?;
    calls
}

fn sync_and_meet<R: Wait>(
    rt: &R,
    alloc: Global,
    keeper: &Keeper<Ledger>,
    first: Pass<Ledger>,
    second: Pass<Ledger>,
) -> Option<(u64, u64)>
    requires first { IsPassOf keeper.now first × (client first ≡ None) }
    requires second { IsPassOf keeper.now second × (client second ≡ None) }
    requires rights { MayOpenClients (opens first) × MayOpenClients (opens second) }
{
    let durability = Durability::Pessimistic;
    let mut first = LibFs::open(rt, alloc, keeper, first, 1, 0, durability, TURNS).ok()?;
    let second = LibFs::open(rt, alloc, keeper, second, 1, 0, durability, TURNS).ok()?;
    first.fsync(rt, alloc).ok()?;
    let (first, second) = LibFs::meet(rt, first, second);
    Some((first.calls_made(), second.calls_made()))
}
