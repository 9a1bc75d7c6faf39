//! A cluster that threads took in turn is renewed: a client of the next keeper finds what one of the last made. Each helps the nodes, so
//! that no thread but its own is needed.
ghost use Rattle.std.specs.Prelude.{◌≡◌, IfSome, None};
ghost use Rattle.assise_keeper.specs.Clients.{MayOpenClients};
ghost use Rattle.assise_keeper.specs.Passes.{IsPassOf, client, opens};

use crate::tests::begun::{calls_in, lent, revokers};
use crate::tests::runs::TURNS;
use assise_keeper::keeper::Keeper;
use assise_keeper::pass::Pass;
use assise_keeper_renewal::renewal::renewed_keeper;
use assise_lease_table::revoker::Revoker;
use assise_libfs::libfs::LibFs;
use assise_machine::cluster::Cluster;
use assise_names::call::Op;
use assise_names::durability::Durability;
use assise_names::reply::Reply;
use assise_renewal::renewal::Sizes;
use assise_workers::gate::OpenGate;
use assise_workers::serving::ClientList;
use std::alloc::Global;
use std::sync::Wait;

/// What the client of the last keeper makes and leaves, unsynced but for its first call.
const MADE: &str = "1 mkdir /d\n1 fsync\n1 create /d/f\n1 write /d/f 0 tabc\n";

/// What the client of the next one does there.
const FOUND: &str = "1 write /d/f 3 t!\n1 fsync\n1 stat /d/f\n";

const SIZES: Sizes = Sizes {
    nodes: 2,
    log: 8,
    hot: 4,
};

/// A client on node 1 makes these calls: what came of the last.
fn last_reply<'a, R: Wait>(
    rt: &R,
    alloc: Global,
    keeper: &'a Keeper<Cluster>,
    pass: Pass<Cluster>,
    revoker: Revoker,
    calls: &'a [Op],
) -> Option<Reply>
    requires pass { IsPassOf keeper.now pass × (client pass ≡ None) }
    requires right { MayOpenClients (opens pass) }
{
    let calls = lent(alloc, calls)?;
    let durability = Durability::Pessimistic;
    let libfs = LibFs::open(rt, alloc, keeper, pass, 1, revoker, durability, TURNS).ok()?;
    let list = ClientList::new(alloc, libfs, calls).ok()?;
    let mut end = list.serve(rt, alloc, SIZES.nodes, &OpenGate);
    end.replies.pop()?.ok()
}

/// A keeper of a cluster. None where memory runs out.
fn kept(alloc: Global, cluster: Cluster) -> Option<(Keeper<Cluster>, Pass<Cluster>)>
    ensures pass { IfSome result (λ both. IsPassOf both.0 both.1 × (client both.1 ≡ None)) }
    ensures right { IfSome result (λ both. MayOpenClients (opens both.1)) }
{
    match Keeper::new(alloc, cluster) {
        Ok(both) => Some(both),
        Err(_) => None,
    }
}

/// The keeper of the renewed cluster. None where it isn't renewed.
fn next_kept<R: Wait>(
    rt: &R,
    alloc: Global,
    keeper: Keeper<Cluster>,
    pass: Pass<Cluster>,
    revoker: Revoker,
) -> Option<(Keeper<Cluster>, Pass<Cluster>)>
    requires { IsPassOf keeper pass }
    ensures pass { IfSome result (λ both. IsPassOf both.0 both.1 × (client both.1 ≡ None)) }
    ensures right { IfSome result (λ both. MayOpenClients (opens both.1)) }
{
    match renewed_keeper(rt, alloc, keeper, pass, SIZES, revoker, TURNS) {
        Ok(both) => Some(both),
        Err(_) => None,
    }
}

/// What the last calls of both clients came to. None where memory runs out.
pub(crate) fn renewed_once<R: Wait>(rt: &R, alloc: Global) -> Option<(Reply, Reply)> {
    let (first, second) = (calls_in(alloc, MADE)?, calls_in(alloc, FOUND)?);
    let mut revokers = revokers(alloc, 3)?;
    let (one, two, three) = (revokers.pop()?, revokers.pop()?, revokers.pop()?);
    let cluster = Cluster::new(alloc, SIZES.nodes, 64, 64).ok()?;
    let (keeper, mut main) = kept(alloc, cluster)?;
    let opener = keeper.split_sharing(&mut main);
    let made = last_reply(rt, alloc, &keeper, opener, one, first.as_slice());
    let (keeper, main) = next_kept(rt, alloc, keeper, main, two)?;
    let found = last_reply(rt, alloc, &keeper, main, three, second.as_slice());
    keeper.close()?;
    Some((made?, found?))
}
