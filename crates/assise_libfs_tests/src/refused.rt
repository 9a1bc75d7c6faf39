//! A keeper, a client and its calls, where each allocation of a run is refused in turn: what is refused gives back what it was given,
//! changes nothing, and is done when it is made again.
ghost use Rattle.std.specs.Prelude.{◌≡◌, IfSome, None};
ghost use Rattle.assise_keeper.specs.Clients.{MayOpenClients};
ghost use Rattle.assise_keeper.specs.Passes.{IsPassOf, client, opens};

use crate::calls::{TURNS, call_in, make, told};
use assise_keeper::keeper::Keeper;
use assise_keeper::pass::Pass;
use assise_lease_table::revoker::Revokes;
use assise_libfs::libfs::LibFs;
use assise_machine::cluster::ClusterOf;
use assise_names::durability::Durability;
use assise_names::refusal::Refusal;
use assise_private_log::log_view::LogView;
use assise_revokers::kinds::whole;
use std::alloc::Global;
use std::sync::Wait;

/// A client that hands all of its log over where a lease is asked for.
#[derive(Clone, Copy)]
struct Whole;

impl Revokes for Whole {
    ghost use Rattle.assise_private_log.specs.Touches.{Covers};

    ghost answers = { λ _ view inode cut. Covers view inode cut };

    fn cut(&self, view: &LogView, inode: u64) -> u64 {
        whole(view, inode)
    }
}

/// A cluster of such clients.
type Cluster = ClusterOf<Whole>;

/// Calls on one node, and what each comes to.
const LINES: &str = "\
create /f = done
write /f 5 tabc = done
read /f 0 10 = bytes 8 x0000000000616263
truncate /f 6 = done
stat /f = file 6
mkdir /d = done
rename /f /d/g = done
list /d = names 1 g
fsync = done
dsync = done
unlink /d/g = done
rmdir /d = done
list / = names 0
";

/// A keeper of a cluster, which comes back where memory is refused, and is kept then.
fn kept(alloc: Global, cluster: Cluster) -> Option<(Keeper<Cluster>, Pass<Cluster>)>
    ensures pass { IfSome result (λ both. IsPassOf both.0 both.1 × (client both.1 ≡ None)) }
    ensures right { IfSome result (λ both. MayOpenClients (opens both.1)) }
{
    match Keeper::new(alloc, cluster) {
        Ok(both) => Some(both),
        Err((_, cluster)) => Keeper::new(alloc, cluster).ok(),
    }
}

/// A client on node 1: where memory is refused for it, its pass and revoker come back, and open it then.
fn opened<'a, R: Wait>(
    rt: &R,
    alloc: Global,
    keeper: &'a Keeper<Cluster>,
    pass: Pass<Cluster>,
) -> Option<LibFs<'a, Cluster>>
    requires pass { IsPassOf keeper.now pass × (client pass ≡ None) }
    requires right { MayOpenClients (opens pass) }
{
    let durability = Durability::Pessimistic;
    match LibFs::open(rt, alloc, keeper, pass, 1, Whole, durability, TURNS) {
        Ok(libfs) => Some(libfs),
        Err((_, pass, whole)) => {
            LibFs::open(rt, alloc, keeper, pass, 1, whole, durability, TURNS).ok()
        }
    }
}

/// Makes the call of a line `CALL = OUTCOME`, once more where it is refused as out of memory. Whether it came to that.
fn is_answered<R: Wait>(
    rt: &R,
    alloc: Global,
    libfs: &mut LibFs<'_, Cluster>,
    line: &str,
) -> Option<bool> {
    let (call, wanted) = line.split_once(" = ")?;
    let op = call_in(alloc, call)?;
    let mut outcome = make(rt, alloc, libfs, &op);
    if outcome == Err(Refusal::OutOfMemory) {
        outcome = make(rt, alloc, libfs, &op);
    }
    Some(told(alloc, &outcome)?.as_str() == wanted)
}

/// Whether each call comes to what its line says, once it isn't refused as out of memory.
fn are_answered<R: Wait>(
    rt: &R,
    alloc: Global,
    keeper: &Keeper<Cluster>,
    pass: Pass<Cluster>,
) -> Option<bool>
    requires pass { IsPassOf keeper.now pass × (client pass ≡ None) }
    requires right { MayOpenClients (opens pass) }
{
    let mut libfs = opened(rt, alloc, keeper, pass)?;
    for line in LINES.lines() {
        if !is_answered(rt, alloc, &mut libfs, line)? {
            return Some(false);
        }
    }
    Some(true)
}

/// Whether all is answered, each call once. None where memory runs out for the test itself.
fn calls<R: Wait>(rt: &R, alloc: Global) -> Option<bool> {
    let cluster = Cluster::new(alloc, 1, 8, 4).ok()?;
    let (keeper, pass) = kept(alloc, cluster)?;
    let answered = are_answered(rt, alloc, &keeper, pass);
    let cluster = keeper.close()?;
    let entries = cluster.history().entries().len();
    Some(answered? && entries == LINES.lines().count().saturating_add(1))
}

#[test]
fn what_is_refused_is_made_again(rt: HostRuntime) {
    if let Some(right) = calls(&rt, rt.alloc()) {
        assert!(rt; right);
    }
}
