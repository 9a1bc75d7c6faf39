//! What no contract says: that calls of a mail store succeed.
ghost use Rattle.std.specs.Prelude.{◌≡◌, None};
ghost use Rattle.assise_keeper.specs.Clients.{MayOpenClients};
ghost use Rattle.assise_keeper.specs.Passes.{IsPassOf, client, opens};

use assise_keeper::keeper::Keeper;
use assise_keeper::pass::Pass;
use assise_lease_table::revoker::Revokes;
use assise_libfs::libfs::LibFs;
use assise_machine::cluster::ClusterOf;
use assise_mail::store;
use assise_names::byte_string::ByteString;
use assise_names::durability::Durability;
use assise_names::path::Path;
use assise_private_log::log_view::LogView;
use assise_revokers::kinds::whole;
use std::alloc::Global;
use std::sync::Wait;

/// A client that hands all of its log over where a lease is asked for.
#[derive(Clone, Copy)]
struct Whole;

impl Revokes for Whole {
    ghost use Rattle.assise_private_log.specs.Touches.{Covers};

    ghost answers = { λ _ view inode cut. Covers view inode cut };

    fn cut(&self, view: &LogView, inode: u64) -> u64 {
        whole(view, inode)
    }
}

type Cluster = ClusterOf<Whole>;

/// A message comes to a place.
fn delivers<R: Wait>(
    rt: &R,
    alloc: Global,
    files: &mut LibFs<'_, Cluster>,
    place: &Path,
) -> Option<()> {
    let message = ByteString::from_vec(vec![in alloc; b'm'].ok()?).ok()?;
    let draft = Path::parse(alloc, "/draft").ok()?;
    store::deliver(rt, alloc, files, &draft, place, message).ok()
}

/// It is listed and read, and goes.
fn reads_and_removes<R: Wait>(
    rt: &R,
    alloc: Global,
    files: &mut LibFs<'_, Cluster>,
    place: &Path,
) -> Option<()> {
    let mailbox = Path::parse(alloc, "/").ok()?;
    store::list(rt, alloc, files, &mailbox).ok()?;
    store::read(rt, alloc, files, place).ok()?;
    store::remove(rt, alloc, files, place).ok()
}

/// A client on the one node does all of that.
fn with_client<R: Wait>(
    rt: &R,
    alloc: Global,
    keeper: &Keeper<Cluster>,
    pass: Pass<Cluster>,
    place: &Path,
) -> Option<()>
    requires pass { IsPassOf keeper.now pass × (client pass ≡ None) }
    requires right { MayOpenClients (opens pass) }
{
    let durability = Durability::Pessimistic;
    let mut files = LibFs::open(rt, alloc, keeper, pass, 1, Whole, durability, 100).ok()?;
    delivers(rt, alloc, &mut files, place)?;
    reads_and_removes(rt, alloc, &mut files, place)
}

/// The same on a new cluster.
fn on_one_node<R: Wait>(rt: &R, alloc: Global, place: &Path) -> Option<()> {
    let cluster = Cluster::new(alloc, 1, 64, 16).ok()?;
    let (keeper, pass) = Keeper::new(alloc, cluster).ok()?;
    let done = with_client(rt, alloc, &keeper, pass, place);
    keeper.close()?;
    done
}

#[test]
fn messages_are_delivered_listed_read_and_removed(rt: HostRuntime) {
    let place = Path::parse(rt.alloc(), "/1").expect(&rt, "no memory");
    assert!(rt; on_one_node(&rt, rt.alloc(), &place).is_some());
}
