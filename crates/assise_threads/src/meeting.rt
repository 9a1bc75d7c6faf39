//! Clients meet with a pass of nobody.
ghost use Rattle.std.specs.Prelude.{◌≡◌, [], None, is_some, true};
ghost use Rattle.assise_keeper.specs.declared.view.Opens.TheVariants.{Alone};
ghost use Rattle.assise_keeper.specs.Passes.{IsPassOf, client as client_of_pass, last, opens, seen};
ghost use Rattle.assise_threads.specs.AtKeeper.{AreAt};
ghost use Rattle.assise_threads.specs.Hearing.{sights};
ghost use Rattle.assise_threads.specs.LastSeen.{machine_seen};
ghost use Rattle.assise_threads.specs.OneHistory.{AreMet};

use assise_keeper::keeper::Keeper;
use assise_keeper::pass::Pass;
use assise_lease_table::revoker::Revokes;
use assise_libfs::libfs::LibFs;
use assise_machine::cluster::ClusterOf;
use std::sync::Wait;
use std::vec::IntoIter;

/// Clients meet with a pass of nobody that alone may open clients, each twice: what the pass has seen between the last first meeting and
/// the first second one is one history that has the calls of all, and no opening that the pass hadn't seen before.
pub(crate) fn meet_all<'a, C: Revokes + Drop, R: Wait>(
    rt: &R,
    keeper: &'a Keeper<ClusterOf<C>>,
    pass: Pass<ClusterOf<C>>,
    mut clients: IntoIter<LibFs<'a, ClusterOf<C>>>,
) -> Pass<ClusterOf<C>>
    requires pass { IsPassOf keeper.now pass }
    requires nobody { client_of_pass pass ≡ None }
    requires alone { opens pass ≡ Alone }
    requires known { (is_some (last pass) ≡ true) ×
        (seen pass ≡ (machine_seen (last pass)).history) }
    requires at { AreAt keeper.now clients.rest.items }
    ensures pass { IsPassOf keeper.now result }
    ensures nobody { client_of_pass result ≡ None }
    ensures alone { opens result ≡ Alone }
    ensures met { AreMet (machine_seen (last pass)) (sights clients.entry.rest.items)
        (seen result) }
{
    let Some(client) = clients.next() else {
        return look(rt, keeper, pass);
    };
    let (pass, its) = keeper.meet(rt, pass, client.into_pass());
    let pass = meet_all(rt, keeper, pass, clients);
    let (pass, _) = keeper.meet(rt, pass, its);
    pass
}

/// What a pass of nobody sees.
fn look<C: Revokes + Drop, R: Wait>(
    rt: &R,
    keeper: &Keeper<ClusterOf<C>>,
    pass: Pass<ClusterOf<C>>,
) -> Pass<ClusterOf<C>>
    requires pass { IsPassOf keeper.now pass }
    requires nobody { client_of_pass pass ≡ None }
    requires alone { opens pass ≡ Alone }
    requires known { (is_some (last pass) ≡ true) ×
        (seen pass ≡ (machine_seen (last pass)).history) }
    ensures pass { IsPassOf keeper.now result }
    ensures nobody { client_of_pass result ≡ None }
    ensures alone { opens result ≡ Alone }
    ensures met { AreMet (machine_seen (last pass)) [] (seen result) }
{
    let mut pass = pass;
    let held = keeper.take(rt, &mut pass);
    keeper.give(&mut pass, held);
    pass
}
