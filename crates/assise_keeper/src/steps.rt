//! The rule of a keeper, and what each step tells the thread that makes it.
ghost use Rattle.assise_keeper.specs.declared.view.Opens.TheVariants.{Never, AmongOthers};
ghost use Rattle.assise_keeper.specs.Rule.{IsKept};
ghost use Rattle.assise_keeper.specs.Views.{newcomer, spent, together, with_right, with_no_client, own_of, guest_of};
ghost use Rattle.assise_keeper.specs.Steps.{taking, releasing, setting_up};

use crate::view::View;
use assise_history::growing::Growing;
use atomic_table::{Join, Play, Split, TableRule};

pub(crate) struct OneHistory;

impl<S: Growing> TableRule<Option<Box<S>>, View<S>, ()> for OneHistory {
    ghost holds = { λ _. IsKept S.history S.leads S.works };

    ghost first = { λ _. newcomer };
}

pub(crate) struct Take;

impl<S: Growing> Play<Option<Box<S>>, View<S>> for Take {
    ghost then = { taking S.history S.leads S.works };
}

pub(crate) struct Release;

impl<S: Growing> Play<Option<Box<S>>, View<S>> for Release {
    ghost then = { releasing S.history };
}

pub(crate) struct SetUp;

impl<S: Growing> Play<Option<Box<S>>, View<S>> for SetUp {
    ghost then = { setting_up S.history };
}

// A pass is cut in two, and keeps its right.
pub(crate) struct Cut;

impl<S> Split<View<S>> for Cut {
    ghost left = { λ v. v };

    ghost right = { with_no_client Never };
}

// A pass is cut in two, and passes its right on.
pub(crate) struct PassOn;

impl<S> Split<View<S>> for PassOn {
    ghost left = { with_right Never };

    ghost right = { λ v. with_no_client v.own.opens v };
}

// A pass is cut in two, and both may open clients.
pub(crate) struct Share;

impl<S> Split<View<S>> for Share {
    ghost left = { with_right AmongOthers };

    ghost right = { with_no_client AmongOthers };
}

// One pass taking another in.
pub(crate) struct Meet;

impl<S> Join<View<S>> for Meet {
    ghost both = { together };

    ghost spent = { spent };
}

// Two passes that met part again.
pub(crate) struct Part;

impl<S> Split<View<S>> for Part {
    ghost left = { own_of };

    ghost right = { guest_of };
}
