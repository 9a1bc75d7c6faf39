//! A state that is out of its keeper.
use std::marker::Model;

/// The state while a pass holds it. It is no value that may be let go: it must be given back. A contract sees it as
/// the state.
pub struct Held<S> {
    state: Box<S>,
}

impl<S> Model for Held<S> {
    ghost Value = { S };

    ghost coded = { S.code };

    ghost view = { λ h. h.state.value };
}

impl<S> Held<S> {
    ghost use Rattle.std.specs.Prelude.{◌≡◌};
    ghost use Rattle.std.specs.Borrow.{sem};
    ghost use Rattle.assise_keeper.specs.Lending.{LendsState};

    pub(crate) fn of(state: Box<S>) -> Held<S>
        ensures { result ≡ state.value }
    {
        Held { state }
    }

    pub(crate) fn into_box(self) -> Box<S>
        ensures { result.value ≡ self }
    {
        let Held { state } = self;
        state
    }

    /// Lends the state, to be read and changed.
    pub fn state(&mut self) -> &mut S
        ensures* writes_back { sem 𝓛 (LendsState S.row self.entry result) }
        ensures value { result.now ≡ self.old }
    {
        &mut *self.state
    }
}
