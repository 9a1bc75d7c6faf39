//! A state with a history that only grows.
ghost use Rattle.std.specs.Prelude.{List};
ghost use Rattle.assise_history.specs.Entries.{EntryValue};
ghost use Rattle.assise_history.specs.Opened.{OpensOnce};

/// A state that is seen with a history, in which a client is opened at most once, and that goes on from state to state: of a cluster, by
/// events. It is worked on by what serves its clients alone: of a cluster, by their calls and by what nodes do of themselves.
pub trait Growing {
    ghost history: { Self → List EntryValue };

    ghost leads: { Self → Self → Type 0 };

    ghost works: { Self → Self → Type 0 };

    ghost opens_once: { (s : Self) → OpensOnce (history s) };

    ghost stays: { (s : Self) → leads s s };

    ghost goes_on: { (s t u : Self) → leads s t → leads t u → leads s u };

    ghost rests: { (s : Self) → works s s };

    ghost works_on: { (s t u : Self) → works s t → works t u → works s u };
}
