//! What a pass knows. No value of these types is made: they stand in contracts alone.
use assise_history::entry::Entry;
use std::collections::LinkedList;

/// Whether a pass may open clients, and do what else is no work.
pub enum Opens {
    /// It may not.
    Never,
    /// It may, and no other pass may: so it has seen all openings, and what it hasn't seen is work.
    Alone,
    /// It may, and so may others.
    AmongOthers,
}

/// What was seen of the state, the client whose calls are known, and the right to open one.
pub struct Half<S> {
    /// A prefix of the history.
    pub seen: LinkedList<Entry>,
    /// The state with this history, if one was seen.
    pub last: Option<S>,
    /// The client, if there is one.
    pub client: Option<u32>,
    /// Whether it may open clients.
    pub opens: Opens,
}

/// Whether a pass holds the state.
pub enum Stage<S> {
    /// The state isn't in the keeper yet, and this is the first pass.
    Fresh,
    /// It holds nothing.
    Idle,
    /// It holds the state, whose history was this, and which was this, when it was taken.
    Holding(LinkedList<Entry>, S),
}

/// What a pass knows: its own half, while two passes meet the other's half too, and whether it holds the state.
pub struct View<S> {
    /// What the pass itself has seen, its client and its right.
    pub own: Half<S>,
    /// The same of the pass that it meets.
    pub guest: Half<S>,
    /// Whether it holds the state.
    pub stage: Stage<S>,
}
