//! Levels of nodes.
ghost use Rattle.std.specs.Prelude.{◌≡◌, ◌≤◌, ℕ, length, Some};
ghost use Rattle.assise_manager.specs.NodeLevels.{greater, joined_levels, level_of, with_level};

/// Up to which version a node reads frames. It sends that version.
#[derive(Clone, Copy, PartialEq, Eq, Debug)]
pub enum Level {
    /// Version 1, without marks.
    Plain,
    /// Versions 1 and 2.
    Marked,
}

impl Level {
    ghost use Rattle.std.specs.Prelude.{◌≡◌, ◌≤◌};
    ghost use Rattle.assise_manager.specs.NodeLevels.{newest, sends_marks};

    /// The newest version of frames that such a node reads: 1 or 2.
    pub fn newest(self) -> u8
        ensures newest { result ≡ newest self }
        ensures some_version { 1 ≤ result }
        ensures known_version { result ≤ 2 }
    {
        match self {
            Level::Plain => 1,
            Level::Marked => 2,
        }
    }

    /// Whether such a node sends marks.
    pub fn sends_marks(self) -> bool
        ensures { result ≡ sends_marks self }
    {
        match self {
            Level::Plain => false,
            Level::Marked => true,
        }
    }
}

/// The level of a node, which is the first where it has none.
pub(crate) fn level_at(levels: &[Level], node: u32) -> Level
    ensures { result ≡ level_of levels.now node }
{
    match (node as usize).checked_sub(1) {
        Some(place) => levels.get(place).copied().unwrap_or(Level::Plain),
        None => Level::Plain,
    }
}

/// A node has another level.
pub(crate) fn put_level(levels: &mut [Level], node: u32, now: Level)
    requires there { 1 ≤ node }
    ensures len { length levels.new ≡ length levels.old }
    ensures levels { levels.new ≡ with_level levels.old node now }
{
    let place = node as usize - 1;
    if place < levels.len() {
        levels[place] = now;
    }
}

/// A node that was filled from another has the greater of both levels.
pub(crate) fn join_levels(levels: &mut [Level], node: u32, donor: u32)
    requires there { 1 ≤ node }
    ensures len { length levels.new ≡ length levels.old }
    ensures levels { levels.new ≡ joined_levels levels.old node (Some donor) }
{
    let level = match level_at(levels, node) {
        Level::Plain => level_at(levels, donor),
        Level::Marked => Level::Marked,
    };
    put_level(levels, node, level);
}
