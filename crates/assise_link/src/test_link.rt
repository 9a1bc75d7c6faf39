//! A link of any kind.

use crate::hostile::{CuttingLink, DelayingLink, FaultyLink, LosingLink, RepeatingLink};
use crate::link::{Link, LinkFault, PerfectLink};
use std::alloc::Global;

/// A link that does one of what links may do: what a script, or a test, sets between two nodes.
pub enum TestLink {
    /// It answers what it is handed.
    Perfect(PerfectLink),
    /// It answers nothing.
    Lose(LosingLink),
    /// At odd carries, counted from 1, it answers what it is handed, at even ones what the carry before was handed.
    Repeat(RepeatingLink),
    /// It answers what the carry before was handed, and nothing the first time.
    Delay(DelayingLink),
    /// It answers the first bytes of what it is handed.
    Cut(CuttingLink),
    /// It has a fault at each carry.
    Fault(FaultyLink),
}

// One call lets go of it, wherever it is owned.
impl Drop for TestLink {
    fn drop(self) {
        match self {
            TestLink::Perfect(_)
            | TestLink::Lose(_)
            | TestLink::Repeat(_)
            | TestLink::Delay(_)
            | TestLink::Cut(_)
            | TestLink::Fault(_) => (),
        }
    }
}

impl TestLink {
    ghost use Rattle.assise_link.specs.Kinds.{cut, delay, fault, lose, perfect, repeat};
    ghost use Rattle.assise_link.specs.TestLinks.{IsUnusedLink};

    /// A link that answers what it is handed.
    pub fn perfect() -> TestLink
        ensures { IsUnusedLink perfect result }
    {
        TestLink::Perfect(PerfectLink::new())
    }

    /// A link that answers nothing.
    pub fn lose() -> TestLink
        ensures { IsUnusedLink lose result }
    {
        TestLink::Lose(LosingLink)
    }

    /// A link that answers, at even carries, what the carry before was handed.
    pub fn repeat() -> TestLink
        ensures { IsUnusedLink repeat result }
    {
        TestLink::Repeat(RepeatingLink::new())
    }

    /// A link that answers what the carry before was handed.
    pub fn delay() -> TestLink
        ensures { IsUnusedLink delay result }
    {
        TestLink::Delay(DelayingLink::new())
    }

    /// A link that lets `most` bytes through.
    pub fn cut(most: usize) -> TestLink
        ensures { IsUnusedLink (cut most) result }
    {
        TestLink::Cut(CuttingLink::new(most))
    }

    /// A link that has a fault at each carry.
    pub fn fault() -> TestLink
        ensures { IsUnusedLink fault result }
    {
        TestLink::Fault(FaultyLink::new())
    }
}

impl Link for TestLink {
    ghost use Rattle.std.specs.Prelude.{◌≡◌};
    ghost use Rattle.assise_link.specs.Kinds.{Carries};
    ghost use Rattle.assise_link.specs.TestLinks.{fault_count, kept_by, kept_lists, kind_of_link, state_of};
    ghost use Rattle.assise_link.specs.Prefixes.{prefix_by_kind, same_by_kind};

    ghost stored = { λ l. kept_lists (kept_by l) };

    ghost count = { fault_count };

    ghost carries = { λ l bytes a m. (kind_of_link m ≡ kind_of_link l) × Carries (kind_of_link l) bytes (state_of l) a (state_of m) };

    ghost kind = { kind_of_link };

    fn carry(&mut self, alloc: Global, bytes: &[u8]) -> Result<Option<Vec<u8>>, LinkFault> {
        match self {
            TestLink::Perfect(link) => link.carry(alloc, bytes),
            TestLink::Lose(link) => link.carry(alloc, bytes),
            TestLink::Repeat(link) => link.carry(alloc, bytes),
            TestLink::Delay(link) => link.carry(alloc, bytes),
            TestLink::Cut(link) => link.carry(alloc, bytes),
            TestLink::Fault(link) => link.carry(alloc, bytes),
        }
    }

    fn faults(&self) -> u64 {
        match self {
            TestLink::Perfect(link) => link.faults(),
            TestLink::Lose(link) => link.faults(),
            TestLink::Repeat(link) => link.faults(),
            TestLink::Delay(link) => link.faults(),
            TestLink::Cut(link) => link.faults(),
            TestLink::Fault(link) => link.faults(),
        }
    }

    ghost prefixes = { λ l m bytes came is. prefix_by_kind l bytes came _ is.1 };

    ghost same = { λ l m perfect bytes came is. same_by_kind l perfect bytes came _ is.1 };
}
