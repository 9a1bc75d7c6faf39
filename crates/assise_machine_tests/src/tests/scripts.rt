//! Scripts that are served step by step.
use crate::tests::desk::Desk;
use std::alloc::Global;

/// More rounds than any call of the tests waits for.
const ROUNDS: u32 = 8;

/// More inodes than any node lacks.
const MANY: u32 = 1000;

/// What a call comes to that waits.
pub(crate) const WAITS: &str = "Called(Ok(NotYet))";

impl Desk {
    /// Serves a script: a call that waits is tried again behind a round, and a node that comes back is full at once. None where there is
    /// no such line, or no memory.
    pub(crate) fn serve(&mut self, alloc: Global, script: &str) -> Option<()> {
        for line in script.lines() {
            match line.strip_prefix("back ") {
                Some(node) => self.bring_back(alloc, node.parse::<u32>().ok()?)?,
                None => self.try_often(alloc, line)?,
            }
        }
        Some(())
    }

    /// Makes a step until it doesn't wait, with a round in between.
    fn try_often(&mut self, alloc: Global, line: &str) -> Option<()> {
        self.make(alloc, line)?;
        for _ in 0..ROUNDS {
            if self.outcome.as_str() != WAITS {
                return Some(());
            }
            self.make_round(alloc)?;
            self.make(alloc, line)?;
        }
        Some(())
    }

    /// In a round what the nodes send comes where it is for, all digest, and leases are released.
    pub(crate) fn make_round(&mut self, alloc: Global) -> Option<()> {
        for node in 1..=self.nodes {
            self.make_of(alloc, "carry", node)?;
        }
        for node in 1..=self.nodes {
            self.make_of(alloc, "digest", node)?;
        }
        self.make(alloc, "release")
    }

    /// A node that is down, or on its way back, gets all inodes that it lacks, and is full then.
    pub(crate) fn bring_back(&mut self, alloc: Global, node: u32) -> Option<()> {
        self.make_of(alloc, "back", node)?;
        for _ in 0..MANY {
            self.make_of(alloc, "refill", node)?;
            if matches!(
                self.outcome.as_str(),
                "Left(Ok(0))" | "Left(Err(WrongPhase))"
            ) {
                return self.make_of(alloc, "join", node);
            }
        }
        None
    }
}
