//! What carries bytes from node to node.
ghost use Rattle.std.specs.Prelude.{◌≡◌, ◌+◌, ◌⊎◌, ℕ, Contains, IfSome, List, OnErr, OnOk};
ghost use Rattle.assise_link.specs.Kinds.{Kind, perfect};
ghost use Rattle.assise_link.specs.Links.{IsFaithful, IsPrefixOnLink, LinkAnswer, gave, link_answer};

use crate::faults::Faults;
use std::alloc::Global;

/// Why a link carried nothing.
#[derive(Clone, Copy, PartialEq, Eq, Debug)]
pub enum LinkFault {
    /// A growth was refused.
    Memory,
    /// The device failed.
    Device,
}

/// A copy of bytes, if there is memory.
pub(crate) fn copied(alloc: Global, bytes: &[u8]) -> Option<Vec<u8>>
    ensures { IfSome result (λ copy. copy.items ≡ bytes.now) }
{
    let mut copy = Vec::new(alloc);
    copy.extend_from_slice(bytes).ok()?;
    Some(copy)
}

/// What carries bytes from one node to another. What comes at the other end is a prefix of the bytes that it is handed, or of bytes that
/// it was handed before and stores; it may lose bytes, or keep them for later.
pub trait Link: Send {
    /// The byte lists that it stores.
    ghost stored: { Self → List (List ℕ) };

    /// How many faults it has had.
    ghost count: { Self → ℕ };

    /// What a carry does: a link, the bytes that it is handed, what is answered, and the link as it is then.
    ghost carries: { Self → List ℕ → LinkAnswer → Self → Type 0 };

    /// Its kind. No carry changes that.
    ghost kind: { Self → Kind };

    /// Carries bytes, and answers what comes at the other end; `None` is a loss or a delay.
    ///
    /// Refused with [`LinkFault::Memory`] or [`LinkFault::Device`], and the count of faults has risen by one. A link that has had
    /// 2^64 - 1 faults answers `None` instead.
    fn carry(&mut self, alloc: Global, bytes: &[u8]) -> Result<Option<Vec<u8>>, LinkFault>
        ensures carries { carries self.old bytes.now (link_answer result) self.new }
        ensures stores { (x : List ℕ) → Contains (stored self.new) x
            → (x ≡ bytes.now) ⊎ Contains (stored self.old) x }
        ensures stays { kind self.new ≡ kind self.old }
        ensures fault { OnErr result (count self.new ≡ count self.old + 1) }
        ensures no_fault { OnOk result (count self.new ≡ count self.old) };

    /// How many faults it has had.
    fn faults(&self) -> u64
        ensures { result ≡ count self.now };

    ghost prefixes: { (l m : Self) (bytes came : List ℕ) → carries l bytes (gave came) m
        → IsPrefixOnLink bytes (stored l) came };

    ghost same: { (l m : Self) → kind l ≡ perfect → IsFaithful (λ bytes a. carries l bytes a m) };
}

/// A link that answers what it is handed, and stores nothing.
#[derive(Drop)]
pub struct PerfectLink {
    faults: Faults,
}

impl PerfectLink {
    /// A link that had no faults.
    pub fn new() -> PerfectLink
        ensures { result.faults.count ≡ 0 }
    {
        PerfectLink {
            faults: Faults::none(),
        }
    }
}

impl Link for PerfectLink {
    ghost use Rattle.std.specs.Prelude.{[], None};
    ghost use Rattle.assise_link.specs.Kinds.{Carries, perfect};
    ghost use Rattle.assise_link.specs.Prefixes.{prefix_by, same_by_perfect};

    ghost stored = { λ _. [] };

    ghost count = { λ l. l.faults.count };

    ghost carries = { λ l bytes a m. Carries perfect bytes (record { kept = None; faults = l.faults.count }) a (record { kept = None; faults = m.faults.count }) };

    ghost kind = { λ _. perfect };

    fn carry(&mut self, alloc: Global, bytes: &[u8]) -> Result<Option<Vec<u8>>, LinkFault> {
        match copied(alloc, bytes) {
            Some(came) => Ok(Some(came)),
            None => self.faults.add(LinkFault::Memory),
        }
    }

    fn faults(&self) -> u64 {
        self.faults.count
    }

    ghost prefixes = { λ l m bytes came is. prefix_by perfect bytes came _ _ is };

    ghost same = { λ l m _ bytes came is. same_by_perfect bytes came _ _ is };
}
