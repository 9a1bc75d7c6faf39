//! Links that lose, repeat, delay and cut what they carry.
ghost use Rattle.std.specs.Prelude.{◌≡◌, None};

use crate::faults::Faults;
use crate::link::{Link, LinkFault, copied};
use std::alloc::Global;
use std::mem;

/// A link that answers nothing.
#[derive(Drop)]
pub struct LosingLink;

impl Link for LosingLink {
    ghost use Rattle.std.specs.Prelude.{[], None};
    ghost use Rattle.assise_link.specs.Kinds.{Carries, lose};
    ghost use Rattle.assise_link.specs.Prefixes.{not_lose, prefix_by};

    ghost stored = { λ _. [] };

    ghost count = { λ _. 0 };

    ghost carries = { λ l bytes a m. Carries lose bytes (record { kept = None; faults = 0 }) a (record { kept = None; faults = 0 }) };

    ghost kind = { λ _. lose };

    fn carry(&mut self, _alloc: Global, _bytes: &[u8]) -> Result<Option<Vec<u8>>, LinkFault> {
        Ok(None)
    }

    fn faults(&self) -> u64 {
        0
    }

    ghost prefixes = { λ l m bytes came is. prefix_by lose bytes came _ _ is };

    ghost same = { λ _ _ is. absurd (not_lose is) };
}

/// A link that answers what it is handed at odd carries, counted from 1, and at even ones what the carry before was handed.
#[derive(Drop)]
pub struct RepeatingLink {
    before: Option<Vec<u8>>,
    faults: Faults,
}

impl RepeatingLink {
    /// A link that carried nothing.
    pub fn new() -> RepeatingLink
        ensures before { result.before ≡ None }
        ensures no_faults { result.faults.count ≡ 0 }
    {
        RepeatingLink {
            before: None,
            faults: Faults::none(),
        }
    }
}

impl Link for RepeatingLink {
    ghost use Rattle.assise_link.specs.Kinds.{Carries, repeat};
    ghost use Rattle.assise_link.specs.TestLinks.{kept_items, kept_lists};
    ghost use Rattle.assise_link.specs.Prefixes.{not_repeat, prefix_by};

    ghost stored = { λ l. kept_lists (kept_items l.before) };

    ghost count = { λ l. l.faults.count };

    ghost carries = { λ l bytes a m. Carries repeat bytes (record { kept = kept_items l.before; faults = l.faults.count }) a (record { kept = kept_items m.before; faults = m.faults.count }) };

    ghost kind = { λ _. repeat };

    fn carry(&mut self, alloc: Global, bytes: &[u8]) -> Result<Option<Vec<u8>>, LinkFault> {
        if let Some(before) = self.before.take() {
            return Ok(Some(before));
        }
        let (Some(came), Some(kept)) = (copied(alloc, bytes), copied(alloc, bytes)) else {
            return self.faults.add(LinkFault::Memory);
        };
        self.before = Some(kept);
        Ok(Some(came))
    }

    fn faults(&self) -> u64 {
        self.faults.count
    }

    ghost prefixes = { λ l m bytes came is. prefix_by repeat bytes came _ _ is };

    ghost same = { λ _ _ is. absurd (not_repeat is) };
}

/// A link that answers what the carry before was handed, and nothing the first time.
#[derive(Drop)]
pub struct DelayingLink {
    before: Option<Vec<u8>>,
    faults: Faults,
}

impl DelayingLink {
    /// A link that carried nothing.
    pub fn new() -> DelayingLink
        ensures before { result.before ≡ None }
        ensures no_faults { result.faults.count ≡ 0 }
    {
        DelayingLink {
            before: None,
            faults: Faults::none(),
        }
    }
}

impl Link for DelayingLink {
    ghost use Rattle.assise_link.specs.Kinds.{Carries, delay};
    ghost use Rattle.assise_link.specs.TestLinks.{kept_items, kept_lists};
    ghost use Rattle.assise_link.specs.Prefixes.{not_delay, prefix_by};

    ghost stored = { λ l. kept_lists (kept_items l.before) };

    ghost count = { λ l. l.faults.count };

    ghost carries = { λ l bytes a m. Carries delay bytes (record { kept = kept_items l.before; faults = l.faults.count }) a (record { kept = kept_items m.before; faults = m.faults.count }) };

    ghost kind = { λ _. delay };

    fn carry(&mut self, alloc: Global, bytes: &[u8]) -> Result<Option<Vec<u8>>, LinkFault> {
        let Some(kept) = copied(alloc, bytes) else {
            return self.faults.add(LinkFault::Memory);
        };
        Ok(mem::replace(&mut self.before, Some(kept)))
    }

    fn faults(&self) -> u64 {
        self.faults.count
    }

    ghost prefixes = { λ l m bytes came is. prefix_by delay bytes came _ _ is };

    ghost same = { λ _ _ is. absurd (not_delay is) };
}

/// A link that answers the first bytes of what it is handed, at most a number of its own.
#[derive(Drop)]
pub struct CuttingLink {
    most: usize,
    faults: Faults,
}

impl CuttingLink {
    /// A link that lets `most` bytes through.
    pub fn new(most: usize) -> CuttingLink
        ensures most { result.most ≡ most }
        ensures no_faults { result.faults.count ≡ 0 }
    {
        CuttingLink {
            most,
            faults: Faults::none(),
        }
    }
}

impl Link for CuttingLink {
    ghost use Rattle.std.specs.Prelude.{◌≡◌, [], None};
    ghost use Rattle.assise_link.specs.Kinds.{Carries, cut};
    ghost use Rattle.assise_link.specs.Prefixes.{not_cut, prefix_by};

    ghost stored = { λ _. [] };

    ghost count = { λ l. l.faults.count };

    ghost carries = { λ l bytes a m. (m.most ≡ l.most) × Carries (cut l.most) bytes (record { kept = None; faults = l.faults.count }) a (record { kept = None; faults = m.faults.count }) };

    ghost kind = { λ l. cut l.most };

    fn carry(&mut self, alloc: Global, bytes: &[u8]) -> Result<Option<Vec<u8>>, LinkFault> {
        let (prefix, _) = bytes.split_at(self.most.min(bytes.len()));
        match copied(alloc, prefix) {
            Some(came) => Ok(Some(came)),
            None => self.faults.add(LinkFault::Memory),
        }
    }

    fn faults(&self) -> u64 {
        self.faults.count
    }

    ghost prefixes = { λ l m bytes came is. prefix_by (cut l.most) bytes came _ _ is.1 };

    ghost same = { λ l _ is. absurd (not_cut l.most is) };
}

/// A link that has a fault at each carry.
#[derive(Drop)]
pub struct FaultyLink {
    faults: Faults,
}

impl FaultyLink {
    /// A link that carried nothing.
    pub fn new() -> FaultyLink
        ensures { result.faults.count ≡ 0 }
    {
        FaultyLink {
            faults: Faults::none(),
        }
    }
}

impl Link for FaultyLink {
    ghost use Rattle.std.specs.Prelude.{[], None};
    ghost use Rattle.assise_link.specs.Kinds.{Carries, fault};
    ghost use Rattle.assise_link.specs.Prefixes.{not_fault, prefix_by};

    ghost stored = { λ _. [] };

    ghost count = { λ l. l.faults.count };

    ghost carries = { λ l bytes a m. Carries fault bytes (record { kept = None; faults = l.faults.count }) a (record { kept = None; faults = m.faults.count }) };

    ghost kind = { λ _. fault };

    fn carry(&mut self, _alloc: Global, _bytes: &[u8]) -> Result<Option<Vec<u8>>, LinkFault> {
        self.faults.add(LinkFault::Device)
    }

    fn faults(&self) -> u64 {
        self.faults.count
    }

    ghost prefixes = { λ l m bytes came is. prefix_by fault bytes came _ _ is };

    ghost same = { λ _ _ is. absurd (not_fault is) };
}
