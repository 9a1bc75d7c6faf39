//! Faults that a link counts.
ghost use Rattle.std.specs.Prelude.{◌≡◌, ◌+◌, None, OnErr, OnOk};
ghost use Rattle.assise_link.specs.Kinds.{IsFault};
ghost use Rattle.assise_link.specs.Links.{link_answer};

use crate::link::LinkFault;

/// How many faults a link has had, up to 2^64 - 1.
#[derive(Drop)]
pub(crate) struct Faults {
    pub(crate) count: u64,
}

impl Faults {
    /// None.
    pub(crate) fn none() -> Faults
        ensures { result.count ≡ 0 }
    {
        Faults { count: 0 }
    }

    /// What a carry answers that has a fault: it is counted. Where no more can be counted, what was handed in is lost.
    pub(crate) fn add(&mut self, fault: LinkFault) -> Result<Option<Vec<u8>>, LinkFault>
        ensures answer { IsFault fault (record { kept = None; faults = self.old.count })
            (link_answer result) (record { kept = None; faults = self.new.count }) }
        ensures fault { OnErr result (self.new.count ≡ self.old.count + 1) }
        ensures no_fault { OnOk result (self.new.count ≡ self.old.count) }
    {
        if self.count == u64::MAX {
            return Ok(None);
        }
        self.count += 1;
        Err(fault)
    }
}
