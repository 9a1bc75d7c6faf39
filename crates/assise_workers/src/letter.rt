//! A frame that is to be sent.
ghost use Rattle.std.specs.Prelude.{◌≤◌};

use assise_record::frame::Frame;

/// A frame with the node that it is for, and the newest version that this one reads.
#[derive(Drop)]
pub(crate) struct Letter {
    pub(crate) frame: Frame,
    pub(crate) next: u32,
    pub(crate) newest: u8,
    ghost some_version: { 1 ≤ newest },
    ghost known_version: { newest ≤ 2 },
}
