//! The way of a frame over a link.
ghost use Rattle.std.specs.Prelude.{◌≡◌, ◌⊎◌, ◌≤◌, IfNone, IfSome};
ghost use Rattle.assise_link.specs.Kinds.{perfect};
ghost use Rattle.assise_link.specs.Links.{ComesOver, LinkAnswer};
ghost use Rattle.assise_record.specs.Spelling.{spelling};

use crate::link::Link;
use assise_record::decode::decode_owned;
use assise_record::encode::encode;
use assise_record::frame::Frame;
use std::alloc::Global;

/// Sends a frame over a link as its bytes, and answers the frame that comes at the other end, where versions up to the newest are read,
/// which is 1 or 2. The payloads of what comes are shares of the bytes that the link gave. `None` where it is lost or late, where the
/// link has a fault, where what comes begins with no such frame, or where memory is refused.
pub fn carry_frame<L: Link>(alloc: Global, link: &mut L, newest: u8, frame: &Frame) -> Option<Frame>
    requires some_version { 1 ≤ newest }
    requires known_version { newest ≤ 2 }
    ensures came { IfSome result (λ came. ComesOver newest
        (λ bytes a. L.carries link.old bytes a link.new) frame.now came) }
    ensures same { L.kind link.old ≡ perfect → IfSome result (λ came. came ≡ frame.now) }
    ensures nothing { IfNone result ((link.new ≡ link.old) ⊎
        ((a : LinkAnswer) × L.carries link.old (spelling frame.now) a link.new)) }
    ensures stays { L.kind link.new ≡ L.kind link.old }
{
    let mut bytes = Vec::new(alloc);
    let Ok(()) = encode(frame, &mut bytes) else {
        return None;
    };
    let Ok(Some(came)) = link.carry(alloc, bytes.as_slice()) else {
        return None;
    };
    match decode_owned(alloc, came, newest) {
        Ok((frame, _)) => Some(frame),
        Err(_) => None,
    }
}
