//! A frame goes as its bytes, over a perfect link too.
ghost use Rattle.std.specs.Prelude.{◌≡◌, IfSome};
ghost use Rattle.assise_record.specs.Spelling.{spelling};

use assise_link::carrying::carry_frame;
use assise_link::link::{Link, LinkFault};
use assise_record::decode::decode;
use assise_record::frame::{Frame, MARKED_VERSION};
use std::alloc::Global;

/// A link that gives what it is handed, and notes it; where there is no memory for that it loses it.
#[derive(Drop)]
struct NotingLink {
    noted: Vec<u8>,
}

/// A copy of bytes, if there is memory.
fn copied(alloc: Global, bytes: &[u8]) -> Option<Vec<u8>>
    ensures { IfSome result (λ copy. copy.items ≡ bytes.now) }
{
    let mut copy = Vec::new(alloc);
    copy.extend_from_slice(bytes).ok()?;
    Some(copy)
}

impl Link for NotingLink {
    ghost use Rattle.std.specs.Prelude.{◌≡◌, [], List, ℕ};
    ghost use Rattle.assise_link.specs.Kinds.{perfect};
    ghost use Rattle.std.proofs.Common.{refl};
    ghost use Rattle.assise_link.specs.Links.{gave};
    ghost use Rattle.assise_link.specs.Prefixes.{whole};

    ghost stored = { λ _. [] };

    ghost count = { λ _. 0 };

    ghost carries = { λ l bytes a m. (came : List ℕ) → a ≡ gave came → (came ≡ bytes) × (m.noted.items ≡ bytes) };

    ghost kind = { λ _. perfect };

    fn carry(&mut self, alloc: Global, bytes: &[u8]) -> Result<Option<Vec<u8>>, LinkFault> {
        let (Some(came), Some(noted)) = (copied(alloc, bytes), copied(alloc, bytes)) else {
            return Ok(None);
        };
        self.noted = noted;
        Ok(Some(came))
    }

    fn faults(&self) -> u64 {
        0
    }

    ghost prefixes = { λ l m bytes came is. whole bytes came [] (is came refl).0 };

    ghost same = { λ l m _ bytes came is. (is came refl).0 };
}

/// Sends a frame over the link.
fn sent(alloc: Global, link: &mut NotingLink, frame: &Frame) -> Option<Frame>
    ensures noted { IfSome result (λ came. link.new.noted.items ≡ spelling frame.now) }
    ensures same { IfSome result (λ came. came ≡ frame.now) }
{
    carry_frame(alloc, link, MARKED_VERSION, frame)
}

/// Epoch 1, client 1, from record 0 on: call 0 wrote `hi` at the first byte of inode 7.
const FRAME: &[u8] = b"AS\x01\0\0\0\0\0\0\0\x01\0\0\0\x01\0\0\0\0\0\0\0\0\0\x01\0\0\0\x1c\
\0\0\0\0\0\0\0\0\x01\x03\0\0\0\0\0\0\0\x07\0\0\0\0\0\0\0\x02hi";

/// What comes of a frame, and what the link was handed.
fn words(alloc: Global) -> Option<String> {
    let mut link = NotingLink {
        noted: Vec::new(alloc),
    };
    let (frame, _) = decode(alloc, FRAME).ok()?;
    let came = sent(alloc, &mut link, &frame)?;
    let is_noted = link.noted.as_slice() == FRAME;
    format!(in alloc; "{came:?} {is_noted}").ok()
}

#[test]
fn a_frame_goes_as_its_bytes(rt: HostRuntime) {
    let found = words(rt.alloc());
    let wanted = "Frame { epoch: 1, client: 1, first: 0, records: [Record { call: 0, effects: [\
        Write { inode: 7, extent: Extent { offset: 0, bytes: b\"hi\" } }] }], marks: None } true";
    assert_eq!(rt; found.as_deref(), Some(wanted));
}
