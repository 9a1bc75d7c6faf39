//! Frames byte by byte.
use assise_record::decode::{decode, decode_owned, decode_up_to};
use assise_record::encode::encode;
use assise_record::fault::FrameFault;
use assise_record::frame::{Frame, MARKED_VERSION};
use std::alloc::Global;

/// What bytes are read as: the frame, how many bytes it has, and the capacity of a vector of none and of one with room enough once
/// they stand in it.
const FRAMES: &[(&[u8], &str)] = &[
    // Epoch 1, client 1, from record 0 on: call 0 made the file `f` of the root, inode 2^32. Another byte stands behind.
    (
        b"AS\x01\0\0\0\0\0\0\0\x01\0\0\0\x01\0\0\0\0\0\0\0\0\0\x01\0\0\0\x25\
        \0\0\0\0\0\0\0\0\x02\x01\0\0\0\x01\0\0\0\0\x05\0\0\0\0\0\0\0\0\x01f\0\0\0\x01\0\0\0\0A",
        "Frame { epoch: 1, client: 1, first: 0, records: [Record { call: 0, effects: [\
        NewFile { inode: 4294967296 }, \
        Link { directory: 0, name: Name { text: \"f\" }, inode: 4294967296 }] }], \
        marks: None } in 66, room 66 66",
    ),
    // The last epoch and the last client, from record 7 on: call 3 with four effects, and call 4 with the other three.
    (
        b"AS\x01\xff\xff\xff\xff\xff\xff\xff\xff\xff\xff\xff\xff\0\0\0\0\0\0\0\x07\0\x02\0\0\0\x6b\
        \0\0\0\0\0\0\0\x03\x04\
        \x03\0\0\0\0\0\0\0\x01\0\0\0\x05\0\0\0\x02hi\
        \x04\0\0\0\0\0\0\0\x01\0\x10\0\0\
        \x06\0\0\0\0\0\0\0\0\x01a\
        \x02\0\0\0\0\0\0\0\x02\
        \0\0\0\0\0\0\0\x04\x03\
        \x05\0\0\0\0\0\0\0\x08\x01a\0\0\0\0\0\0\0\x09\
        \x01\0\0\0\0\0\0\0\x06\
        \x07\0\0\0\0\0\0\0\x07",
        "Frame { epoch: 18446744073709551615, client: 4294967295, first: 7, records: [\
        Record { call: 3, effects: [\
        Write { inode: 1, extent: Extent { offset: 5, bytes: b\"hi\" } }, \
        SetLen { inode: 1, size: FileSize { length: 1048576 } }, \
        Unlink { directory: 0, name: Name { text: \"a\" } }, \
        NewDir { inode: 2 }] }, \
        Record { call: 4, effects: [\
        Link { directory: 8, name: Name { text: \"a\" }, inode: 9 }, \
        NewFile { inode: 6 }, \
        Free { inode: 7 }] }], marks: None } in 136, room 136 136",
    ),
    // Two records of version 2, calls 3 and 4, of which the second ends its group, make files 7 and 8.
    (
        b"AS\x02\0\0\0\0\0\0\0\x01\0\0\0\x01\0\0\0\0\0\0\0\0\0\x02\0\0\0\x26\
        \0\0\0\0\0\0\0\x03\0\x01\x01\0\0\0\0\0\0\0\x07\
        \0\0\0\0\0\0\0\x04\x01\x01\x01\0\0\0\0\0\0\0\x08",
        "Frame { epoch: 1, client: 1, first: 0, records: [\
        Record { call: 3, effects: [NewFile { inode: 7 }] }, \
        Record { call: 4, effects: [NewFile { inode: 8 }] }], \
        marks: Some([false, true]) } in 67, room 67 67",
    ),
    (b"AS", "short frame"),
    (b"AT\x01", "bad magic"),
    (b"AS\x03", "bad version"),
    (b"AS\x01\0\0\0\0\0\0\0\x01\0\0\0\0", "bad value"),
];

/// The frame that bytes begin with, of version 1 or of a newer one.
fn read(alloc: Global, bytes: &[u8]) -> Result<(Frame, usize), FrameFault> {
    match decode(alloc, bytes) {
        Err(FrameFault::BadVersion) => decode_up_to(alloc, bytes, MARKED_VERSION),
        read => read,
    }
}

/// The capacity of a vector that had room for `room` bytes once a frame stands in it, if it is spelled by these bytes.
fn room_taken(alloc: Global, frame: &Frame, bytes: &[u8], room: usize) -> Option<usize> {
    let mut out = Vec::with_capacity(alloc, room).ok()?;
    encode(frame, &mut out).ok()?;
    if out.as_slice() == bytes {
        Some(out.capacity())
    } else {
        None
    }
}

/// What the copy of a frame says that has these bytes.
fn frame_words(alloc: Global, frame: &Frame, bytes: &[u8]) -> Option<String> {
    let copied = frame.copy(alloc).ok()?;
    let count = bytes.len();
    let grown = room_taken(alloc, frame, bytes, 0)?;
    let kept = room_taken(alloc, frame, bytes, count)?;
    format!(in alloc; "{copied:?} in {count}, room {grown} {kept}").ok()
}

/// The same of bytes that are handed over, whose payloads the frame shares.
fn read_owned(alloc: Global, bytes: &[u8]) -> Result<(Frame, usize), FrameFault> {
    let mut owned = Vec::new(alloc);
    owned.extend_from_slice(bytes)?;
    decode_owned(alloc, owned, MARKED_VERSION)
}

/// What the reading of bytes came to.
fn words(alloc: Global, bytes: &[u8], read: Result<(Frame, usize), FrameFault>) -> Option<String> {
    match read {
        Ok((frame, count)) => frame_words(alloc, &frame, bytes.get(..count)?),
        Err(fault) => format!(in alloc; "{fault}").ok(),
    }
}

#[test]
fn frames_are_read_copied_and_spelled(rt: HostRuntime) {
    for &(bytes, wanted) in FRAMES {
        let found = words(rt.alloc(), bytes, read(rt.alloc(), bytes));
        assert_eq!(rt; found.as_deref(), Some(wanted));
        let found = words(rt.alloc(), bytes, read_owned(rt.alloc(), bytes));
        assert_eq!(rt; found.as_deref(), Some(wanted));
    }
}

/// The first of these frames, without the byte behind it.
const FRAME: &[u8] = b"AS\x01\0\0\0\0\0\0\0\x01\0\0\0\x01\0\0\0\0\0\0\0\0\0\x01\0\0\0\x25\
\0\0\0\0\0\0\0\0\x02\x01\0\0\0\x01\0\0\0\0\x05\0\0\0\0\0\0\0\0\x01f\0\0\0\x01\0\0\0\0";

/// The same of version 2.
const MARKED: &[u8] = b"AS\x02\0\0\0\0\0\0\0\x01\0\0\0\x01\0\0\0\0\0\0\0\0\0\x01\0\0\0\x26\
\0\0\0\0\0\0\0\0\x01\x02\x01\0\0\0\x01\0\0\0\0\x05\0\0\0\0\0\0\0\0\x01f\0\0\0\x01\0\0\0\0";

/// The fault of bytes of which one is another.
fn fault_at(alloc: Global, place: usize, byte: u8) -> Option<FrameFault> {
    let mut bytes = Vec::new(alloc);
    bytes.extend_from_slice(FRAME).ok()?;
    *bytes.get_mut(place)? = byte;
    decode(alloc, bytes.as_slice()).err()
}

#[test]
fn each_front_of_a_frame_is_short(rt: HostRuntime) {
    for frame in [FRAME, MARKED] {
        for count in 0..frame.len() {
            let fault = read(rt.alloc(), &frame[..count]).err();
            assert!(rt; fault == Some(FrameFault::Short));
        }
        assert!(rt; read(rt.alloc(), frame).is_ok());
    }
    assert!(rt; fault_at(rt.alloc(), 2, 2) == Some(FrameFault::BadVersion));
    assert!(rt; fault_at(rt.alloc(), 28, 0x24) == Some(FrameFault::BadLength));
}
