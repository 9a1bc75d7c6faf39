//! Frames of bytes.
ghost use Rattle.std.specs.Prelude.{◌≡◌, ◌<◌, ◌≤◌, ◌⊎◌, ◌++◌, ℕ, IfOk, IfErr, IsOkUnless, OnOk, Ok, Err, length, take, drop};
ghost use Rattle.std.specs.Option.{option_to_list};
ghost use Rattle.assise_record.specs.LogFrame.{HasMarks, LogFrame, is_marked};
ghost use Rattle.assise_record.specs.Spelling.{BeginsWith};
ghost use Rattle.assise_record.specs.declared.fault.FrameFault.{FrameFault};
ghost use Rattle.assise_record.specs.declared.fault.FrameFault.TheVariants.{Memory};
ghost use Rattle.assise_record.specs.Reading.{AreBytes, Exactly, GivesFrame, HasCount, IsRest, IsVersion, checked, effects_of_record, mark_at, read_record, records_at, body_at, version_at, numbers_at, header_at, read_frame, frame_at, frame_of_body, rest_of};

use crate::effects::{effects_at, skip_effects};
use crate::fault::FrameFault;
use crate::fields::{slice_at, u8_at, u16_at, u32_at, u64_at};
use crate::frame::{Frame, MARKED_VERSION, MOST_RECORDS, PLAIN_VERSION};
use crate::record::{MOST_EFFECTS, Record};
use bytes::Bytes;
use std::alloc::Global;
use std::marker::Model;

/// The bytes of a header.
pub(crate) const HEADER_BYTES: usize = 29;

/// The first two bytes of every frame.
pub(crate) const MAGIC: [u8; 2] = *b"AS";

/// The mark of a record that is the last of its group.
pub(crate) const LAST: u8 = 1;

/// The mark of a record behind which others of its group stand.
pub(crate) const NOT_LAST: u8 = 0;

/// What stands before the records: the count of them, and how many bytes they have.
#[derive(Drop)]
struct Header {
    version: u8,
    epoch: u64,
    client: u32,
    first: u64,
    count: u16,
    size: u32,
}

impl Model for Header {
    ghost use Rattle.assise_record.specs.Header.{Header};

    ghost Value = { Header };

    ghost view = { λ h. record { version = h.version; epoch = h.epoch; client = h.client; first = h.first; count = h.count; size = h.size } };
}

impl Header {
    ghost use Rattle.std.specs.Prelude.{◌≡◌};
    ghost use Rattle.assise_record.specs.LogFrame.{is_marked};

    /// Whether its records have marks.
    fn is_marked(&self) -> bool
        ensures { result ≡ is_marked self.now.version }
    {
        self.version == MARKED_VERSION
    }
}

/// The mark of a record with `left` records behind it, where records have marks.
#[tactic(auto, unfolding(crate::specs::Reading::mark_at))]
fn mark_at(marked: bool, left: u16, bytes: &[u8]) -> Result<(Option<bool>, &[u8]), FrameFault>
    ensures { Exactly (λ x. (x.0, x.1.now)) result (mark_at marked left bytes.now) }
{
    if !marked {
        return Ok((None, bytes));
    }
    let (mark, rest) = u8_at(bytes, FrameFault::BadLength)?;
    if mark != LAST && (mark != NOT_LAST || left == 0) {
        return Err(FrameFault::BadValue);
    }
    Ok((Some(mark == LAST), rest))
}

/// The call of a record with `left` records behind it, its mark, and the count of its effects, which stand behind that.
#[tactic(auto, unfolding(crate::specs::Reading::read_record))]
fn record_head_at(
    marked: bool,
    left: u16,
    bytes: &[u8],
) -> Result<((u64, Option<bool>, u8), &[u8]), FrameFault>
    ensures reads { IfOk result (λ x. read_record marked left bytes.now ≡
        effects_of_record x.0.0 x.0.1 x.0.2 x.1.now) }
    ensures fault { IfErr result (λ fault. read_record marked left bytes.now ≡ Err fault) }
    ensures rest { IfOk result (λ x. IsRest bytes.now x.1.now) }
    ensures some { IfOk result (λ x. 0 < x.0.2) }
    ensures few { IfOk result (λ x. x.0.2 ≤ 4) }
{
    let (call, rest) = u64_at(bytes, FrameFault::BadLength)?;
    let (mark, rest) = mark_at(marked, left, rest)?;
    let (count, rest) = u8_at(rest, FrameFault::BadLength)?;
    if count == 0 || usize::from(count) > MOST_EFFECTS {
        return Err(FrameFault::BadValue);
    }
    Ok(((call, mark, count), rest))
}

/// A record with `left` records behind it, and its mark. What stands behind it is left of the bytes, which its effects share.
fn record_at(
    alloc: Global,
    marked: bool,
    left: u16,
    bytes: &mut Bytes,
) -> Result<(Record, Option<bool>), FrameFault>
    ensures { GivesFrame (λ x. ((x.0, x.1), bytes.new)) result
        (read_record marked left bytes.old) }
{
    let ((call, mark, count), rest) = record_head_at(marked, left, bytes.as_slice())?;
    let head = bytes.len() - rest.len();
    bytes.advance(head);
    let effects = effects_at(alloc, count, bytes)?;
    Ok((Record::new(call, effects), mark))
}

/// What stands behind a record with `left` records behind it, of which nothing is copied.
fn skip_record(marked: bool, left: u16, bytes: &[u8]) -> Result<&[u8], FrameFault>
    ensures { Exactly (λ rest. rest.now) result (rest_of (read_record marked left bytes.now)) }
{
    let ((_, _, count), rest) = record_head_at(marked, left, bytes)?;
    skip_effects(count, rest)
}

/// What stands behind `count` records, of which nothing is copied.
fn skip_records(marked: bool, count: u16, bytes: &[u8]) -> Result<&[u8], FrameFault>
    ensures { Exactly (λ rest. rest.now) result (rest_of (records_at marked count bytes.now)) }
{
    let mut rest = bytes;
    for read in 0..count {
        rest = skip_record(marked, count - (read + 1), rest)?;
    }
    Ok(rest)
}

/// Looks for the first fault of a body, without a copy of anything in it.
#[tactic(auto, unfolding(crate::specs::Reading::body_at))]
fn check_body(marked: bool, count: u16, body: &[u8]) -> Result<(), FrameFault>
    ensures { Exactly (λ _. tt) result (checked (body_at marked count body.now)) }
{
    let rest = skip_records(marked, count, body)?;
    if !rest.is_empty() {
        return Err(FrameFault::BadLength);
    }
    Ok(())
}

/// Adds a mark, where there is one.
fn push_mark(last: &mut Vec<bool>, mark: Option<bool>) -> Result<(), FrameFault>
    ensures ok { OnOk result (last.new.items ≡ last.old.items ++ option_to_list mark) }
    ensures only_memory { IsOkUnless result Memory }
{
    if let Some(mark) = mark {
        last.push(mark)?;
    }
    Ok(())
}

/// `count` records, and their marks. What stands behind them is left of the bytes, which their effects share.
fn records_at(
    alloc: Global,
    marked: bool,
    count: u16,
    bytes: &mut Bytes,
) -> Result<(Vec<Record>, Vec<bool>), FrameFault>
    ensures { GivesFrame (λ x. ((x.0.items, x.1.items), bytes.new)) result
        (records_at marked count bytes.old) }
{
    let mut records = Vec::with_capacity(alloc, usize::from(count))?;
    let mut last = Vec::new(alloc);
    for read in 0..count {
        let (record, mark) = record_at(alloc, marked, count - (read + 1), bytes)?;
        records.push(record)?;
        push_mark(&mut last, mark)?;
    }
    Ok((records, last))
}

/// The records of a body, all of it, and their marks. The effects share the body.
#[tactic(auto, unfolding(crate::specs::Reading::body_at))]
fn body_at(
    alloc: Global,
    marked: bool,
    count: u16,
    mut body: Bytes,
) -> Result<(Vec<Record>, Vec<bool>), FrameFault>
    ensures read { GivesFrame (λ x. (x.0.items, x.1.items)) result (body_at marked count body) }
    ensures counted { IfOk result (λ x. length x.0.items ≡ count) }
    ensures marks { IfOk result (λ x. HasMarks marked x.0.items x.1.items) }
{
    let (records, last) = records_at(alloc, marked, count, &mut body)?;
    if !body.is_empty() {
        return Err(FrameFault::BadLength);
    }
    Ok((records, last))
}

/// The magic bytes and the version, which is at most the newest.
#[tactic(auto, unfolding(crate::specs::Reading::version_at))]
fn version_at(newest: u8, bytes: &[u8]) -> Result<(u8, &[u8]), FrameFault>
    ensures read { Exactly (λ x. (x.0, x.1.now)) result (version_at newest bytes.now) }
    ensures known { IfOk result (λ x. IsVersion newest x.0) }
{
    let (first, rest) = u8_at(bytes, FrameFault::Short)?;
    if first != MAGIC[0] {
        return Err(FrameFault::BadMagic);
    }
    let (second, rest) = u8_at(rest, FrameFault::Short)?;
    if second != MAGIC[1] {
        return Err(FrameFault::BadMagic);
    }
    let (version, rest) = u8_at(rest, FrameFault::Short)?;
    if version < PLAIN_VERSION || newest < version {
        return Err(FrameFault::BadVersion);
    }
    Ok((version, rest))
}

/// The first number and the count of records.
#[tactic(auto, unfolding(crate::specs::Reading::numbers_at))]
fn numbers_at(bytes: &[u8]) -> Result<((u64, u16), &[u8]), FrameFault>
    ensures read { Exactly (λ x. (x.0, x.1.now)) result (numbers_at bytes.now) }
    ensures fits { IfOk result (λ x. HasCount x.0.0 x.0.1) }
{
    let (first, rest) = u64_at(bytes, FrameFault::Short)?;
    let (count, rest) = u16_at(rest, FrameFault::Short)?;
    if count == 0 || usize::from(count) > MOST_RECORDS || first > u64::MAX - u64::from(count) {
        return Err(FrameFault::BadValue);
    }
    Ok(((first, count), rest))
}

#[tactic(auto, unfolding(crate::specs::Reading::header_at))]
fn header_at(newest: u8, bytes: &[u8]) -> Result<(Header, &[u8]), FrameFault>
    ensures read { Exactly (λ x. (x.0, x.1.now)) result (header_at newest bytes.now) }
    ensures known { IfOk result (λ x. IsVersion newest x.0.version) }
    ensures a_client { IfOk result (λ x. 0 < x.0.client) }
    ensures fits { IfOk result (λ x. HasCount x.0.first x.0.count) }
{
    let (version, rest) = version_at(newest, bytes)?;
    let (epoch, rest) = u64_at(rest, FrameFault::Short)?;
    let (client, rest) = u32_at(rest, FrameFault::Short)?;
    if client == 0 {
        return Err(FrameFault::BadValue);
    }
    let ((first, count), rest) = numbers_at(rest)?;
    let (size, rest) = u32_at(rest, FrameFault::Short)?;
    let header = Header {
        version,
        epoch,
        client,
        first,
        count,
        size,
    };
    Ok((header, rest))
}

/// As [`decode_up_to`], of version 1 alone.
pub fn decode(alloc: Global, bytes: &[u8]) -> Result<(Frame, usize), FrameFault>
    // What is read is spelled so.
    ensures found { IfOk result (λ x. BeginsWith 1 bytes.now x.0 x.1) }
    // What is spelled so is read, unless memory runs out.
    ensures only { (f : LogFrame) (n : ℕ) → BeginsWith 1 bytes.now f n →
        (result ≡ Ok (f, n)) ⊎ (result ≡ Err Memory) }
    // Which fault it is.
    ensures first_fault { IfErr result (λ fault. (fault ≡ Memory) ⊎
        (frame_at 1 bytes.now ≡ Err fault)) }
    // A fault is answered, and not out of memory.
    ensures faults { (fault : FrameFault) → frame_at 1 bytes.now ≡ Err fault → result ≡ Err fault }
    // Memory is asked for only where the bytes begin with a frame.
    ensures memory { IfErr result (λ fault. fault ≡ Memory →
        (f : LogFrame) × ((n : ℕ) × BeginsWith 1 bytes.now f n)) }
    // With a fault the bytes begin with no frame.
    ensures no_frame { IfErr result (λ fault. (fault ≡ Memory) ⊎
        ((f : LogFrame) (n : ℕ) → ¬ (BeginsWith 1 bytes.now f n))) }
{
    decode_up_to(alloc, bytes, PLAIN_VERSION)
}

/// The frame that bytes begin with, and of how many bytes it is: of the bytes behind it none is looked at. Where they
/// begin with no frame, the fault is the first from left to right, where memory is wanting too: nothing is copied before
/// the whole body was looked at. Only in place of a frame [`FrameFault::Memory`] may stand. The body is copied once, and the bytes
/// of writes are shares of that copy. A version above the newest is [`FrameFault::BadVersion`].
pub fn decode_up_to(alloc: Global, bytes: &[u8], newest: u8) -> Result<(Frame, usize), FrameFault>
    requires some_version { 1 ≤ newest }
    requires known_version { newest ≤ 2 }
    // What is read is spelled so.
    ensures found { IfOk result (λ x. BeginsWith newest bytes.now x.0 x.1) }
    // What is spelled so is read, unless memory runs out.
    ensures only { (f : LogFrame) (n : ℕ) → BeginsWith newest bytes.now f n →
        (result ≡ Ok (f, n)) ⊎ (result ≡ Err Memory) }
    // Which fault it is.
    ensures first_fault { IfErr result (λ fault. (fault ≡ Memory) ⊎
        (frame_at newest bytes.now ≡ Err fault)) }
    // A fault is answered, and not out of memory.
    ensures faults { (fault : FrameFault) → frame_at newest bytes.now ≡ Err fault →
        result ≡ Err fault }
    // Memory is asked for only where the bytes begin with a frame.
    ensures memory { IfErr result (λ fault. fault ≡ Memory →
        (f : LogFrame) × ((n : ℕ) × BeginsWith newest bytes.now f n)) }
    // With a fault the bytes begin with no frame.
    ensures no_frame { IfErr result (λ fault. (fault ≡ Memory) ⊎
        ((f : LogFrame) (n : ℕ) → ¬ (BeginsWith newest bytes.now f n))) }
{
    frame_at(alloc, newest, bytes)
}

/// As [`decode_up_to`], of bytes that are handed over: nothing is copied, and the bytes of writes are shares of these.
pub fn decode_owned(alloc: Global, bytes: Vec<u8>, newest: u8) -> Result<(Frame, usize), FrameFault>
    requires some_version { 1 ≤ newest }
    requires known_version { newest ≤ 2 }
    // What is read is spelled so.
    ensures found { IfOk result (λ x. BeginsWith newest bytes.items x.0 x.1) }
    // What is spelled so is read, unless memory runs out.
    ensures only { (f : LogFrame) (n : ℕ) → BeginsWith newest bytes.items f n →
        (result ≡ Ok (f, n)) ⊎ (result ≡ Err Memory) }
    // Which fault it is.
    ensures first_fault { IfErr result (λ fault. (fault ≡ Memory) ⊎
        (frame_at newest bytes.items ≡ Err fault)) }
    // A fault is answered, and not out of memory.
    ensures faults { (fault : FrameFault) → frame_at newest bytes.items ≡ Err fault →
        result ≡ Err fault }
    // Memory is asked for only where the bytes begin with a frame.
    ensures memory { IfErr result (λ fault. fault ≡ Memory →
        (f : LogFrame) × ((n : ℕ) × BeginsWith newest bytes.items f n)) }
    // With a fault the bytes begin with no frame.
    ensures no_frame { IfErr result (λ fault. (fault ≡ Memory) ⊎
        ((f : LogFrame) (n : ℕ) → ¬ (BeginsWith newest bytes.items f n))) }
{
    owned_frame_at(alloc, newest, bytes)
}

/// The header of the frame that bytes begin with, and the body behind it, which has no fault.
#[tactic(auto, unfolding(crate::specs::Reading::frame_at))]
fn checked_at(newest: u8, bytes: &[u8]) -> Result<(Header, &[u8]), FrameFault>
    ensures reads { IfOk result (λ x. frame_at newest bytes.now ≡ frame_of_body x.0 x.1.now) }
    ensures fine { IfOk result (λ x. checked
        (body_at (is_marked x.0.version) x.0.count x.1.now) ≡ Ok tt) }
    ensures fault { IfErr result (λ fault. frame_at newest bytes.now ≡ Err fault) }
    ensures behind { IfOk result (λ x. x.1.now ≡ take x.0.size (drop 29 bytes.now)) }
    ensures long { IfOk result (λ x. 29 ≤ length bytes.now) }
    ensures bytes { AreBytes bytes.now }
    ensures known { IfOk result (λ x. IsVersion newest x.0.version) }
    ensures a_client { IfOk result (λ x. 0 < x.0.client) }
    ensures fits { IfOk result (λ x. HasCount x.0.first x.0.count) }
{
    let (header, rest) = header_at(newest, bytes)?;
    let (body, _) = slice_at(rest, header.size as usize, FrameFault::Short)?;
    check_body(header.is_marked(), header.count, body)?;
    Ok((header, body))
}

fn frame_at(alloc: Global, newest: u8, bytes: &[u8]) -> Result<(Frame, usize), FrameFault>
    requires known_version { newest ≤ 2 }
    ensures read { GivesFrame (λ x. x) result (frame_at newest bytes.now) }
    ensures faults { (fault : FrameFault) → frame_at newest bytes.now ≡ Err fault →
        result ≡ Err fault }
{
    let (header, body) = checked_at(newest, bytes)?;
    let body = Bytes::copy_from_slice(alloc, body)?;
    read_body(alloc, header, body)
}

fn owned_frame_at(alloc: Global, newest: u8, bytes: Vec<u8>) -> Result<(Frame, usize), FrameFault>
    requires known_version { newest ≤ 2 }
    ensures bytes { AreBytes bytes.items }
    ensures read { GivesFrame (λ x. x) result (frame_at newest bytes.items) }
    ensures faults { (fault : FrameFault) → frame_at newest bytes.items ≡ Err fault →
        result ≡ Err fault }
{
    let (header, _) = checked_at(newest, bytes.as_slice())?;
    let mut body = Bytes::from_vec(bytes)?;
    body.advance(HEADER_BYTES);
    body.truncate(header.size as usize);
    read_body(alloc, header, body)
}

/// The frame that has a header and this body, in which no fault is. The one fault is [`FrameFault::Memory`].
fn read_body(alloc: Global, header: Header, body: Bytes) -> Result<(Frame, usize), FrameFault>
    requires fine { checked (body_at (is_marked header.version) header.count body) ≡ Ok tt }
    requires known { IsVersion 2 header.version }
    requires a_client { 0 < header.client }
    requires fits { HasCount header.first header.count }
    ensures read { GivesFrame (λ x. x) result (frame_of_body header body) }
    ensures only_memory { IsOkUnless result Memory }
{
    let size = HEADER_BYTES + header.size as usize;
    let (records, last) = body_at(alloc, header.is_marked(), header.count, body)?;
    Ok((frame_of(header, records, last), size))
}

/// The frame of the records that stand behind a header, and of their marks.
fn frame_of(header: Header, records: Vec<Record>, last: Vec<bool>) -> Frame
    requires version { IsVersion 2 header.version }
    requires a_client { 0 < header.client }
    requires fits { HasCount header.first header.count }
    requires counted { length records.items ≡ header.count }
    requires marks { HasMarks (is_marked header.version) records.items last.items }
    ensures { result ≡ read_frame header (records.items, last.items) }
{
    let Header {
        version,
        epoch,
        client,
        first,
        ..
    } = header;
    if version == MARKED_VERSION {
        Frame::with_marks(epoch, client, first, records, last)
    } else {
        Frame::new(epoch, client, first, records)
    }
}
