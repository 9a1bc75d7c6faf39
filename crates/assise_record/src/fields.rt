//! The fields of frames. Where the bytes end first, the fault is the one that is handed in.
ghost use Rattle.std.specs.Prelude.{◌≡◌, ◌≤◌, IfOk, IsTrue, length};
ghost use Rattle.assise_names.specs.Name.{is_name};
ghost use Rattle.assise_record.specs.Patch.{IsPatch};
ghost use Rattle.assise_record.specs.Reading.{Exactly, byte_at, bytes_at, number_at, is_extent, extent_at, read_size, name_in, name_at};

use crate::effect::MOST_EXTENT_BYTES;
use crate::fault::FrameFault;
use assise_names::limits::MOST_FILE_BYTES;
use assise_names::name::is_name;
use byteorder::{BigEndian, ByteOrder};

/// A byte, and what stands behind it.
pub(crate) fn u8_at(bytes: &[u8], short: FrameFault) -> Result<(u8, &[u8]), FrameFault>
    ensures { Exactly (λ x. (x.0, x.1.now)) result (byte_at short bytes.now) }
{
    match bytes {
        [] => Err(short),
        [byte, rest @ ..] => Ok((*byte, rest)),
    }
}

/// The next `count` bytes, and what stands behind them.
pub(crate) fn slice_at(
    bytes: &[u8],
    count: usize,
    short: FrameFault,
) -> Result<(&[u8], &[u8]), FrameFault>
    ensures read { Exactly (λ x. (x.0.now, x.1.now)) result (bytes_at count short bytes.now) }
    ensures long { IfOk result (λ x. length x.0.now ≡ count) }
{
    if bytes.len() < count {
        return Err(short);
    }
    Ok(bytes.split_at(count))
}

/// A number of 16 bits.
pub(crate) fn u16_at(bytes: &[u8], short: FrameFault) -> Result<(u16, &[u8]), FrameFault>
    ensures { Exactly (λ x. (x.0, x.1.now)) result (number_at 2 short bytes.now) }
{
    let (prefix, rest) = slice_at(bytes, 2, short)?;
    Ok((BigEndian::read_u16(prefix), rest))
}

/// A number of 32 bits.
pub(crate) fn u32_at(bytes: &[u8], short: FrameFault) -> Result<(u32, &[u8]), FrameFault>
    ensures { Exactly (λ x. (x.0, x.1.now)) result (number_at 4 short bytes.now) }
{
    let (prefix, rest) = slice_at(bytes, 4, short)?;
    Ok((BigEndian::read_u32(prefix), rest))
}

/// A number of 64 bits.
pub(crate) fn u64_at(bytes: &[u8], short: FrameFault) -> Result<(u64, &[u8]), FrameFault>
    ensures { Exactly (λ x. (x.0, x.1.now)) result (number_at 8 short bytes.now) }
{
    let (prefix, rest) = slice_at(bytes, 8, short)?;
    Ok((BigEndian::read_u64(prefix), rest))
}

/// An offset, and the bytes to be written there.
#[tactic(auto, unfolding(crate::specs::Reading::extent_at))]
pub(crate) fn payload_at(bytes: &[u8]) -> Result<((u32, &[u8]), &[u8]), FrameFault>
    ensures read { Exactly (λ x. (record { offset = x.0.0; bytes = x.0.1.now }, x.1.now)) result
        (extent_at bytes.now) }
    ensures lawful { IfOk result (λ x. IsPatch (record { offset = x.0.0; bytes = x.0.1.now })) }
{
    let (offset, rest) = u32_at(bytes, FrameFault::BadLength)?;
    let (size, rest) = u32_at(rest, FrameFault::BadLength)?;
    if !is_extent(offset, size) {
        return Err(FrameFault::BadValue);
    }
    let (payload, rest) = slice_at(rest, size as usize, FrameFault::BadLength)?;
    Ok(((offset, payload), rest))
}

/// Whether `count` bytes may be written at the offset.
fn is_extent(offset: u32, size: u32) -> bool
    ensures { result ≡ is_extent offset size }
{
    0 < size
        && size as usize <= MOST_EXTENT_BYTES
        && u64::from(offset) + u64::from(size) <= MOST_FILE_BYTES
}

/// The length of a file.
#[tactic(auto, unfolding(crate::specs::Reading::read_size))]
pub(crate) fn size_at(bytes: &[u8]) -> Result<(u32, &[u8]), FrameFault>
    ensures read { Exactly (λ x. (x.0, x.1.now)) result (read_size bytes.now) }
    ensures fits { IfOk result (λ x. x.0 ≤ 1048576) }
{
    let (size, rest) = u32_at(bytes, FrameFault::BadLength)?;
    if u64::from(size) > MOST_FILE_BYTES {
        return Err(FrameFault::BadValue);
    }
    Ok((size, rest))
}

/// A name behind its length.
#[tactic(auto, unfolding(crate::specs::Reading::name_at))]
pub(crate) fn name_at(bytes: &[u8]) -> Result<(&str, &[u8]), FrameFault>
    ensures read { Exactly (λ x. (x.0.now, x.1.now)) result (name_at bytes.now) }
    ensures lawful { IfOk result (λ x. IsTrue (is_name x.0.now)) }
{
    let (size, rest) = u8_at(bytes, FrameFault::BadLength)?;
    if size == 0 {
        return Err(FrameFault::BadValue);
    }
    let (text, rest) = slice_at(rest, size as usize, FrameFault::BadLength)?;
    let name = name_in(text)?;
    Ok((name, rest))
}

/// The name that bytes are.
fn name_in(bytes: &[u8]) -> Result<&str, FrameFault>
    ensures read { Exactly (λ name. name.now) result (name_in bytes.now) }
    ensures lawful { IfOk result (λ name. IsTrue (is_name name.now)) }
{
    let Ok(text) = std::str::from_utf8(bytes) else {
        return Err(FrameFault::BadValue);
    };
    if !is_name(text) {
        return Err(FrameFault::BadValue);
    }
    Ok(text)
}
