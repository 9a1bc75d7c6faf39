//! The data of a write.
ghost use Rattle.std.specs.Prelude.{◌≡◌, Ok, replicate};
ghost use Rattle.assise_fault_script.specs.Data.{data_of, byte_of_hex, hex_bytes, hex_value, zeros};
ghost use Rattle.assise_fault_script.specs.Fault.{Checks, GivesCommand, Makes};
ghost use Rattle.assise_fault_script.specs.Number.{number_of};

use crate::fault::ScriptFault;
use crate::number::number;
use assise_names::byte_string::ByteString;
use std::alloc::Global;

/// The most bytes that a word of `z` writes.
const MOST_ZEROS: u64 = 1_048_576;

/// The bytes that a word of data writes, or none where memory ran out. Where memory is refused, the word is looked
/// through for a fault first.
pub fn data_made(alloc: Global, word: &str) -> Result<Option<ByteString>, ScriptFault>
    ensures { Makes result (data_of word.now) }
{
    match data(alloc, word) {
        Ok(bytes) => Ok(Some(bytes)),
        Err(ScriptFault::Memory) => {
            check_data(word)?;
            Ok(None)
        }
        Err(fault) => Err(fault),
    }
}

/// Whether a word is data, or its fault. It takes no memory.
fn check_data(word: &str) -> Result<(), ScriptFault>
    ensures { Checks result (data_of word.now) }
{
    if word.strip_prefix('t').is_some() {
        return Ok(());
    }
    if let Some(digits) = word.strip_prefix('x') {
        return check_hex(digits.as_bytes());
    }
    if let Some(count) = word.strip_prefix('z') {
        return check_zeros(count);
    }
    Err(ScriptFault::BadData)
}

fn check_hex(digits: &[u8]) -> Result<(), ScriptFault>
    ensures { Checks result (hex_bytes digits.now) }
{
    let mut rest = digits;
    while let [high, low, more @ ..] = rest {
        pair(*high, *low)?;
        rest = more;
    }
    if rest.is_empty() {
        Ok(())
    } else {
        Err(ScriptFault::BadData)
    }
}

fn check_zeros(count: &str) -> Result<(), ScriptFault>
    ensures { Checks result (zeros (number_of count.now)) }
{
    match number(count) {
        Ok(count) => few_zeros(count),
        Err(_) => Err(ScriptFault::BadData),
    }
}

fn few_zeros(count: u64) -> Result<(), ScriptFault>
    ensures { Checks result (zeros (Ok count)) }
{
    if count <= MOST_ZEROS {
        Ok(())
    } else {
        Err(ScriptFault::BadData)
    }
}

/// The bytes that a word of data writes.
fn data(alloc: Global, word: &str) -> Result<ByteString, ScriptFault>
    ensures { GivesCommand result (data_of word.now) }
{
    if let Some(text) = word.strip_prefix('t') {
        return copied(alloc, text.as_bytes());
    }
    if let Some(digits) = word.strip_prefix('x') {
        return hex(alloc, digits.as_bytes());
    }
    if let Some(count) = word.strip_prefix('z') {
        return zero_bytes(alloc, count);
    }
    Err(ScriptFault::BadData)
}

fn copied(alloc: Global, bytes: &[u8]) -> Result<ByteString, ScriptFault>
    ensures { GivesCommand result (Ok bytes.now) }
{
    let bytes = Vec::from_slice(alloc, bytes)?;
    Ok(ByteString::from_vec(bytes)?)
}

/// A byte for each pair of hexadecimal digits.
fn hex(alloc: Global, digits: &[u8]) -> Result<ByteString, ScriptFault>
    ensures { GivesCommand result (hex_bytes digits.now) }
{
    let mut bytes = Vec::with_capacity(alloc, digits.len() / 2)?;
    let mut rest = digits;
    while let [high, low, more @ ..] = rest {
        bytes.push_reserved(pair(*high, *low)?);
        rest = more;
    }
    if !rest.is_empty() {
        return Err(ScriptFault::BadData);
    }
    Ok(ByteString::from_vec(bytes)?)
}

fn pair(high: u8, low: u8) -> Result<u8, ScriptFault>
    ensures { result ≡ byte_of_hex high low }
{
    let high = digit(high)?;
    let low = digit(low)?;
    Ok(16 * high + low)
}

fn digit(byte: u8) -> Result<u8, ScriptFault>
    ensures { result ≡ hex_value byte }
{
    match byte {
        b'0'..=b'9' => Ok(byte - b'0'),
        b'a'..=b'f' => Ok(10 + (byte - b'a')),
        b'A'..=b'F' => Ok(10 + (byte - b'A')),
        _ => Err(ScriptFault::BadData),
    }
}

fn zero_bytes(alloc: Global, count: &str) -> Result<ByteString, ScriptFault>
    ensures { GivesCommand result (zeros (number_of count.now)) }
{
    match number(count) {
        Ok(count) => some_zeros(alloc, count),
        Err(_) => Err(ScriptFault::BadData),
    }
}

fn some_zeros(alloc: Global, count: u64) -> Result<ByteString, ScriptFault>
    ensures { GivesCommand result (zeros (Ok count)) }
{
    if count > MOST_ZEROS {
        return Err(ScriptFault::BadData);
    }
    let bytes = vec![in alloc; 0; count as usize]?;
    Ok(ByteString::from_vec(bytes)?)
}
