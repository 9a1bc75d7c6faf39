//! What reads and writes do with the bytes of a file.
ghost use Rattle.std.specs.Prelude.{◌≡◌, ◌+◌, ◌^◌, ◌<◌, ◌≤◌, ◌++◌, IfOk, OnOk, OnErr, length, nat_le, take, drop};
ghost use Rattle.assise_seq_tree.specs.Contents.{bytes_from, is_within, overwritten, resized};

use assise_names::limits::MOST_FILE_BYTES;
use std::alloc::{AllocError, Global};

/// Whether a file that ends with the new bytes isn't too big.
pub fn is_within(offset: u64, new: &[u8]) -> bool
    ensures { result ≡ is_within offset new.now }
{
    offset <= MOST_FILE_BYTES && new.len() as u64 <= MOST_FILE_BYTES - offset
}

/// The bytes from an offset on, up to a count. At or past the end there are none (POSIX.1-2017, read()).
pub fn bytes_from(bytes: &[u8], offset: u64, most: u64) -> &[u8]
    ensures { result.now ≡ bytes_from offset most bytes.now }
{
    let start = bytes.len().min(offset as usize);
    let rest = &bytes[start..];
    let end = rest.len().min(most as usize);
    &rest[..end]
}

/// Equal bytes. It asks for memory where there is a byte to copy.
pub fn copied(alloc: Global, bytes: &[u8]) -> Result<Vec<u8>, AllocError>
    ensures equal { IfOk result (λ copied. copied.items ≡ bytes.now) }
    ensures asked { OnErr result (0 < length bytes.now) }
{
    let mut copied = Vec::with_capacity(alloc, bytes.len())?;
    copied.extend_from_slice(bytes)?;
    Ok(copied)
}

/// Writes at an offset. What lies between the old end and the offset is filled with zeros (POSIX.1-2017, lseek() and
/// write()). It asks for memory where the bytes get longer; without it, it leaves them as they were.
pub fn overwrite(bytes: &mut Vec<u8>, offset: usize, new: &[u8]) -> Result<(), AllocError>
    requires { offset + length new.now < 2 ^ 64 }
    ensures ok { OnOk result (bytes.new.items ≡ overwritten bytes.old.items offset new.now) }
    ensures err { OnErr result (bytes.new.items ≡ bytes.old.items) }
    ensures asked { OnErr result (length bytes.old.items < offset + length new.now) }
{
    let end = offset + new.len();
    if bytes.len() < end {
        bytes.resize(end, 0)?;
    }
    copy_at(bytes.as_mut_slice(), offset, new);
    Ok(())
}

/// Cuts the bytes to a size, or fills them up to it with zeros (POSIX.1-2017, ftruncate()). It asks for memory where they
/// get longer; without it, it leaves them as they were.
pub fn resize(bytes: &mut Vec<u8>, size: usize) -> Result<(), AllocError>
    ensures ok { OnOk result (bytes.new.items ≡ resized bytes.old.items size) }
    ensures err { OnErr result (bytes.new.items ≡ bytes.old.items) }
    ensures asked { OnErr result (length bytes.old.items < size) }
{
    bytes.resize(size, 0)?;
    Ok(())
}

/// Writes over bytes that are there.
fn copy_at(bytes: &mut [u8], offset: usize, new: &[u8])
    requires { offset + length new.now ≤ length bytes.old }
    ensures { bytes.new ≡ take offset bytes.old ++ new.now ++ drop
        (offset + length new.now) bytes.old }
{
    bytes[offset..offset + new.len()].copy_from_slice(new);
}
