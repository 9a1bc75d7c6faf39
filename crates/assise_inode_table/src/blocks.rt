//! Blocks of bytes.
ghost use Rattle.std.specs.Prelude.{◌≡◌, ◌+◌, ◌-◌, ◌*◌, ◌^◌, ◌<◌, ◌≤◌, ◌++◌, IfOk, OnErr, OnOk, length, take, drop};
ghost use Rattle.std.specs.List.{concat};
ghost use Rattle.assise_seq_tree.specs.Contents.{bytes_from, overwritten};
ghost use Rattle.assise_inode_table.specs.Blocks.{IsCut};

use assise_seq_tree::contents;
use bytes::Bytes;
use std::alloc::{AllocError, Global};

/// How many bytes a block has that isn't the last.
pub const BLOCK: usize = 4096;

/// The bytes of a block, or none where there is no such block.
fn bytes_of(blocks: &[Bytes], index: usize) -> &[u8]
    requires { IsCut blocks.now }
    ensures { result.now ≡ bytes_from (4096 * index) 4096 (concat blocks.now) }
{
    match blocks.get(index) {
        Some(block) => block.as_slice(),
        None => &[],
    }
}

/// Bytes from an offset on, up to a count: shared, not copied.
fn part(bytes: &Bytes, offset: usize, count: usize) -> Result<Bytes, AllocError>
    ensures { IfOk result (λ part. part ≡ bytes_from offset count bytes.now) }
{
    let start = offset.min(bytes.len());
    let end = start + count.min(bytes.len() - start);
    bytes.slice(start..end)
}

/// A block with bytes of its own: new ones at an offset in it, and zeros before those where there was nothing.
fn patched(alloc: Global, old: &[u8], offset: usize, new: &[u8]) -> Result<Bytes, AllocError>
    requires { offset + length new.now ≤ 4096 }
    ensures { IfOk result (λ block. block ≡ overwritten old.now offset new.now) }
{
    let end = offset + new.len();
    let mut bytes = Vec::with_capacity(alloc, old.len().max(end))?;
    bytes.extend_from_slice(&old[..offset.min(old.len())])?;
    bytes.resize(offset, 0)?;
    bytes.extend_from_slice(new)?;
    bytes.extend_from_slice(&old[end.min(old.len())..])?;
    Ok(Bytes::from_vec(bytes)?)
}

/// A block with new bytes from an offset in it on, the first of them passed over, and zeros before those where there was nothing.
/// Where nothing of the old one stays it shares the new bytes.
fn block(
    alloc: Global,
    old: &[u8],
    offset: usize,
    new: &Bytes,
    passed: usize,
) -> Result<Bytes, AllocError>
    requires { offset ≤ 4096 }
    ensures { IfOk result (λ block. block ≡ overwritten old.now offset
        (bytes_from passed (4096 - offset) new.now)) }
{
    let room = BLOCK - offset;
    let written = contents::bytes_from(new.as_slice(), passed as u64, room as u64);
    if offset == 0 && old.len() <= written.len() {
        return part(new, passed, room);
    }
    patched(alloc, old, offset, written)
}

/// Blocks with new bytes at an offset from the start of the first, and zeros before those where there was nothing. What
/// isn't shared is copied once.
pub fn overwritten(
    alloc: Global,
    blocks: &[Bytes],
    offset: usize,
    new: &Bytes,
) -> Result<Vec<Bytes>, AllocError>
    requires cut { IsCut blocks.now }
    requires held { length (concat blocks.now) < 2 ^ 64 }
    requires fits { offset + length new.now < 2 ^ 64 }
    ensures cut { IfOk result (λ made. IsCut made.items) }
    ensures bytes { IfOk result (λ made. concat made.items ≡ overwritten
        (concat blocks.now) offset new.now) }
{
    let count = blocks.len().max((offset + new.len()).div_ceil(BLOCK));
    let mut made = Vec::with_capacity(alloc, count)?;
    for index in 0..count {
        let start = index * BLOCK;
        let at = offset.saturating_sub(start).min(BLOCK);
        let passed = start.saturating_sub(offset);
        made.push(block(alloc, bytes_of(blocks, index), at, new, passed)?)?;
    }
    Ok(made)
}

/// The bytes of blocks from an offset on, up to a count, in one piece.
pub fn joined(
    alloc: Global,
    blocks: &[Bytes],
    offset: usize,
    most: usize,
) -> Result<Vec<u8>, AllocError>
    ensures { IfOk result (λ joined. joined.items ≡ bytes_from offset most (concat blocks.now)) }
{
    let mut joined = Vec::with_capacity(alloc, most)?;
    let mut skipped = offset;
    for block in blocks {
        let wanted = most - joined.len();
        let part = contents::bytes_from(block.as_slice(), skipped as u64, wanted as u64);
        joined.extend_from_slice(part)?;
        skipped = skipped.saturating_sub(block.len());
    }
    Ok(joined)
}

/// The bytes of blocks from an offset on, up to a count, in one piece: shared with the block where one has them all.
pub fn piece(
    alloc: Global,
    blocks: &[Bytes],
    offset: usize,
    count: usize,
) -> Result<Bytes, AllocError>
    ensures { IfOk result (λ piece. piece ≡ bytes_from offset count (concat blocks.now)) }
{
    if let [block] = blocks {
        return part(block, offset, count);
    }
    Ok(Bytes::from_vec(joined(alloc, blocks, offset, count)?)?)
}

/// Puts blocks in the place of a part of a list. On an error the list is as it was.
pub fn replace(
    blocks: &mut Vec<Bytes>,
    first: usize,
    until: usize,
    mut made: Vec<Bytes>,
) -> Result<(), AllocError>
    requires { (first ≤ until) × (until ≤ length blocks.old.items) }
    ensures ok { OnOk result (blocks.new.items ≡ take first blocks.old.items ++
        (made.items ++ drop until blocks.old.items)) }
    ensures err { OnErr result (blocks.new.items ≡ blocks.old.items) }
{
    if until - first != 1 || made.len() != 1 {
        blocks.splice(first..until, made)?;
        return Ok(());
    }
    if let Some(block) = made.pop() {
        blocks[first] = block;
    }
    Ok(())
}

/// Writes bytes at an offset, and zeros before them where there was nothing. The blocks that the write reaches are made
/// anew, and the others stay. On an error the list is as it was.
pub fn overwrite(
    alloc: Global,
    blocks: &mut Vec<Bytes>,
    size: usize,
    offset: usize,
    new: &Bytes,
) -> Result<(), AllocError>
    requires cut { IsCut blocks.old.items }
    requires bytes { size ≡ length (concat blocks.old.items) }
    requires some { 0 < length new.now + (offset - size) }
    requires fits { offset + length new.now < 2 ^ 64 }
    ensures cut { OnOk result (IsCut blocks.new.items) }
    ensures bytes { OnOk result (concat blocks.new.items ≡ overwritten
        (concat blocks.old.items) offset new.now) }
    ensures err { OnErr result (blocks.new.items ≡ blocks.old.items) }
{
    let count = new.len();
    let first = size.min(offset) / BLOCK;
    let until = blocks.len().min((offset + count - 1) / BLOCK + 1);
    let at = offset - first * BLOCK;
    if first + 1 == until && at + count <= BLOCK {
        let alone = block(alloc, blocks[first].as_slice(), at, new, 0)?;
        blocks[first] = alone;
        return Ok(());
    }
    let made = overwritten(alloc, &blocks[first..until], at, new)?;
    replace(blocks, first, until, made)
}

/// Cuts blocks to a size. What stays of the last block is shared with its other owners.
#[tactic(auto, using(crate::proofs::BlockBytes::cut_take, crate::proofs::BlockWrites::bytes_between, crate::proofs::BlockWrites::last_held, crate::proofs::BlockWrites::cut_within, crate::proofs::BlockWrites::bytes_within))]
pub fn shorten(blocks: &mut Vec<Bytes>, size: usize)
    requires cut { IsCut blocks.old.items }
    requires within { size ≤ length (concat blocks.old.items) }
    ensures cut { IsCut blocks.new.items }
    ensures bytes { concat blocks.new.items ≡ take size (concat blocks.old.items) }
{
    let full = size / BLOCK;
    let rest = size % BLOCK;
    if rest == 0 {
        blocks.truncate(full);
        return;
    }
    blocks[full].truncate(rest);
    blocks.truncate(full + 1);
}
