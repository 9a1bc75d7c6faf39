//! Effects written as text: a name, the inode that is changed, and what else there is.
use assise_inode_table::store::InodeStore;
use assise_names::limits::MOST_FILE_BYTES;
use assise_names::name::Name;
use assise_record::effect::{Effect, Extent, FileSize};
use bytes::Bytes;
use std::alloc::Global;

/// Makes effects, which have commas between them, one after another. None where a text says none, or there is no memory.
pub fn make<S: InodeStore>(alloc: Global, store: &mut S, effects: &str) -> Option<()> {
    for effect in effects.split_terminator(", ") {
        make_one(alloc, store, effect)?;
    }
    Some(())
}

fn make_one<S: InodeStore>(alloc: Global, store: &mut S, effect: &str) -> Option<()> {
    let effect = effect_of(alloc, effect)?;
    store.apply(&effect).ok()
}

/// The effect that a text says: `new_file INODE`, `new_dir INODE`, `free INODE`, `write INODE OFFSET TEXT`,
/// `set_len INODE SIZE`, `link DIRECTORY NAME INODE` or `unlink DIRECTORY NAME`.
pub fn effect_of(alloc: Global, text: &str) -> Option<Effect> {
    let (name, rest) = text.split_once(' ')?;
    match name {
        "write" => write_of(alloc, rest),
        "set_len" => set_len_of(rest),
        "link" => link_of(alloc, rest),
        "unlink" => unlink_of(alloc, rest),
        _ => whole_of(name, rest.parse::<u64>().ok()?),
    }
}

/// An effect that makes or frees an inode.
fn whole_of(name: &str, inode: u64) -> Option<Effect> {
    match name {
        "new_file" => Some(Effect::NewFile { inode }),
        "new_dir" => Some(Effect::NewDir { inode }),
        "free" => Some(Effect::Free { inode }),
        _ => None,
    }
}

fn write_of(alloc: Global, text: &str) -> Option<Effect> {
    let (inode, rest) = split_number(text)?;
    let (offset, text) = split_number(rest)?;
    let extent = extent_of(alloc, offset, text)?;
    Some(Effect::Write { inode, extent })
}

/// A few bytes near the beginning of a file: 1 to 9 of them, at an offset of at most 9.
pub fn extent_of(alloc: Global, offset: u64, text: &str) -> Option<Extent> {
    let bytes = Bytes::copy_from_slice(alloc, text.as_bytes()).ok()?;
    if offset <= 9 && !bytes.is_empty() && bytes.len() <= 9 {
        Some(Extent::new(offset as u32, bytes))
    } else {
        None
    }
}

fn set_len_of(text: &str) -> Option<Effect> {
    let (inode, rest) = split_number(text)?;
    let size = size_of(rest)?;
    Some(Effect::SetLen { inode, size })
}

/// The length that a text says, if a file may have it.
pub fn size_of(text: &str) -> Option<FileSize> {
    let bytes = text.parse::<u32>().ok()?;
    if u64::from(bytes) <= MOST_FILE_BYTES {
        Some(FileSize::new(bytes))
    } else {
        None
    }
}

fn link_of(alloc: Global, text: &str) -> Option<Effect> {
    let (directory, rest) = split_number(text)?;
    let (name, inode) = split_name(alloc, rest)?;
    let inode = inode.parse::<u64>().ok()?;
    Some(Effect::Link {
        directory,
        name,
        inode,
    })
}

fn unlink_of(alloc: Global, text: &str) -> Option<Effect> {
    let (directory, rest) = split_number(text)?;
    let name = Name::parse(alloc, rest).ok()?;
    Some(Effect::Unlink { directory, name })
}

/// The number in front, and what stands behind it.
pub fn split_number(text: &str) -> Option<(u64, &str)> {
    let (number, rest) = text.split_once(' ')?;
    Some((number.parse::<u64>().ok()?, rest))
}

/// The name in front, and what stands behind it.
pub fn split_name(alloc: Global, text: &str) -> Option<(Name, &str)> {
    let (name, rest) = text.split_once(' ')?;
    Some((Name::parse(alloc, name).ok()?, rest))
}
