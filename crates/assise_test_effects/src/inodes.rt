//! Inodes as text.
use assise_inode_table::directory::Directory;
use assise_inode_table::file_bytes::FileBytes;
use assise_inode_table::inode::Inode;
use assise_inode_table::inodes::Inodes;
use assise_names::name::Name;
use assise_names::reply::TreeError;
use std::alloc::{AllocError, Global};

/// Appends each inode with a number up to 11: the number, and what [`put_inode`] says. None where there is no memory, or an
/// inode that can't be told.
pub fn put_inodes<I: Inodes>(alloc: Global, text: &mut String, inodes: &I) -> Option<()> {
    for number in 0..12 {
        if let Some(inode) = inodes.get(number) {
            put_number(text, number).ok()?;
            put_inode(alloc, text, inode)?;
        }
    }
    Some(())
}

fn put_number(text: &mut String, number: u64) -> Result<(), AllocError> {
    write!(text, " {number}")
}

/// Appends what a stat says of an inode, and its bytes, which are text, or its links.
pub fn put_inode(alloc: Global, text: &mut String, inode: &Inode) -> Option<()> {
    put_description(text, inode).ok()?;
    put_content(alloc, text, inode)?;
    text.push(';').ok()
}

fn put_description(text: &mut String, inode: &Inode) -> Result<(), AllocError> {
    let description = inode.describe();
    write!(text, " {description}")
}

fn put_content(alloc: Global, text: &mut String, inode: &Inode) -> Option<()> {
    match (inode.file(), inode.directory()) {
        (Ok(file), Err(TreeError::NotDir)) => put_bytes(alloc, text, file),
        (Err(TreeError::IsDir), Ok(directory)) => put_links(alloc, text, inode, directory),
        _ => None,
    }
}

fn put_bytes(alloc: Global, text: &mut String, file: &FileBytes) -> Option<()> {
    if file.is_empty() {
        return Some(());
    }
    let bytes = file.read(alloc, 0, file.len() as u64).ok()?;
    put_word(text, str::from_utf8(bytes.as_slice()).ok()?).ok()
}

fn put_word(text: &mut String, word: &str) -> Result<(), AllocError> {
    write!(text, " {word}")
}

fn put_links(alloc: Global, text: &mut String, inode: &Inode, directory: &Directory) -> Option<()> {
    if directory.is_empty() {
        return Some(());
    }
    let names = directory.names(alloc).ok()?;
    put_links_of(text, inode, directory, names.as_slice())
}

fn put_links_of(
    text: &mut String,
    inode: &Inode,
    directory: &Directory,
    names: &[Name],
) -> Option<()> {
    for name in names {
        if directory.get(name) == inode.link(name).ok() {
            put_link(text, name, directory.get(name)?).ok()?;
        }
    }
    Some(())
}

fn put_link(text: &mut String, name: &Name, inode: u64) -> Result<(), AllocError> {
    write!(text, " {name}:{inode}")
}
