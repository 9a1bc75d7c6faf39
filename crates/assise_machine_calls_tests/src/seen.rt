//! What a refused call leaves as it was.
use crate::steps::Sound;
use crate::told::{put_client, put_view};
use assise_inode_table::inode::Inode;
use std::alloc::{AllocError, Global};

/// The root, and the first inodes of two clients.
const INODES: &[u64] = &[
    0,
    4_294_967_296,
    4_294_967_297,
    4_294_967_298,
    8_589_934_592,
];

/// The history, the numbers of each client, what clients read and nodes have, and which leases are revoked. It takes memory once. Of
/// the other leases nothing is told: a refused call may have got some.
pub(crate) fn seen(alloc: Global, sound: &Sound) -> Result<String, AllocError> {
    let mut text = String::with_capacity(alloc, 4096)?;
    let history = sound.history();
    write!(text, "{history}")?;
    for place in 1..4 {
        put_client(sound, place, &mut text)?;
        put_region(sound, place, &mut text)?;
    }
    for inode in INODES {
        put_inode(sound, *inode, &mut text)?;
    }
    Ok(text)
}

/// Appends how many clients have a log at a node, and which inodes it has.
fn put_region(sound: &Sound, node: u32, text: &mut String) -> Result<(), AllocError> {
    if let Ok(region) = sound.region(node) {
        let clients = region.clients();
        write!(text, "\n{clients} clients")?;
        for inode in INODES {
            let found = region.peek(*inode).map(Inode::describe);
            write!(text, " {found:?}")?;
        }
    }
    Ok(())
}

/// Appends what three clients read of an inode, and whose lease is revoked.
fn put_inode(sound: &Sound, inode: u64, text: &mut String) -> Result<(), AllocError> {
    for client in 1..4 {
        put_view(sound, client, inode, text)?;
    }
    for lease in sound.state.leases.leases(inode) {
        if lease.revoked {
            let client = lease.holder;
            write!(text, " revoked {client}")?;
        }
    }
    Ok(())
}
