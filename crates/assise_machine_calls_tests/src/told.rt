//! What is told of a cluster.
use crate::steps::Sound;
use assise_inode_table::inode::Inode;
use assise_inode_table::inodes::Inodes;
use std::alloc::AllocError;

/// Appends a client's home, how many of its calls were answered and how many inodes it made, the place up to which its log is to
/// be replicated, and those up to which it ends, is replicated and is digested by all.
pub(crate) fn put_client(sound: &Sound, client: u32, text: &mut String) -> Result<(), AllocError> {
    let state = &sound.state;
    if client == 0 || client as usize > state.clients.len() {
        return Ok(());
    }
    let known = state.clients.get(client);
    let (calls, made, goal) = (known.next(), known.made(), known.goal());
    let end = state.own_log(client).end();
    let (acked, digested) = (state.acked(client), state.digested(client));
    write!(
        text,
        "\n{calls} calls, {made} made, {goal} {end} {acked} {digested}"
    )
}

/// Appends what an inode is as a client reads it at its home.
pub(crate) fn put_view(
    sound: &Sound,
    client: u32,
    inode: u64,
    text: &mut String,
) -> Result<(), AllocError> {
    let state = &sound.state;
    if client == 0
        || client as usize > state.clients.len()
        || state.clients.get(client).has_failed()
    {
        return Ok(());
    }
    let found = state.view(client).get(inode).map(Inode::describe);
    write!(text, " {found:?}")
}
