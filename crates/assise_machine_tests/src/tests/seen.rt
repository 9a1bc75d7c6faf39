//! What a refused step leaves as it was.
use crate::tests::desk::Cluster;
use assise_digest::region::Region;
use std::alloc::AllocError;

/// The root, and the first inodes of two clients.
const INODES: &[u64] = &[0, 4_294_967_296, 4_294_967_297, 8_589_934_592];

/// Writes the history, and what two nodes have, in place of a text.
pub(crate) fn see(cluster: &Cluster, text: &mut String) -> Result<(), AllocError> {
    text.clear();
    let history = cluster.history();
    write!(text, "{history}")?;
    for node in 1..3 {
        if let Ok(region) = cluster.region(node) {
            put_region(region, text)?;
        }
    }
    Ok(())
}

/// Appends how many inodes may be hot, which are there, and the logs of two clients.
fn put_region(region: &Region, text: &mut String) -> Result<(), AllocError> {
    let capacity = region.hot_capacity();
    write!(text, "\nhot {capacity}")?;
    for inode in INODES {
        let there = region.peek(*inode).is_some();
        write!(text, " {there}")?;
    }
    for client in 1..3 {
        put_log(region, client, text)?;
    }
    Ok(())
}

fn put_log(region: &Region, client: usize, text: &mut String) -> Result<(), AllocError> {
    if client == 0 || region.clients() < client {
        return Ok(());
    }
    let (first, end) = (region.log(client).first(), region.log(client).end());
    let digested = region.digested(client);
    write!(text, " {first}..{end}, digested {digested}")
}
