//! The numbers of inodes.
ghost use Rattle.std.specs.Prelude.{◌≡◌, ◌^◌, ◌<◌};
ghost use Rattle.assise_inode_table.specs.Numbers.{inode_number};

/// The number of the inode that a client makes when it has made `count` before, those of lost calls too. Clients are
/// numbered from 1, so that the root is nobody's.
pub fn inode_number(client: u32, count: u64) -> u64
    requires few { count < 2 ^ 32 }
    ensures { result ≡ inode_number client count }
{
    (1 << 32) * client as u64 + count
}
