//! What a client reads.
ghost use Rattle.std.specs.Prelude.{◌≡◌};
ghost use Rattle.assise_lease_table.specs.Leases.{lease_of, serves};
ghost use Rattle.assise_lease_tree.specs.Trees.{levels_of};

use assise_digest::overlay::Overlay;
use assise_inode_plan::view::View;
use assise_inode_table::inode::Inode;
use assise_inode_table::inodes::Inodes;
use assise_lease_table::revoker::Revokes;
use assise_lease_tree::lease_tree::LeaseTreeOf;
use assise_names::mode::Mode;

/// Inodes as a client reads them at its home, with its leases: its records that aren't digested stand over the node's inodes. No
/// log is replayed: a look-up costs one in what the records make, and one in the inodes.
#[derive(Drop)]
pub struct ClientView<'a, C> {
    /// The client.
    pub client: u32,
    /// The inodes.
    pub inodes: Overlay<'a>,
    /// The leases of all.
    pub leases: &'a LeaseTreeOf<C>,
}

impl<C: Revokes + Drop> Inodes for ClientView<'_, C> {
    ghost contents = { λ view. view.inodes };

    fn get(&self, inode: u64) -> Option<&Inode> {
        self.inodes.get(inode)
    }
}

impl<C: Revokes + Drop> View for ClientView<'_, C> {
    ghost leased = { λ view inode mode. serves (lease_of ((levels_of view.leases.now).clients inode) view.client) mode };

    fn leases(&self, inode: u64, mode: Mode) -> bool {
        self.leases.holds(self.client, inode, mode)
    }
}
