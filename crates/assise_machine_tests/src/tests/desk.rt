//! A cluster, the links of its nodes, and the steps that were made on it.
use assise_fault_script::command::RevokerKind;
use assise_lease_table::revoker::Revokes;
use assise_link::test_link::TestLink;
use assise_machine::cluster::ClusterOf;
use assise_names::limits::MOST_NODES;
use assise_names::refusal::Refusal;
use assise_private_log::log_view::LogView;
use assise_revokers::kinds::{eights, least, whole};
use std::alloc::Global;
use std::array;

/// What a client answers when a lease is asked for: no closure is stored, so a cluster of such clients can be given away.
#[derive(Clone, Copy)]
pub(crate) struct Asked {
    pub(crate) kind: RevokerKind,
}

impl Revokes for Asked {
    ghost use Rattle.assise_private_log.specs.Touches.{Covers};

    ghost answers = { λ _ view inode cut. Covers view inode cut };

    fn cut(&self, view: &LogView, inode: u64) -> u64 {
        match self.kind {
            RevokerKind::Least => least(view, inode),
            RevokerKind::Whole => whole(view, inode),
            RevokerKind::Eights => eights(view, inode),
        }
    }
}

/// A cluster of such clients.
pub(crate) type Cluster = ClusterOf<Asked>;

/// A cluster; the link of each node from node 1 on; the revokers of clients that are opened, the last first; how many nodes there are;
/// the line of the last step, and what it came to; the steps that were made, a line each; and what was seen before a step and behind
/// it.
pub(crate) struct Desk {
    pub(crate) cluster: Cluster,
    pub(crate) links: [TestLink; MOST_NODES as usize],
    pub(crate) stock: Vec<Asked>,
    pub(crate) nodes: u32,
    pub(crate) line: String,
    pub(crate) outcome: String,
    pub(crate) steps: String,
    pub(crate) before: String,
    pub(crate) after: String,
}

// One call lets go of it, wherever it is owned.
impl Drop for Desk {
    fn drop(self) {
        let Desk {
            cluster: _,
            links: _,
            stock: _,
            nodes: _,
            line: _,
            outcome: _,
            steps: _,
            before: _,
            after: _,
        } = self;
    }
}

impl Desk {
    /// A desk of a cluster of one node.
    pub(crate) fn new(alloc: Global) -> Result<Desk, Refusal> {
        Ok(Desk {
            cluster: Cluster::new(alloc, 1, 8, 2)?,
            links: perfect_links(),
            stock: Vec::new(alloc),
            nodes: 1,
            line: String::new(alloc),
            outcome: String::new(alloc),
            steps: String::new(alloc),
            before: String::new(alloc),
            after: String::new(alloc),
        })
    }

    /// Begins anew with `nodes` nodes, whose clients' logs have at most `log` records, and at most `hot` hot inodes a node. None
    /// where there is no such cluster, or no memory.
    pub(crate) fn renew(
        &mut self,
        alloc: Global,
        nodes: u32,
        log: usize,
        hot: usize,
    ) -> Option<()> {
        self.cluster = cluster_of(alloc, nodes, log, hot)?;
        self.links = perfect_links();
        self.stock.clear();
        self.nodes = nodes;
        self.steps.clear();
        Some(())
    }
}

/// A link for each node that there may be, all perfect.
fn perfect_links() -> [TestLink; MOST_NODES as usize] {
    array::from_fn(|_| TestLink::perfect())
}

/// A cluster on which nothing happened. None where there is no such cluster, or no memory.
fn cluster_of(alloc: Global, nodes: u32, log: usize, hot: usize) -> Option<Cluster> {
    if nodes == 0 || nodes > MOST_NODES || log < 8 || log > 4096 || hot == 0 || hot > 4096 {
        return None;
    }
    Cluster::new(alloc, nodes, log, hot).ok()
}
