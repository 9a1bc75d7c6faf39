//! Copies of inodes that a node loses.
ghost use Rattle.std.specs.Prelude.{◌≡◌, [], Some, true};
ghost use Rattle.std.specs.FinSet as set;
ghost use Rattle.assise_manager.specs.Changes.{is_returning, stale_of};
ghost use Rattle.assise_manager.specs.Standings.{standing_of};
ghost use Rattle.assise_machine_state.specs.NodeValues.{region_in};
ghost use Rattle.assise_machine_state.specs.Places.{IsNumber};
ghost use Rattle.assise_machine_state.specs.Invariant.{ShapeInvariant};
ghost use Rattle.assise_machine_state.specs.StateValues.{standings};
ghost use Rattle.assise_machine_state.specs.Whole.{value_of};
ghost use Rattle.assise_machine_failures.specs.Copies.{LosesStale, nodes_without};

use assise_lease_table::revoker::Revokes;
use assise_machine_state::nodes::Nodes;
use assise_machine_state::state::StateOf;
use std::collections::VecDeque;

/// A node that comes back loses its copies of the inodes that it may lack. It takes no memory.
pub(crate) fn drop_copies<C: Revokes + Drop>(state: &mut StateOf<C>, node: u32)
    requires returning { is_returning (standing_of (standings (value_of state.old)) node) ≡ true }
    requires shape { ShapeInvariant (value_of state.old) }
    ensures copies { LosesStale (value_of state.old) node (value_of state.new) }
    ensures leases { state.new.leases ≡ state.old.leases }
{
    let Ok(stale) = state.members.stale(node) else {
        return;
    };
    drop_all(&mut state.nodes, node, stale);
}

/// A node that has no logs loses its copies of inodes.
fn drop_all(nodes: &mut Nodes, node: u32, inodes: &VecDeque<u64>)
    requires node { IsNumber nodes.old node }
    requires no_logs { (region_in nodes.old node).logs ≡ [] }
    ensures { nodes.new ≡ nodes_without nodes.old node inodes.now.items }
{
    for inode in inodes {
        nodes.stale(node, *inode);
    }
}
