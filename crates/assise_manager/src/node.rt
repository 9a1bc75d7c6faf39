//! One node of the cluster.
ghost use Rattle.std.specs.Prelude.{◌≡◌, ℕ, ◌<◌, ◌≤◌, ◌^◌, ◌-◌, IsSome, Some, None, option_map, option_copied, IfOk, OnErr, OnOk, drop, length, map, true, vec_capacity};
ghost use Rattle.std.specs.FinSet as set;
ghost use Rattle.std.specs.List.{list_all};
ghost use Rattle.assise_manager.specs.Changes.{IsLowestOf, copied_as, is_returning, refilled_from, stale_again, stale_of, without_stale};
ghost use Rattle.assise_manager.specs.Membership.{all_inodes};
ghost use Rattle.assise_manager.specs.Seen.{listed_since, lowest_besides, standing, standing_or, has_node_room};
ghost use Rattle.assise_manager.specs.Standings.{is_full, full_nodes, standing_of, with_standing};

use crate::stale_set::StaleSet;
use crate::written_list::WrittenList;
use std::alloc::{AllocError, Global};

/// How a node stands, with what is known of it.
#[derive(Drop)]
pub(crate) enum Node {
    Full,
    /// With the epoch that its first failure began.
    Down(u64),
    Returning(Return),
}

/// What is known of a node that comes back.
#[derive(Drop)]
pub(crate) struct Return {
    /// The epoch that its first failure began.
    pub(crate) since: u64,
    /// The full node that it is filled from.
    pub(crate) donor: u32,
    /// The inodes that it may lack.
    pub(crate) stale: StaleSet,
}

impl Node {
    /// Whether it is full.
    pub(crate) fn is_full(&self) -> bool
        ensures { result ≡ is_full (standing self.now) }
    {
        matches!(self, Node::Full)
    }

    /// Makes room for `count` inodes more that are written at a node.
    pub(crate) fn reserve(&mut self, node: u32, count: usize) -> Result<(), AllocError>
        ensures same { standing self.new ≡ standing self.old }
        ensures room { OnOk result (has_node_room node count self.new ≡ true) }
    {
        if let Node::Returning(returning) = self {
            if returning.donor == node {
                return returning.stale.reserve(count);
            }
        }
        Ok(())
    }

    /// Inodes were written at a node. It takes no memory.
    pub(crate) fn note_reserved(&mut self, node: u32, inodes: &[u64])
        requires room { has_node_room node (length inodes.now) self.old ≡ true }
        ensures { standing self.new ≡ stale_again node (set.from_list inodes.now)
            (standing self.old) }
    {
        if let Node::Returning(returning) = self {
            if returning.donor == node {
                returning.stale.insert_reserved(inodes);
            }
        }
    }

    /// Lets the lowest inode that it may lack go, if there is one, and says how many are left.
    fn drop_lowest(&mut self) -> usize
        requires returning { is_returning (Some (standing self.old)) ≡ true }
        ensures copied { (inode : ℕ) → IsLowestOf (stale_of (Some (standing self.old)))
            (Some inode) → standing self.new ≡ without_stale inode (standing self.old) }
        ensures none { IsLowestOf (stale_of (Some (standing self.old))) None →
            standing self.new ≡ standing self.old }
        ensures returning { is_returning (Some (standing self.new)) ≡ true }
        ensures count { option_map set.len (stale_of (Some (standing self.new))) ≡ Some result }
    {
        match self {
            Node::Returning(returning) => {
                returning.stale.drop_lowest();
                returning.stale.len()
            }
            _ => unreachable!(),
        }
    }

    /// What is known of it once a full node failed, if that changes: who was filled from there starts over from another.
    fn started_over(&self, refill: &Refill<'_>) -> Result<Option<Return>, AllocError>
        ensures over { IfOk result (λ r. standing_or r (standing self.now) ≡ refilled_from
            (listed_since refill.now.lists.now refill.now.first) refill.now.donor refill.now.failed
            (standing self.now)) }
    {
        let Node::Returning(returning) = self else {
            return Ok(None);
        };
        if returning.donor != refill.failed {
            return Ok(None);
        }
        let lists = written_since(refill.lists, refill.first, returning.since);
        Ok(Some(Return {
            since: returning.since,
            donor: refill.donor,
            stale: StaleSet::of(refill.alloc, lists)?,
        }))
    }
}

/// What nodes that were filled from a failed one start over with.
#[derive(Drop)]
pub(crate) struct Refill<'a> {
    pub(crate) alloc: Global,
    /// The node that failed.
    pub(crate) failed: u32,
    /// The full node that they are filled from now.
    pub(crate) donor: u32,
    /// The inodes that were written in each epoch from the first that has a list.
    pub(crate) lists: &'a [WrittenList],
    pub(crate) first: u64,
}

/// The lists of the epochs from one on, where the first list is that of another.
pub(crate) fn written_since(lists: &[WrittenList], first: u64, since: u64) -> &[WrittenList]
    ensures { result.now ≡ drop (since - first) lists.now }
{
    let passed = since.saturating_sub(first).min(lists.len() as u64);
    let (_, lists) = lists.split_at(passed as usize);
    lists
}

/// Nodes that were filled from a failed one start over from another. Where there is no memory nothing changes.
pub(crate) fn refill_all(nodes: &mut [Node], refill: &Refill<'_>) -> Result<(), AllocError>
    ensures len { length nodes.new ≡ length nodes.old }
    ensures ok { OnOk result (map standing nodes.new ≡ map
        (refilled_from (listed_since refill.now.lists.now refill.now.first) refill.now.donor
        refill.now.failed) (map standing nodes.old)) }
    ensures err { OnErr result (map standing nodes.new ≡ map standing nodes.old) }
{
    let Some((node, rest)) = nodes.split_first_mut() else {
        return Ok(());
    };
    let over = node.started_over(refill)?;
    refill_all(rest, refill)?;
    if let Some(over) = over {
        *node = Node::Returning(over);
    }
    Ok(())
}

/// Makes room for `count` inodes more that are written at a node.
pub(crate) fn reserve_all(nodes: &mut [Node], node: u32, count: usize) -> Result<(), AllocError>
    ensures len { length nodes.new ≡ length nodes.old }
    ensures same { map standing nodes.new ≡ map standing nodes.old }
    ensures room { OnOk result (list_all (has_node_room node count) nodes.new ≡ true) }
{
    let Some((first, rest)) = nodes.split_first_mut() else {
        return Ok(());
    };
    first.reserve(node, count)?;
    reserve_all(rest, node, count)
}

/// Inodes were written at a node. It takes no memory.
pub(crate) fn note_all(nodes: &mut [Node], node: u32, inodes: &[u64])
    requires room { list_all (has_node_room node (length inodes.now)) nodes.old ≡ true }
    ensures len { length nodes.new ≡ length nodes.old }
    ensures nodes { map standing nodes.new ≡ map (stale_again node (set.from_list inodes.now))
        (map standing nodes.old) }
{
    for one in nodes.iter_mut() {
        one.note_reserved(node, inodes);
    }
}

/// Lists the numbers of the full nodes anew. It takes no memory.
pub(crate) fn list_full(full: &mut Vec<u32>, nodes: &[Node])
    requires few { length nodes.now < 2 ^ 32 }
    requires room { length nodes.now ≤ vec_capacity full.old }
    ensures full { full.new.items ≡ full_nodes (map standing nodes.now) }
    ensures capacity { vec_capacity full.old ≤ vec_capacity full.new }
{
    full.clear();
    let mut number = 0;
    for node in nodes {
        number += 1;
        if node.is_full() {
            full.push_reserved(number);
        }
    }
}

/// The node of a number, which counts from 1.
pub(crate) fn node_at(nodes: &[Node], node: u32) -> Option<&Node>
    ensures { option_map standing (option_copied result) ≡ standing_of
        (map standing nodes.now) node }
{
    nodes.get((node as usize).checked_sub(1)?)
}

/// Lets a node stand otherwise.
pub(crate) fn put(nodes: &mut [Node], node: u32, now: Node)
    requires there { IsSome (standing_of (map standing nodes.old) node) }
    ensures len { length nodes.new ≡ length nodes.old }
    ensures nodes { map standing nodes.new ≡ with_standing (map standing nodes.old) node
        (standing now) }
{
    nodes[node as usize - 1] = now;
}

/// Lets the lowest inode that a node may lack go, if there is one, and says how many are left.
pub(crate) fn drop_lowest(nodes: &mut [Node], node: u32) -> usize
    requires returning { is_returning (standing_of (map standing nodes.old) node) ≡ true }
    ensures len { length nodes.new ≡ length nodes.old }
    ensures copied { (inode : ℕ) → IsLowestOf (stale_of (standing_of (map standing nodes.old) node))
        (Some inode) → map standing nodes.new ≡ copied_as (map standing nodes.old) node inode
        (standing_of (map standing nodes.old) node) }
    ensures none { IsLowestOf (stale_of (standing_of (map standing nodes.old) node)) None →
        map standing nodes.new ≡ map standing nodes.old }
    ensures away { full_nodes (map standing nodes.new) ≡ full_nodes (map standing nodes.old) }
    ensures count { option_map set.len (stale_of (standing_of (map standing nodes.new) node)) ≡
        Some result }
{
    nodes[node as usize - 1].drop_lowest()
}

/// The lowest of some full nodes besides one.
pub(crate) fn lowest_besides(full: &[u32], node: u32) -> u32
    requires others { 1 < length full.now }
    ensures { result ≡ lowest_besides full.now node }
{
    if full[0] == node { full[1] } else { full[0] }
}
