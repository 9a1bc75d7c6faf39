//! Walks along paths over leased inodes.
ghost use Rattle.std.specs.Prelude.{◌≡◌, ◌≤◌, ◌++◌, ◌∷◌, IfOk, MatchResult, OnErr, Option, [], length, option_copied, take, true, ℕ};
ghost use Rattle.assise_inode_plan.specs.Walking.{EndsAt, plan_from, plan_stopped};
ghost use Rattle.assise_inode_table.specs.Calls.{walk, walk_from, walk_to_entry};
ghost use Rattle.assise_inode_table.specs.Contents.{Content, values};
ghost use Rattle.assise_inode_table.specs.Interaction.{Interaction, visit};
ghost use Rattle.assise_inode_table.specs.Reach.{link_of};
ghost use Rattle.assise_names.specs.declared.mode.Mode.TheVariants.{Read};

use crate::plan::Visits;
use crate::view::{View, look_at};
use assise_inode_table::inode::Inode;
use assise_inode_table::table::ROOT;
use assise_names::mode::Mode;
use assise_names::name::Name;
use assise_names::reply::TreeError;
use std::alloc::AllocError;

/// Why a walk ends early.
#[derive(Clone, Copy, Debug)]
pub(crate) enum Stop {
    /// A name on the way has a fault.
    Fault(TreeError),
    /// The inode isn't leased for reading.
    Unleased(u64),
}

/// An entry of a directory.
#[derive(Clone, Copy, Debug)]
pub(crate) struct Entry<'a> {
    /// The number of the directory.
    pub(crate) directory: u64,
    /// What the directory holds.
    pub(crate) parent: &'a Inode,
    /// How many visits led to the directory, the last of which is its own.
    pub(crate) visits: usize,
    /// The number of the inode that the entry links to.
    pub(crate) inode: u64,
    /// What that inode holds.
    pub(crate) content: &'a Inode,
}

/// Walks from the root along a path, and notes each inode that it visits. It ends at an inode, with what that holds.
pub(crate) fn walk<'a, V: View>(
    view: &'a V,
    names: &[Name],
    reads: &mut Visits,
) -> Result<Result<(u64, &'a Inode), Stop>, AllocError>
    ensures left { IfOk result (λ end. (next : ℕ → Content → Interaction) →
        MatchResult end (λ r. plan_from (V.leased view.now)
        (values (V.contents view.now)) reads.old.items (walk names.now next) ≡ plan_from
        (V.leased view.now) (values (V.contents view.now)) reads.new.items (next r.0 r.1.now))
        (λ stop. plan_from (V.leased view.now) (values (V.contents view.now)) reads.old.items
        (walk names.now next) ≡ plan_stopped reads.new.items stop)) }
    ensures seen { IfOk result (λ end. IfOk end (λ _. V.leased view.now 0 Read ≡ true)) }
    ensures asked { OnErr result (V.leased view.now 0 Read ≡ true) }
{
    let mut at = ROOT;
    for name in names {
        let value = match visit(view, at, reads)? {
            Ok(value) => value,
            Err(stop) => return Ok(Err(stop)),
        };
        match link(value, name) {
            Ok(next) => at = next,
            Err(error) => return Ok(Err(Stop::Fault(error))),
        }
    }
    match reach(view, at, reads)? {
        Ok(inode) => Ok(Ok((at, inode))),
        Err(stop) => Ok(Err(stop)),
    }
}

/// Walks from the root to a directory, and on to the inode that its entry links to. Both are visited.
pub(crate) fn walk_to_entry<'a, V: View>(
    view: &'a V,
    parent: &[Name],
    name: &Name,
    reads: &mut Visits,
) -> Result<Result<Entry<'a>, Stop>, AllocError>
    ensures left { IfOk result (λ end. (next : ℕ → ℕ → Content → Interaction) →
        MatchResult end (λ e. plan_from (V.leased view.now)
        (values (V.contents view.now)) reads.old.items (walk_to_entry parent.now name.now next) ≡
        plan_from (V.leased view.now) (values (V.contents view.now)) reads.new.items
        (next e.directory e.inode e.content.now))
        (λ stop. plan_from (V.leased view.now) (values (V.contents view.now)) reads.old.items
        (walk_to_entry parent.now name.now next) ≡ plan_stopped reads.new.items stop)) }
    ensures walked { IfOk result (λ end. IfOk end (λ e. EndsAt (V.leased view.now)
        (values (V.contents view.now)) reads.old.items parent.now
        (take e.visits reads.new.items) e.directory e.parent.now)) }
    ensures visits { IfOk result (λ end. IfOk end (λ e. e.visits ≤ length reads.new.items)) }
    ensures seen { IfOk result (λ end. IfOk end (λ _. V.leased view.now 0 Read ≡ true)) }
    ensures asked { OnErr result (V.leased view.now 0 Read ≡ true) }
{
    let (directory, found) = match walk(view, parent, reads)? {
        Ok(reached) => reached,
        Err(stop) => return Ok(Err(stop)),
    };
    let visits = reads.len();
    let inode = match found.link(name) {
        Ok(inode) => inode,
        Err(error) => return Ok(Err(Stop::Fault(error))),
    };
    match reach(view, inode, reads)? {
        Ok(content) => Ok(Ok(Entry {
            directory,
            parent: found,
            visits,
            inode,
            content,
        })),
        Err(stop) => Ok(Err(stop)),
    }
}

/// Visits the inode that a walk ends at: it has to be there.
pub(crate) fn reach<'a, V: View>(
    view: &'a V,
    inode: u64,
    reads: &mut Visits,
) -> Result<Result<&'a Inode, Stop>, AllocError>
    ensures left { IfOk result (λ end. (next : ℕ → Content → Interaction) →
        MatchResult end (λ r. plan_from (V.leased view.now)
        (values (V.contents view.now)) reads.old.items (walk_from inode [] next) ≡ plan_from
        (V.leased view.now) (values (V.contents view.now)) reads.new.items (next inode r.now))
        (λ stop. plan_from (V.leased view.now) (values (V.contents view.now)) reads.old.items
        (walk_from inode [] next) ≡ plan_stopped reads.new.items stop)) }
    ensures noted { IfOk result (λ end. IfOk end
        (λ _. reads.new.items ≡ reads.old.items ++ inode ∷ [])) }
    ensures seen { IfOk result (λ end. IfOk end (λ _. V.leased view.now inode Read ≡ true)) }
    ensures asked { OnErr result (V.leased view.now inode Read ≡ true) }
{
    match visit(view, inode, reads)? {
        Ok(Some(content)) => Ok(Ok(content)),
        Ok(None) => Ok(Err(Stop::Fault(TreeError::NoEnt))),
        Err(stop) => Ok(Err(stop)),
    }
}

/// Visits an inode: where it is leased for reading it is noted, and looked at.
fn visit<'a, V: View>(
    view: &'a V,
    inode: u64,
    reads: &mut Visits,
) -> Result<Result<Option<&'a Inode>, Stop>, AllocError>
    ensures left { IfOk result (λ end. (next : Option Content → Interaction) →
        MatchResult end (λ value. plan_from (V.leased view.now)
        (values (V.contents view.now)) reads.old.items (visit inode next) ≡ plan_from
        (V.leased view.now) (values (V.contents view.now)) reads.new.items
        (next (option_copied value))) (λ stop. plan_from (V.leased view.now)
        (values (V.contents view.now)) reads.old.items (visit inode next) ≡
        plan_stopped reads.new.items stop)) }
    ensures noted { IfOk result (λ end. IfOk end
        (λ _. reads.new.items ≡ reads.old.items ++ inode ∷ [])) }
    ensures seen { IfOk result (λ end. IfOk end (λ _. V.leased view.now inode Read ≡ true)) }
    ensures asked { OnErr result (V.leased view.now inode Read ≡ true) }
{
    if !view.leases(inode, Mode::Read) {
        return Ok(Err(Stop::Unleased(inode)));
    }
    reads.push(inode)?;
    Ok(Ok(look_at(view, inode)))
}

/// The inode that a name links to from what was visited.
fn link(value: Option<&Inode>, name: &Name) -> Result<u64, TreeError>
    ensures { result ≡ link_of (option_copied value.entry) name.now }
{
    match value {
        Some(directory) => directory.link(name),
        None => Err(TreeError::NoEnt),
    }
}
