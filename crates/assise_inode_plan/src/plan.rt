//! Plans of calls.
ghost use Rattle.std.specs.Prelude.{◌≡◌, ◌≤◌, IfOk, IsOkUnless, None, OnErr, [], length};
ghost use Rattle.std.specs.FinMap as map;
ghost use Rattle.assise_inode_plan.specs.Leased.{NotesAVisit};
ghost use Rattle.assise_inode_plan.specs.Planning.{PlanAnswers, IsWritable, changed_plan_of, effects_planned, plan_of, shown, visited_plan_of};
ghost use Rattle.assise_inode_plan.specs.Walking.{plan_from};
ghost use Rattle.assise_inode_table.specs.Calls.{interaction, step};
ghost use Rattle.assise_inode_table.specs.Contents.{Values, values};
ghost use Rattle.assise_inode_table.specs.Interaction.{visits_of};
ghost use Rattle.assise_inode_table.specs.Spelled.{Spells};
ghost use Rattle.assise_inode_table.specs.Whole.{CanBeMadeWhole};
ghost use Rattle.assise_names.specs.declared.refusal.Refusal.TheVariants.{OutOfMemory};
ghost use Rattle.assise_seq_tree.specs.Answer.{answer};
ghost use Rattle.assise_seq_tree.specs.Tree.{Tree};

use crate::creation::{plan_create, plan_mkdir};
use crate::ending::answered;
use crate::file_changes::{plan_truncate, plan_write};
use crate::queries::{plan_list, plan_read, plan_stat};
use crate::removal::{plan_rmdir, plan_unlink};
use crate::renaming::plan_rename;
use crate::view::{View, first_unleased};
use assise_names::call::Op;
use assise_names::mode::Mode;
use assise_names::refusal::Refusal;
use assise_names::reply::Reply;
use assise_record::effect::Effect;
use smallvec::SmallVec;
use std::alloc::{AllocError, Global};

/// How many visits lie in the value itself: few calls make more.
const USUAL_VISITS: usize = 8;

/// The numbers of the inodes that a call visits, in order.
pub type Visits = SmallVec<u64, USUAL_VISITS>;

/// What comes of a call that has its leases.
#[derive(Debug, Drop)]
pub struct Outcome {
    /// What it answers.
    pub reply: Reply,
    /// The inodes that it visits, in order.
    pub reads: Visits,
    /// What it does, in order.
    pub effects: Vec<Effect>,
}

/// What is planned for a call.
#[derive(Debug, Drop)]
pub enum Planned {
    /// What it needs leased is leased.
    Ready(Outcome),
    /// The first inode that isn't leased as the call needs it.
    Missing(u64, Mode),
}

/// Plans a call over leased inodes. Nothing is changed.
///
/// The plan is [`Planned::Missing`] with the first inode that the call visits, in the order of the visits, and that
/// isn't leased for reading, or else that it changes, in the order of the effects, and that isn't leased for writing;
/// the value of an inode that isn't leased is never looked at. Else it is [`Planned::Ready`].
///
/// A path is walked from the root, inode 0, name by name. Before each name a file is [`TreeError::NotDir`], and a
/// directory without the name [`TreeError::NoEnt`]. Each inode that is reached is visited. The checks of each call are
/// made in this order, and none after the first that fails; an error has no effects.
///
/// - [`Op::Create`]: the root is [`TreeError::Exists`]; the walk to the parent, which has to be a directory
///   ([`TreeError::NotDir`]); a name that is there is [`TreeError::Exists`], and isn't visited; a parent of 4,096
///   entries is [`TreeError::DirFull`]. The new file is inode `fresh`.
/// - [`Op::Mkdir`]: as [`Op::Create`]. The new directory is inode `fresh`.
/// - [`Op::Read`]: the walk; a directory is [`TreeError::IsDir`]. At or past the end there are no bytes.
/// - [`Op::Write`]: the walk; a directory is [`TreeError::IsDir`]; where the offset plus the count of the bytes is over
///   1,048,576, without bytes too, it is [`TreeError::TooBig`]. Without bytes there is no effect.
/// - [`Op::Truncate`]: the walk; a directory is [`TreeError::IsDir`]; a size over 1,048,576 is [`TreeError::TooBig`].
/// - [`Op::Rename`]: the root, as either path, is [`TreeError::Invalid`], and so is a move of a path to one below it,
///   whatever stands there; the walk to the first path's parent and on to the entry, which is visited; the walk to the
///   other's parent, which has to be a directory ([`TreeError::NotDir`]). Where both paths are the same, it is done,
///   without effects and without a further visit. What stands at the other path is visited, and replaced: a directory in
///   the way of a file is [`TreeError::IsDir`], a file in the way of a directory [`TreeError::NotDir`], a directory with
///   entries in the way of another [`TreeError::NotEmpty`]. Where nothing stands there, another directory of 4,096 entries is
///   [`TreeError::DirFull`]. The effects are, where something is replaced, its entry taken out and its inode freed;
///   then the old entry taken out; then the new entry made. The moved inode is visited and not changed.
/// - [`Op::Unlink`]: the root is [`TreeError::IsDir`]; the walk to the parent and on to the entry, which is visited; a
///   directory is [`TreeError::IsDir`]. The entry is taken out of its parent before its inode is freed.
/// - [`Op::Rmdir`]: the root is [`TreeError::Invalid`]; the walk as for [`Op::Unlink`]; a file is
///   [`TreeError::NotDir`]; a directory with entries is [`TreeError::NotEmpty`]. The effects are as those of
///   [`Op::Unlink`].
/// - [`Op::List`]: the walk; a file is [`TreeError::NotDir`]. The names ascend by their bytes.
/// - [`Op::Stat`]: the walk.
/// - [`Op::Fsync`], [`Op::Dsync`]: no check, no visit and no effect; it is done.
///
/// The one refusal is [`Refusal::OutOfMemory`]. Memory is asked for only where the first inode that the call visits is
/// leased: what visits nothing, as [`Op::Fsync`] and a change of the root itself, is answered without, and so is a
/// missing lease of the root. There are at most four effects, and they can be made all or none without a copy (see
/// [`apply_all`](assise_inode_table::whole::apply_all)).
pub fn plan<V: View>(alloc: Global, view: &V, op: &Op, fresh: u64) -> Result<Planned, Refusal>
    requires one_write { IsWritable op.now }
    ensures exact { IfOk result (λ p. shown p ≡ plan_of (V.leased view.now)
        (step (values (V.contents view.now)) op.now fresh)) }

    // Over inodes that spell a tree the reply is the tree's, and after the effects they spell the tree after the call.
    ensures answers { (t : Tree) → Spells (values (V.contents view.now)) t →
        map.get (V.contents view.now) fresh ≡ None →
        IfOk result (λ p. PlanAnswers (values (V.contents view.now)) (answer t op.now) (shown p)) }
    ensures few_effects { IfOk result (λ p. length (effects_planned (shown p)) ≤ 4) }
    ensures whole { IfOk result (λ p. CanBeMadeWhole (effects_planned (shown p))) }
    ensures asked { OnErr result (NotesAVisit (V.leased view.now)
        (step (values (V.contents view.now)) op.now fresh).visits) }
    ensures only_memory { IsOkUnless result OutOfMemory }
{
    let planned = plan_by_visits(alloc, view, op, fresh)?;
    Ok(plan_changes(view, planned))
}

/// Plans a call by its visits alone: what it changes needn't be leased. Nothing is changed.
///
/// The plan is [`Planned::Missing`] with the first inode that the call visits, in the order of the visits, and that isn't
/// leased for reading; the value of an inode that isn't leased is never looked at. Else it is [`Planned::Ready`], with all
/// that [`plan`] says; [`first_unleased`] then names what it changes and isn't leased for writing.
///
/// It asks for memory where [`plan`] has it.
pub fn plan_by_visits<V: View>(
    alloc: Global,
    view: &V,
    op: &Op,
    fresh: u64,
) -> Result<Planned, AllocError>
    requires one_write { IsWritable op.now }
    ensures exact { IfOk result (λ p. shown p ≡ visited_plan_of (V.leased view.now)
        (step (values (V.contents view.now)) op.now fresh)) }

    // Over inodes that spell a tree the reply is the tree's, and after the effects they spell the tree after the call.
    ensures answers { (t : Tree) → Spells (values (V.contents view.now)) t →
        map.get (V.contents view.now) fresh ≡ None →
        IfOk result (λ p. PlanAnswers (values (V.contents view.now)) (answer t op.now) (shown p)) }
    ensures few_effects { IfOk result (λ p. length (effects_planned (shown p)) ≤ 4) }
    ensures whole { IfOk result (λ p. CanBeMadeWhole (effects_planned (shown p))) }
    ensures asked { OnErr result (NotesAVisit (V.leased view.now)
        (step (values (V.contents view.now)) op.now fresh).visits) }
{
    plan_call(alloc, view, op, fresh)
}

/// A plan by visits, or the first inode that it changes and that isn't leased for writing.
fn plan_changes<V: View>(view: &V, planned: Planned) -> Planned
    ensures { shown result ≡ changed_plan_of (V.leased view.now) (shown planned) }
{
    let Planned::Ready(outcome) = &planned else {
        return planned;
    };
    match first_unleased(view, outcome.effects.as_slice()) {
        Some(inode) => Planned::Missing(inode, Mode::Write),
        None => planned,
    }
}

/// Plans a call from its first visit on.
fn plan_call<V: View>(alloc: Global, view: &V, op: &Op, fresh: u64) -> Result<Planned, AllocError>
    requires one_write { IsWritable op.now }
    ensures exact { IfOk result (λ p. shown p ≡ plan_from (V.leased view.now)
        (values (V.contents view.now)) [] (interaction op.now fresh)) }
    ensures asked { OnErr result (NotesAVisit (V.leased view.now)
        (visits_of (values (V.contents view.now)) (interaction op.now fresh))) }
{
    match op {
        Op::Create(path) => plan_create(alloc, view, path.names(), fresh),
        Op::Mkdir(path) => plan_mkdir(alloc, view, path.names(), fresh),
        Op::Read(path, offset, length) => plan_read(alloc, view, path.names(), *offset, *length),
        Op::Write(path, offset, new) => { plan_write(alloc, view, path.names(), *offset, new) }
        Op::Truncate(path, size) => plan_truncate(alloc, view, path.names(), *size),
        Op::Rename(from, to) => plan_rename(alloc, view, from, to),
        Op::Unlink(path) => plan_unlink(alloc, view, path.names()),
        Op::Rmdir(path) => plan_rmdir(alloc, view, path.names()),
        Op::List(path) => plan_list(alloc, view, path.names()),
        Op::Stat(path) => plan_stat(alloc, view, path.names()),
        Op::Fsync => Ok(answered(alloc, Reply::Done, Visits::new(alloc))),
        Op::Dsync => Ok(answered(alloc, Reply::Done, Visits::new(alloc))),
    }
}
