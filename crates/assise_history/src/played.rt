//! The kept calls of a prefix, with the tree that they leave.
ghost use Rattle.std.specs.Prelude.{◌≡◌, ◌++◌, ◌∷◌, [], IfOk, IsOkUnless};
ghost use Rattle.assise_history.specs.Kept.{kept_more};
ghost use Rattle.assise_history.specs.Played.{IsPlayed, Goes, played_calls};
ghost use Rattle.assise_names.specs.declared.refusal.Refusal.TheVariants.{OutOfMemory};

use crate::call::Call;
use crate::entry::{Entry, EntryKind};
use crate::kept::drop_lost;
use crate::replay::{is_answer, replay};
use assise_names::refusal::Refusal;
use assise_seq_tree::answer::answer;
use assise_seq_tree::tree::Tree;
use std::alloc::Global;

/// The kept calls, and the tree after them.
#[derive(Drop)]
pub(crate) struct Played<'a> {
    pub(crate) calls: Vec<&'a Call>,
    pub(crate) tree: Tree,
}

impl<'a> Played<'a> {
    pub(crate) fn new(alloc: Global) -> Played<'a>
        ensures calls { played_calls result ≡ [] }
        ensures played { IsPlayed result }
    {
        Played {
            calls: Vec::new(alloc),
            tree: Tree::new(alloc),
        }
    }

    /// Takes an entry in, and says whether the kept calls still are a run.
    pub(crate) fn take(&mut self, alloc: Global, entry: &'a Entry) -> Result<bool, Refusal>
        requires { IsPlayed self.old }
        ensures ok { IfOk result (λ yes. Goes yes
            (kept_more (played_calls self.old) entry.now) self.new) }
        ensures only_memory { IsOkUnless result OutOfMemory }
    {
        match entry.kind() {
            EntryKind::Call(call) => self.play(alloc, call),
            EntryKind::Fail { node: _, losses } => {
                if drop_lost(&mut self.calls, losses.as_slice()) {
                    self.replay(alloc)
                } else {
                    Ok(true)
                }
            }
            EntryKind::Open { .. } => Ok(true),
            EntryKind::Crash { .. } => Ok(true),
            EntryKind::Return { .. } => Ok(true),
        }
    }

    /// Plays one call more.
    fn play(&mut self, alloc: Global, call: &'a Call) -> Result<bool, Refusal>
        requires { IsPlayed self.old }
        ensures ok { IfOk result (λ yes. Goes yes
            (played_calls self.old ++ call.now ∷ []) self.new) }
        ensures only_memory { IsOkUnless result OutOfMemory }
    {
        self.calls.push(call)?;
        let reply = answer(alloc, &mut self.tree, &call.op)?;
        Ok(is_answer(&reply, call))
    }

    /// Plays the kept calls from the opening tree.
    fn replay(&mut self, alloc: Global) -> Result<bool, Refusal>
        ensures ok { IfOk result (λ yes. Goes yes (played_calls self.old) self.new) }
        ensures only_memory { IsOkUnless result OutOfMemory }
    {
        match replay(alloc, self.calls.as_slice())? {
            Some(tree) => {
                self.tree = tree;
                Ok(true)
            }
            None => Ok(false),
        }
    }
}
