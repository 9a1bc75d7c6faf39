//! Calls, one after another from the opening tree.
ghost use Rattle.std.specs.Prelude.{◌≡◌, ◌↔◌, IfOk, IsOkUnless, IsTrue, MatchOption, map};
ghost use Rattle.assise_seq_tree.specs.Tree.{opening};
ghost use Rattle.assise_history.specs.Kept.{IsRun, tree_after};
ghost use Rattle.assise_names.specs.declared.refusal.Refusal.TheVariants.{OutOfMemory};

use crate::call::Call;
use assise_names::refusal::Refusal;
use assise_names::reply::Reply;
use assise_seq_tree::answer::answer;
use assise_seq_tree::tree::Tree;
use std::alloc::Global;

/// The tree after a list of calls, if each was answered as the tree answers it, one after another from the
/// opening tree; `None` if one wasn't. Out of memory is [`Refusal::OutOfMemory`].
pub fn replay(alloc: Global, calls: &[&Call]) -> Result<Option<Tree>, Refusal>
    ensures ok { IfOk result (λ found. MatchOption found
        (IsRun opening (map (λ x. x.now) calls.now) → ⊥)
        (λ tree. IsRun opening (map (λ x. x.now) calls.now) ×
        (tree ≡ tree_after opening (map (λ x. x.now) calls.now)))) }
    ensures only_memory { IsOkUnless result OutOfMemory }
{
    let mut tree = Tree::new(alloc);
    for call in calls {
        let reply = answer(alloc, &mut tree, &call.op)?;
        if !is_answer(&reply, call) {
            return Ok(None);
        }
    }
    Ok(Some(tree))
}

/// Whether the reply is the one that the call was answered with.
#[tactic(auto, using(crate::proofs::Shared::Replies::equal_replies))]
pub(crate) fn is_answer(reply: &Reply, call: &Call) -> bool
    ensures { IsTrue result ↔ (reply.now ≡ call.now.reply) }
{
    *reply == call.reply
}
