//! What clients stored to be asked for their leases, and what they answer.
ghost use Rattle.std.specs.Prelude.{◌≡◌, ℕ, nat_eq, true, false, is_some, IsOk, IfOk, OnOk, OnErr, IfErr, Some};
ghost use Rattle.std.specs.List.{list_any};
ghost use Rattle.indexmap.specs.IndexMap.{get};
ghost use Rattle.assise_names.specs.declared.refusal.Refusal.TheVariants.{OutOfMemory};
ghost use Rattle.assise_lease_table.specs.Answers.{AnswerAll, IsAnswer};
ghost use Rattle.assise_lease_table.specs.Leases.{Among, is_to_ask};
ghost use Rattle.assise_lease_table.specs.Tables.{Enrols, SameRevokers};

use crate::lease::{Asked, Chooses, Lease, is_to_ask};
use crate::revoker::Revokes;
use crate::views::Views;
use assise_names::refusal::Refusal;
use indexmap::IndexMap;
use std::alloc::{AllocError, Global};

/// Stores a client's revoker. The one refusal is [`Refusal::OutOfMemory`], which hands the revoker back.
pub fn store<C: Drop>(
    revokers: &mut IndexMap<u32, C>,
    client: u32,
    revoker: C,
) -> Result<(), (Refusal, C)>
    ensures ok { OnOk result (Enrols (get nat_eq revokers.old) (get nat_eq revokers.new)
        client revoker) }
    ensures err { OnErr result (SameRevokers (get nat_eq revokers.old) (get nat_eq revokers.new)) }
    ensures given_back { IfErr result (λ back. back ≡ (OutOfMemory, revoker)) }
{
    match revokers.insert(client, revoker) {
        Ok(_) => Ok(()),
        Err(failed) => Err((Refusal::OutOfMemory, failed.value.1)),
    }
}

/// What a client answers when its lease of an inode is asked for, raised to the end of its group.
fn answer<C: Revokes, V: Views>(
    revokers: &IndexMap<u32, C>,
    client: u32,
    inode: u64,
    views: &V,
) -> Asked
    requires enrolled { is_some (get nat_eq revokers.now client) ≡ true }
    requires viewed { is_some (V.view_of views.now client) ≡ true }
    ensures client_is { result.client ≡ client }
    ensures answer { IsAnswer C.answers (get nat_eq revokers.now)
        (V.view_of views.now) inode result }
{
    let Some(revoker) = revokers.get(&client) else {
        unreachable!()
    };
    let Some(view) = views.view(client) else {
        unreachable!()
    };
    Asked {
        client,
        inode,
        cut: view.group_end(revoker.cut(view, inode)),
    }
}

/// The answers of those whose leases of an inode are chosen and not revoked yet. Nothing is revoked. It fails only where memory
/// runs out, and never where nobody is asked.
pub fn answers<C: Revokes, T: Chooses, V: Views>(
    alloc: Global,
    revokers: &IndexMap<u32, C>,
    leases: &[Lease],
    inode: u64,
    test: &T,
    views: &V,
) -> Result<Vec<Asked>, AllocError>
    requires enrolled { (l : _) → Among leases.now l →
        is_some (get nat_eq revokers.now l.holder) ≡ true }
    requires viewed { (l : _) → Among leases.now l →
        is_to_ask (T.choice test.now) l ≡ true → is_some (V.view_of views.now l.holder) ≡ true }
    ensures answers { IfOk result (λ asked. AnswerAll C.answers (get nat_eq revokers.now)
        (V.view_of views.now) inode (T.choice test.now) leases.now asked.items) }
    ensures nobody { list_any (is_to_ask (T.choice test.now)) leases.now ≡ false → IsOk result }
{
    let mut asked = Vec::new(alloc);
    for lease in leases {
        if is_to_ask(test, lease) {
            asked.push(answer(revokers, lease.holder, inode, views))?;
        }
    }
    Ok(asked)
}
