//! The leases of one inode.
ghost use Rattle.std.specs.Prelude.{◌≡◌, ◌≤◌, ◌++◌, true, is_some, IsOk, OnOk};
ghost use Rattle.smallvec.specs.SmallVec.{small_vec_len, HasRoomFor};
ghost use Rattle.assise_lease_table.specs.Cuts.{asked_at};
ghost use Rattle.assise_lease_table.specs.Lists.{HasPlaceIn, is_any};
ghost use Rattle.assise_lease_table.specs.Leases.{with_lease, leave_out, revoke, revoked_if, is_own_unasked, lease_of, is_own, may_be_held, may_raise, raise, raise_unopposed, raised_if, serves, IsFree};

use crate::lease::{
    Asked, Chooses, Lease, Own, Rivals, is_any_chosen, is_strong, is_to_ask, stronger_of,
};
use assise_names::mode::Mode;
use smallvec::SmallVec;
use std::alloc::AllocError;

/// The leases of one inode: nearly always one or two hold it, which stand in the list itself.
pub type Leases = SmallVec<Lease, 2>;

/// The holder's lease.
pub fn lease_of_holder(leases: &[Lease], holder: u32) -> Option<Lease>
    ensures { result ≡ lease_of leases.now holder }
{
    for lease in leases {
        if lease.holder == holder {
            return Some(*lease);
        }
    }
    None
}

/// Whether the holder's lease serves where the mode is wanted: it is strong enough and not revoked.
pub fn serves(leases: &[Lease], holder: u32, mode: Mode) -> bool
    ensures { result ≡ serves (lease_of leases.now holder) mode }
{
    match lease_of_holder(leases, holder) {
        Some(lease) => !lease.revoked && is_strong(lease.mode, mode),
        None => false,
    }
}

/// Whether a holder may be given a lease in a mode: its own, if any, is neither revoked nor stronger, and no other holder's
/// stands against the mode.
pub fn may_be_held(leases: &[Lease], holder: u32, mode: Mode) -> bool
    ensures exact { result ≡ may_be_held leases.now holder mode }
    ensures own { result ≡ true → may_raise (lease_of leases.now holder) mode ≡ true }
    ensures free { result ≡ true → IsFree leases.now holder mode }
{
    let may_raise = match lease_of_holder(leases, holder) {
        Some(lease) => !lease.revoked && is_strong(mode, lease.mode),
        None => true,
    };
    may_raise && !is_any_chosen(&Rivals { holder, mode }, leases)
}

/// Takes the chosen leases out.
pub fn take_out<T: Chooses>(leases: &mut Leases, test: &T)
    ensures items { leases.new.items ≡ leave_out (T.choice test.now) leases.old.items }
    ensures len { small_vec_len leases.new ≤ small_vec_len leases.old }
    ensures capacity { leases.new.capacity ≡ leases.old.capacity }
{
    leases.retain(|lease| !test.chooses(lease));
}

/// Takes the holder's lease out.
pub fn take_own_out(leases: &mut Leases, holder: u32)
    ensures items { leases.new.items ≡ leave_out (is_own holder) leases.old.items }
    ensures len { small_vec_len leases.new ≤ small_vec_len leases.old }
    ensures capacity { leases.new.capacity ≡ leases.old.capacity }
    ensures place { HasPlaceIn holder leases.old → HasRoomFor leases.new 1 }
{
    let _fits = leases.len();
    take_out(leases, &Own { holder });
}

/// Takes the holder's lease out, and says whether the leases of others are left.
pub fn leaves_others(leases: &mut Leases, holder: u32) -> bool
    ensures items { leases.new.items ≡ leave_out (is_own holder) leases.old.items }
    ensures left { result ≡ is_any leases.new.items }
{
    take_own_out(leases, holder);
    !leases.is_empty()
}

/// Makes room for a holder's lease. None is asked for where the holder has one.
pub fn reserve_own(leases: &mut Leases, holder: u32) -> Result<(), AllocError>
    ensures same { leases.new.items ≡ leases.old.items }
    ensures place { OnOk result (HasPlaceIn holder leases.new) }
    ensures held { is_some (lease_of leases.old.items holder) ≡ true → IsOk result }
{
    if lease_of_holder(leases, holder).is_some() {
        return Ok(());
    }
    leases.reserve(1)
}

/// Puts a lease in place of its holder's old one.
pub fn put_own(leases: &mut Leases, lease: Lease)
    requires place { HasPlaceIn lease.holder leases.old }
    ensures { leases.new.items ≡ with_lease lease leases.old.items }
{
    take_own_out(leases, lease.holder);
    leases.push_reserved(lease);
}

/// Puts a lease in place of its holder's old one and of the chosen ones.
pub fn put_over<T: Chooses>(leases: &mut Leases, lease: Lease, over: &T)
    requires place { HasPlaceIn lease.holder leases.old }
    ensures { leases.new.items ≡ with_lease lease (leave_out (T.choice over.now) leases.old.items) }
{
    take_own_out(leases, lease.holder);
    take_out(leases, over);
    leases.push_reserved(lease);
}

/// The lease, revoked if it is chosen.
fn revoked_if_chosen<T: Chooses>(test: &T, lease: Lease) -> Lease
    ensures { result ≡ revoked_if (T.choice test.now lease) lease }
{
    let revoked = test.chooses(&lease) || lease.revoked;
    Lease { revoked, ..lease }
}

/// Revokes the chosen leases.
pub fn revoke_chosen<T: Chooses>(leases: &mut [Lease], test: &T)
    ensures { leases.new ≡ revoke (T.choice test.now) leases.old }
{
    for lease in leases.iter_mut() {
        *lease = revoked_if_chosen(test, *lease);
    }
}

/// Revokes the chosen leases of a list.
pub fn revoke_all<T: Chooses>(leases: &mut Leases, test: &T)
    ensures { leases.new.items ≡ revoke (T.choice test.now) leases.old.items }
{
    revoke_chosen(leases, test);
}

/// The lease, in this mode where its own is weaker, if it is the holder's and not revoked.
fn raised_if_own(lease: Lease, holder: u32, mode: Mode) -> Lease
    ensures { result ≡ raised_if (is_own_unasked holder lease) mode lease }
{
    if lease.holder == holder && !lease.revoked {
        let mode = stronger_of(lease.mode, mode);
        return Lease { mode, ..lease };
    }
    lease
}

/// Raises the holder's lease to a mode where it is weaker, unless it is revoked.
pub fn raise_own(leases: &mut [Lease], holder: u32, mode: Mode)
    ensures { leases.new ≡ raise holder mode leases.old }
{
    for lease in leases.iter_mut() {
        *lease = raised_if_own(*lease, holder, mode);
    }
}

/// Raises the holder's lease to a mode where it is weaker, unless it is revoked or another holder's stands against the mode.
pub fn raise_unopposed(leases: &mut Leases, holder: u32, mode: Mode)
    ensures { leases.new.items ≡ raise_unopposed holder mode leases.old.items }
{
    if !is_any_chosen(&Rivals { holder, mode }, leases) {
        raise_own(leases, holder, mode);
    }
}

/// Lists the chosen leases of an inode that are not revoked, with 0 as their cuts.
pub fn push_unasked<T: Chooses>(
    asked: &mut Vec<Asked>,
    inode: u64,
    test: &T,
    leases: &[Lease],
) -> Result<(), AllocError>
    ensures { OnOk result (asked.new.items ≡ asked.old.items ++ asked_at
        (T.choice test.now) inode leases.now) }
{
    for lease in leases {
        if is_to_ask(test, lease) {
            asked.push(Asked {
                client: lease.holder,
                inode,
                cut: 0,
            })?;
        }
    }
    Ok(())
}
