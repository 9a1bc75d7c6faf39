//! One lease.
ghost use Rattle.std.specs.Prelude.{◌≡◌};
ghost use Rattle.std.specs.List.{list_any};
ghost use Rattle.assise_lease_table.specs.Leases.{is_own, is_rival, is_to_ask};
ghost use Rattle.assise_lease_table.specs.Modes.{against, strong, stronger};

use assise_names::mode::Mode;

/// A holder's lease of an inode (Assise, OSDI 2020, section 3).
#[derive(Clone, Copy, PartialEq, Eq, Debug)]
pub struct Lease {
    /// The number of the client or node that holds it.
    pub holder: u32,
    /// What it serves for.
    pub mode: Mode,
    /// It was asked for, and serves no call any more.
    pub revoked: bool,
}

/// What stands in the places of a list that aren't used.
impl Default for Lease {
    fn default() -> Lease {
        Lease {
            holder: 0,
            mode: Mode::Read,
            revoked: false,
        }
    }
}

/// A client that was asked for its lease of an inode, and what its revoker answered, raised to the end of its group.
#[derive(Clone, Copy, PartialEq, Eq, Debug)]
pub struct Asked {
    pub client: u32,
    pub inode: u64,
    /// The number up to which the client's log has to be everywhere before the lease goes to another.
    pub cut: u64,
}

/// A test of leases, by which some are asked for, revoked or left out.
pub trait Chooses {
    ghost use Rattle.std.specs.Prelude.{◌≡◌, Bool};
    ghost use Rattle.assise_lease_table.specs.declared.lease.Lease.{Lease};

    ghost choice: { Self → Lease → Bool };

    /// Whether a lease is chosen.
    fn chooses(&self, lease: &Lease) -> bool
        ensures { result ≡ choice self.now lease.now };
}

/// The lease of one holder.
#[derive(Drop)]
pub struct Own {
    pub holder: u32,
}

impl Chooses for Own {
    ghost use Rattle.assise_lease_table.specs.Leases.{is_own};

    ghost choice = { λ o l. is_own o.holder l };

    fn chooses(&self, lease: &Lease) -> bool {
        lease.holder == self.holder
    }
}

/// The leases that stand against a mode and are not the holder's own.
#[derive(Drop)]
pub struct Rivals {
    pub holder: u32,
    pub mode: Mode,
}

impl Chooses for Rivals {
    ghost use Rattle.assise_lease_table.specs.Leases.{is_rival};

    ghost choice = { λ r l. is_rival r.holder r.mode l };

    fn chooses(&self, lease: &Lease) -> bool {
        lease.holder != self.holder && is_against(self.mode, lease.mode)
    }
}

/// Whether a lease is chosen and not revoked yet.
pub fn is_to_ask<T: Chooses>(test: &T, lease: &Lease) -> bool
    ensures { result ≡ is_to_ask (T.choice test.now) lease.now }
{
    !lease.revoked && test.chooses(lease)
}

/// Whether some lease is chosen.
pub fn is_any_chosen<T: Chooses>(test: &T, leases: &[Lease]) -> bool
    ensures { result ≡ list_any (T.choice test.now) leases.now }
{
    for lease in leases {
        if test.chooses(lease) {
            return true;
        }
    }
    false
}

/// Whether two holders can't hold an inode in these modes: they can where both read.
pub fn is_against(one: Mode, other: Mode) -> bool
    ensures { result ≡ against one other }
{
    one == Mode::Write || other == Mode::Write
}

/// Whether a lease of the one mode serves where the other is wanted.
pub fn is_strong(held: Mode, wanted: Mode) -> bool
    ensures { result ≡ strong held wanted }
{
    held == Mode::Write || wanted == Mode::Read
}

/// The mode that serves where either is wanted.
pub fn stronger_of(one: Mode, other: Mode) -> Mode
    ensures { result ≡ stronger one other }
{
    if one == Mode::Write { one } else { other }
}
