//! Inodes of which some are leased.
ghost use Rattle.std.specs.Prelude.{◌≡◌, MatchOption, None, Some, option_copied, true};
ghost use Rattle.std.specs.FinMap as map;
ghost use Rattle.assise_inode_plan.specs.Leased.{LeaseView, first_missing, for_writing};
ghost use Rattle.assise_inode_table.specs.Effects.{touched};
ghost use Rattle.assise_names.specs.declared.mode.Mode.TheVariants.{Read, Write};

use assise_inode_table::inode::Inode;
use assise_inode_table::inodes::Inodes;
use assise_names::mode::Mode;
use assise_record::effect::Effect;

/// Inodes as a client sees them, with its leases. A contract sees the finite map of all inodes, and which of them are
/// leased, and how.
pub trait View: Inodes {
    ghost leased: { Self → LeaseView };

    /// Whether the inode is leased so.
    fn leases(&self, inode: u64, mode: Mode) -> bool
        ensures { result ≡ leased self.now inode mode };
}

/// The inode of a number, if there is one. Only what is leased for reading may be looked at.
pub(crate) fn look_at<V: View>(view: &V, inode: u64) -> Option<&Inode>
    requires leased { V.leased view.now inode Read ≡ true }
    ensures { option_copied result ≡ map.get (V.contents view.now) inode }
{
    view.get(inode)
}

/// The first inode that effects change, in their order, and that isn't leased for writing.
pub fn first_unleased<V: View>(view: &V, effects: &[Effect]) -> Option<u64>
    ensures { MatchOption result (first_missing (V.leased view.now)
        (for_writing (touched effects.now)) ≡ None)
        (λ inode. first_missing (V.leased view.now) (for_writing (touched effects.now)) ≡ Some
        (inode, Write)) }
{
    for effect in effects {
        let inode = effect.touches();
        if !view.leases(inode, Mode::Write) {
            return Some(inode);
        }
    }
    None
}

/// All inodes of a map, each of them leased for reading and for writing.
#[derive(Drop)]
pub struct AllLeased<'a, I> {
    /// The inodes.
    pub inodes: &'a I,
}

impl<I: Inodes> Inodes for AllLeased<'_, I> {
    ghost contents = { λ view. I.contents view.inodes.now };

    fn get(&self, inode: u64) -> Option<&Inode> {
        self.inodes.get(inode)
    }
}

impl<I: Inodes> View for AllLeased<'_, I> {
    ghost leased = { λ view inode mode. true };

    fn leases(&self, _inode: u64, _mode: Mode) -> bool {
        true
    }
}
