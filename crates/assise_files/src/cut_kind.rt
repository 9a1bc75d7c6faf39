//! The kinds of revokers as one type.
use assise_lease_table::revoker::Revokes;
use assise_private_log::log_view::LogView;
use assise_revokers::kinds::{eights, least, whole};

/// How much of its log a client wants replicated and digested before it hands a lease over.
#[derive(Clone, Copy, PartialEq, Eq, Debug)]
pub enum CutKind {
    /// Up to the last record that touches the inode.
    Least,
    /// All of it.
    Whole,
    /// As [`CutKind::Least`], and on to the next number that 8 divides, if the log goes so far.
    Eights,
}

impl Revokes for CutKind {
    ghost use Rattle.assise_files.specs.CutKinds.{IsCutOf};

    ghost answers = { IsCutOf };

    fn cut(&self, view: &LogView, inode: u64) -> u64 {
        match self {
            CutKind::Least => least(view, inode),
            CutKind::Whole => whole(view, inode),
            CutKind::Eights => eights(view, inode),
        }
    }
}
