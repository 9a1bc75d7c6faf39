//! A revoker that is made and asked.
ghost use Rattle.std.specs.Prelude.{IfOk};
ghost use Rattle.assise_private_log.specs.Touches.{Covers};

use assise_lease_table::revoker::{CutFn, Revoker, Revokes};
use assise_private_log::log_view::LogView;
use assise_revokers::kinds::least;
use std::alloc::{AllocError, Global};

/// What a stored revoker of the least cuts answers. Whoever makes a revoker has to show that its answers are cuts, so one
/// that answers the last touch itself isn't made: this function is where that is seen.
pub fn stored_cut(alloc: Global, view: &LogView, inode: u64) -> Result<u64, AllocError>
    ensures { IfOk result (Covers view.now inode) }
{
    let cut: CutFn = Box::new(alloc, least)?;
    let revoker = Revoker::new(cut);
    Ok(revoker.cut(view, inode))
}
