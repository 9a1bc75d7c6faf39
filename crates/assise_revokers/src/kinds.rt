//! What the kinds of revokers answer.
ghost use Rattle.std.specs.Prelude.{◌≡◌, ◌<◌, ◌^◌, ℕ};
ghost use Rattle.assise_private_log.specs.NumberedLog.{end};
ghost use Rattle.assise_private_log.specs.Touches.{Covers};
ghost use Rattle.assise_revokers.specs.Kinds.{IsLeast, IsEighths};

use assise_private_log::log_view::LogView;

/// The least cut: one past the last record that touches the inode, or the log's first number where none does.
pub fn least(view: &LogView, inode: u64) -> u64
    ensures covers { Covers view.now inode result }
    ensures least { IsLeast view.now inode result }
{
    match view.last_touch(inode) {
        Some(number) => number + 1,
        None => view.first(),
    }
}

/// The greatest cut: the log's end, whatever the inode.
pub fn whole(view: &LogView, inode: u64) -> u64
    ensures covers { Covers view.now inode result }
    ensures whole { result ≡ end view.now }
{
    let _ = (inode, view.first());
    view.end()
}

/// The first multiple of 8 that isn't below the least cut, or the log's end where that is less.
pub fn eights(view: &LogView, inode: u64) -> u64
    ensures covers { Covers view.now inode result }
    ensures eights { IsEighths view.now inode result }
{
    let cut = least(view, inode);
    let end = view.end();
    let short = (8 - cut % 8) % 8;
    if end - cut < short { end } else { cut + short }
}
