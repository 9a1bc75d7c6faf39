//! What a client answers when its lease is asked for.
ghost use Rattle.std.specs.Prelude.{◌≡◌, ◌<◌, ◌^◌, ℕ};
ghost use Rattle.assise_private_log.specs.Touches.{Covers};

use assise_private_log::log_view::LogView;

/// What answers a cut of a client's log: a number between the log's first and its end from which on no record touches
/// the inode.
pub trait Revokes {
    ghost use Rattle.std.specs.Prelude.{ℕ};
    ghost use Rattle.assise_private_log.specs.NumberedLog.{NumberedLog};
    ghost use Rattle.assise_private_log.specs.Touches.{Covers};

    /// It may answer this cut for this log and inode.
    ghost answers: { Self → NumberedLog → ℕ → ℕ → Type 0 };

    /// The cut of a log at an inode.
    fn cut(&self, view: &LogView, inode: u64) -> u64
        ensures answer { answers self.now view.now inode result }
        ensures covers { Covers view.now inode result };
}

/// A closure that answers cuts, for a [`Revoker`] to store.
pub type CutFn = Box<dyn Fn(&LogView, u64) -> u64 + Send>;

/// A stored closure that answers cuts. It may be called on every log and inode, and every answer of it is a cut.
#[derive(Drop)]
pub struct Revoker {
    cut: CutFn,
    ghost callable: { CutFn.IsAlwaysCallable cut },
    ghost covers: { (view : _) (inode cut_at : ℕ) → inode < 2 ^ 64 → CutFn.post cut view inode cut_at → Covers view.now inode cut_at },
}

impl Revoker {
    /// A revoker of a closure. That each of its answers is a cut is the maker's to show.
    pub fn new(cut: CutFn) -> Revoker
        requires callable { IsAlwaysCallable cut }
        requires covers { (view : _) (inode cut_at : ℕ) → inode < 2 ^ 64 →
            post cut view inode cut_at → Covers view.now inode cut_at }
    {
        Revoker { cut }
    }
}

impl Revokes for Revoker {
    ghost use Rattle.std.specs.Prelude.{◌≡◌};
    ghost use Rattle.std.specs.Borrow.{Bor};
    ghost use Rattle.assise_private_log.specs.NumberedLog.{NumberedLog};

    ghost answers = { λ r v i k. (view : Bor NumberedLog) × (view.now ≡ v) × CutFn.post r.cut view i k };

    fn cut(&self, view: &LogView, inode: u64) -> u64 {
        (self.cut)(view, inode)
    }
}
