//! Numbers of nodes and of clients.
ghost use Rattle.std.specs.Prelude.{◌≡◌, ◌^◌, ◌≤◌, IfSome, None};

/// The number of a node or of a client. What doesn't fit 32 bits names none.
pub(crate) fn number_of(word: u64) -> Option<u32>
    ensures some { IfSome result (λ number. number ≡ word) }
    ensures none { result ≡ None → 2 ^ 32 ≤ word }
{
    u32::try_from(word).ok()
}
