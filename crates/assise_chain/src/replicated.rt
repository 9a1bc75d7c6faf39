//! How far all nodes have come.
ghost use Rattle.std.specs.Prelude.{◌<◌, ◌≤◌, ℕ, Contains, length};

/// The number below which every node has received all: the least of what each has received.
pub fn acked(received: &[u64]) -> u64
    requires some { 0 < length received.now }
    ensures one { Contains received.now result }
    ensures least { (number : ℕ) → Contains received.now number → result ≤ number }
{
    match received.iter().copied().min() {
        Some(least) => least,
        None => unreachable!(),
    }
}
