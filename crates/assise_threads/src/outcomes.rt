//! What came of clients' calls, until it is written.
ghost use Rattle.std.specs.Prelude.{◌≡◌, ℕ, IfOk, map};
ghost use Rattle.assise_threads.specs.Hearing.{sights};
ghost use Rattle.assise_threads.specs.Stretches.{TakesFirst, libfs_at, outcomes_at, outcomes_of, sight_at, untold};

use assise_libfs::libfs::LibFs;
use assise_machine::cluster::Cluster;
use assise_names::refusal::Refusal;
use assise_names::reply::Reply;
use assise_workers::serving::ClientEnd;
use std::alloc::{AllocError, Global};
use std::vec::IntoIter;

/// What came of a client's calls, in order, as far as it isn't written yet.
#[derive(Drop)]
pub(crate) struct Outcomes {
    client: u32,
    left: IntoIter<Result<Reply, Refusal>>,
}

/// The clients of a run's ends, and what came of their calls.
pub(crate) fn parted<'a>(
    alloc: Global,
    ends: Vec<ClientEnd<'a, Cluster>>,
) -> Result<(Vec<LibFs<'a, Cluster>>, Vec<Outcomes>), AllocError>
    ensures clients { IfOk result (λ both. sights both.0.items ≡ map sight_at ends.entry.items) }
    ensures same { IfOk result (λ both. both.0.items ≡ map libfs_at ends.entry.items) }
    ensures outcomes { IfOk result (λ both.
        untold both.1.items ≡ map outcomes_at ends.entry.items) }
{
    let mut clients = Vec::with_capacity(alloc, ends.len())?;
    let mut outcomes = Vec::with_capacity(alloc, ends.len())?;
    for end in ends {
        let ClientEnd { libfs, replies } = end;
        outcomes.push_reserved(Outcomes {
            client: libfs.client(),
            left: replies.into_iter(),
        });
        clients.push_reserved(libfs);
    }
    Ok((clients, outcomes))
}

/// Takes the next outcome of a client. None where it isn't there, or nothing is left.
pub(crate) fn next_outcome(outcomes: &mut [Outcomes], client: u64) -> Option<Result<Reply, Refusal>>
    ensures next { TakesFirst (outcomes_of client (untold outcomes.old)) result
        (outcomes_of client (untold outcomes.new)) }
    ensures others { (c : ℕ) → (c ≡ client → ⊥)
        → outcomes_of c (untold outcomes.new) ≡ outcomes_of c (untold outcomes.old) }
{
    for one in outcomes.iter_mut() {
        if u64::from(one.client) == client {
            return one.left.next();
        }
    }
    None
}
