//! What a desk tells of its cluster.
ghost use Rattle.std.specs.Prelude.{◌≡◌};
ghost use Rattle.assise_desk.specs.Queries.{AnswersQuery, phase_number, standing_number};

use crate::desk_call::ClusterQuery;
use crate::desk_fault::DeskFault;
use crate::desk_request::DeskRequest;
use assise_files::files::Files;
use assise_machine_state::client::Client;
use assise_manager::phase::Phase;
use std::alloc::Global;

/// The answer of a query. Refused where the node or the client isn't there, and a check also for want of memory.
pub(crate) fn tell(
    alloc: Global,
    files: &Files,
    query: ClusterQuery,
    request: &DeskRequest,
) -> Result<u64, DeskFault>
    ensures { AnswersQuery query request.now files.now result }
{
    match query {
        ClusterQuery::Legal => Ok(u64::from(files.is_legal(alloc)?)),
        ClusterQuery::Entries => Ok(files.history().entries().len() as u64),
        ClusterQuery::Payload => Ok(files.history().payload()),
        ClusterQuery::Phase => Ok(phase_number(files.phase(request.node)?)),
        ClusterQuery::Standing => Ok(standing_number(files.client(request.client)?)),
        ClusterQuery::Home => Ok(u64::from(files.client(request.client)?.home())),
        ClusterQuery::Answered => Ok(files.client(request.client)?.next()),
        ClusterQuery::Replicated => Ok(files.replicated_to(request.client)?),
    }
}

/// The number of a phase.
fn phase_number(phase: Phase) -> u64
    ensures { result ≡ phase_number phase }
{
    match phase {
        Phase::Full => 1,
        Phase::Down => 2,
        Phase::Returning => 3,
    }
}

/// The number of how a client stands.
fn standing_number(client: &Client) -> u64
    ensures { result ≡ standing_number client.now }
{
    if client.has_failed() {
        3
    } else if client.has_crashed() {
        2
    } else {
        1
    }
}
