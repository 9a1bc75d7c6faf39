//! What a call listed, as it stands in the history.
ghost use Rattle.std.specs.Prelude.{◌≡◌};
ghost use Rattle.std.specs.Option.{option_map};
ghost use Rattle.assise_desk.specs.Listings.{ShowsListed, names_at};

use crate::desk_fault::DeskFault;
use crate::desk_request::{DESK_BYTES, DeskRequest};
use crate::page::place_page;
use assise_history::entry::EntryKind;
use assise_history::history::History;
use assise_names::name::Name;
use assise_names::reply::Reply;

/// A page of the names that a call of the history listed, as a request asks for it. No call is made.
pub(crate) fn show_listed(
    history: &History,
    request: &DeskRequest,
    out: &mut [u8; DESK_BYTES],
    stands: &mut u64,
) -> Result<u64, DeskFault>
    ensures { ShowsListed history.now.events request.now.second request.now.first result
        out.old out.new stands.old stands.new }
{
    match names_at(history, request.second) {
        Some(names) => {
            *stands = names.len() as u64;
            Ok(place_page(names, request.first, out) as u64)
        }
        None => Err(DeskFault::BadRequest),
    }
}

/// The names that a call of the history listed.
fn names_at(history: &History, place: u64) -> Option<&[Name]>
    ensures { option_map (λ names. names.now) result ≡ names_at history.now.events place }
{
    let entry = history.entries().get(place as usize)?;
    let EntryKind::Call(call) = entry.kind() else {
        return None;
    };
    match &call.reply {
        Reply::Names(names) => Some(names.as_slice()),
        _ => None,
    }
}
