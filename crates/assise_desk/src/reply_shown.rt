//! Replies as numbers and bytes.
ghost use Rattle.assise_desk.specs.ShownReplies.{ShowsReply};

use crate::desk_fault::DeskFault;
use crate::desk_request::DESK_BYTES;
use crate::page::{place_bytes, place_page};
use assise_names::reply::Reply;

/// A reply in numbers and bytes. Of names it is a page, from number `first` on.
pub(crate) fn show_reply(
    reply: &Reply,
    first: u64,
    out: &mut [u8; DESK_BYTES],
    stands: &mut u64,
) -> Result<u64, DeskFault>
    ensures { ShowsReply reply.now first result out.old out.new stands.old stands.new }
{
    match reply {
        Reply::Done => Ok(0),
        Reply::Bytes(bytes) => Ok(place_bytes(bytes.as_slice(), out)? as u64),
        Reply::Names(names) => {
            let names = names.as_slice();
            *stands = names.len() as u64;
            Ok(place_page(names, first, out) as u64)
        }
        Reply::File(size) => {
            *stands = 1;
            Ok(*size)
        }
        Reply::Dir(entries) => {
            *stands = 2;
            Ok(*entries)
        }
        Reply::Error(error) => Err(DeskFault::Tree(*error)),
    }
}
