//! Calls in order, for each of which a reply is due.
ghost use Rattle.std.specs.Prelude.{◌≡◌, IfErr, OnOk};
ghost use Rattle.assise_libfs.specs.Clients.{IsSameClient, client_of, seen_by};
ghost use Rattle.assise_mail.specs.DueCalls.{AnyTurns, StopsAt, replies_of, ops_of, call_done};
ghost use Rattle.assise_workers.specs.Told.{SeesAll};

use crate::fault::MailFault;
use assise_libfs::libfs::LibFs;
use assise_libfs::served::Served;
use assise_names::call::Op;
use assise_names::reply::Reply;
use std::alloc::Global;
use std::sync::Wait;

/// A call, and the reply that is due.
#[derive(Debug, Drop)]
pub struct DueCall {
    pub op: Op,
    pub reply: Reply,
}

impl DueCall {
    /// A call that has to be done.
    pub(crate) fn done(op: Op) -> DueCall
        ensures { result ≡ call_done op }
    {
        DueCall {
            op,
            reply: Reply::Done,
        }
    }
}

/// Makes calls in order, until one doesn't come to the reply that is due.
pub(crate) fn make_all<S: Served, R: Wait>(
    rt: &R,
    alloc: Global,
    files: &mut LibFs<'_, S>,
    calls: &[DueCall],
) -> Result<(), MailFault>
    ensures same { IsSameClient files.old files.new }
    ensures made { OnOk result (SeesAll AnyTurns (client_of files.old) (ops_of calls.now)
        (seen_by files.old) (replies_of calls.now) (seen_by files.new)) }
    ensures stops { IfErr result (λ fault. StopsAt (client_of files.old) calls.now
        (seen_by files.old) fault (seen_by files.new)) }
{
    for wanted in calls {
        let reply = files.call(rt, alloc, &wanted.op)?;
        if reply != wanted.reply {
            return Err(MailFault::Answered(reply));
        }
    }
    Ok(())
}
