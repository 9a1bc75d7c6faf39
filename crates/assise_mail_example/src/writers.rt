//! Threads that deliver.

use crate::mailer::Mailer;
use crate::messages::{MESSAGES, Message, draft, place, text};
use crate::tally::Tally;
use assise_libfs::libfs::LibFs;
use assise_libfs::served::Served;
use assise_mail::fault::MailFault;
use assise_mail::store;
use assise_names::refusal::Refusal;
use assise_names::reply::Reply;
use std::alloc::Global;
use std::sync::Wait;

/// Delivers a writer's messages, each of which is counted once it is answered. The last is held back until the node has failed. It answers
/// the node at which the thread ended.
pub fn deliver_all<S: Served, R: Wait>(
    rt: &R,
    alloc: Global,
    mailer: &mut Mailer<'_, S>,
    writer: u32,
    tally: &Tally,
) -> Result<u32, MailFault>
where
    S::Stored: Drop,
{
    for number in 1..=MESSAGES {
        if number == MESSAGES {
            tally.wait_for_failure(rt);
        }
        let name = format!(in alloc; "{}", Message { writer, number })?;
        deliver_once(rt, alloc, mailer, name.as_str())?;
        tally.count_answered();
    }
    Ok(mailer.files.node())
}

/// Delivers a message. Where the node fails meanwhile, the thread goes on with another client.
fn deliver_once<S: Served, R: Wait>(
    rt: &R,
    alloc: Global,
    mailer: &mut Mailer<'_, S>,
    name: &str,
) -> Result<(), MailFault>
where
    S::Stored: Drop,
{
    match deliver(rt, alloc, &mut mailer.files, name, 1) {
        Err(MailFault::Refused(Refusal::NodeDown)) => {
            mailer.go_on()?;
            deliver_unless_there(rt, alloc, &mut mailer.files, name)
        }
        came => came,
    }
}

/// Delivers a message whose delivery was cut off, unless it is there: what a failure left is replicated.
fn deliver_unless_there<S: Served, R: Wait>(
    rt: &R,
    alloc: Global,
    files: &mut LibFs<'_, S>,
    name: &str,
) -> Result<(), MailFault> {
    let place = place(alloc, name)?;
    match store::read(rt, alloc, files, &place) {
        Err(MailFault::Answered(Reply::Error(_))) => deliver(rt, alloc, files, name, 2),
        Err(fault) => Err(fault),
        Ok(_) => Ok(()),
    }
}

/// Delivers a message, the first time or a later one.
fn deliver<S: Served, R: Wait>(
    rt: &R,
    alloc: Global,
    files: &mut LibFs<'_, S>,
    name: &str,
    time: u32,
) -> Result<(), MailFault> {
    let (draft, place) = (draft(alloc, name, time)?, place(alloc, name)?);
    store::deliver(rt, alloc, files, &draft, &place, text(alloc, name)?)
}
