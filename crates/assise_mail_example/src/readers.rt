//! Threads that read.

use crate::mailer::Mailer;
use crate::messages::{MESSAGES, Message, WRITERS, mailbox, place, text};
use crate::tally::ALL;
use assise_libfs::libfs::LibFs;
use assise_libfs::served::Served;
use assise_mail::fault::MailFault;
use assise_mail::store;
use assise_names::refusal::Refusal;
use assise_names::reply::Reply;
use std::alloc::Global;
use std::sync::Wait;
use std::thread;

/// How often a reader looks.
const LOOKS: u32 = 1_000_000;

/// Lists the mailbox and reads what it lists, until all messages are there. It answers the node at which the thread ended.
pub fn read_all<S: Served, R: Wait>(
    rt: &R,
    alloc: Global,
    mailer: &mut Mailer<'_, S>,
) -> Result<u32, MailFault>
where
    S::Stored: Drop,
{
    for _ in 0..LOOKS {
        match look(rt, alloc, &mut mailer.files) {
            Ok(ALL) => return Ok(mailer.files.node()),
            Ok(_) => thread::yield_now(),
            Err(MailFault::Refused(Refusal::NodeDown)) => mailer.go_on()?,
            Err(fault) => return Err(fault),
        }
    }
    Err(MailFault::Refused(Refusal::Busy))
}

/// How many messages the mailbox lists, each of which is there whole.
fn look<S: Served, R: Wait>(
    rt: &R,
    alloc: Global,
    files: &mut LibFs<'_, S>,
) -> Result<usize, MailFault> {
    let mailbox = mailbox(alloc)?;
    let names = store::list(rt, alloc, files, &mailbox)?;
    for name in names.as_slice() {
        read_whole(rt, alloc, files, name.as_str())?;
    }
    Ok(names.as_slice().len())
}

/// Reads a message, which has to be whole.
fn read_whole<S: Served, R: Wait>(
    rt: &R,
    alloc: Global,
    files: &mut LibFs<'_, S>,
    name: &str,
) -> Result<(), MailFault> {
    let place = place(alloc, name)?;
    let whole = text(alloc, name)?;
    let read = store::read(rt, alloc, files, &place)?;
    if read.as_slice() != whole.as_slice() {
        return Err(MailFault::Answered(Reply::Bytes(read)));
    }
    Ok(())
}

/// Finds all messages that were answered, each whole.
pub fn find_all<S: Served, R: Wait>(
    rt: &R,
    alloc: Global,
    files: &mut LibFs<'_, S>,
) -> Result<(), MailFault> {
    for writer in 1..=WRITERS {
        for number in 1..=MESSAGES {
            let name = format!(in alloc; "{}", Message { writer, number })?;
            read_whole(rt, alloc, files, name.as_str())?;
        }
    }
    Ok(())
}
