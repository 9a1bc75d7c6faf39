//! Messages in a file system.
ghost use Rattle.std.specs.Prelude.{◌≡◌, ◌⊎◌, IfErr, IfOk, OnOk, Ok};
ghost use Rattle.assise_names.specs.declared.call.Op.TheVariants.{List as ListCall, Read};
ghost use Rattle.assise_names.specs.declared.refusal.Refusal.TheVariants.{OutOfMemory};
ghost use Rattle.assise_names.specs.declared.reply.Reply.TheVariants.{Bytes, Names};
ghost use Rattle.assise_libfs.specs.Calling.{SeesCall};
ghost use Rattle.assise_libfs.specs.Clients.{IsSameClient, client_of, seen_by};
ghost use Rattle.assise_mail.specs.DueCalls.{AnyTurns, ComesToElse, IsBytes, IsNames, LacksMemory, StopsAt, delivery_calls, replies_of, ops_of, removal_calls};
ghost use Rattle.assise_workers.specs.Told.{SeesAll};

use crate::due_call::{DueCall, make_all};
use crate::fault::MailFault;
use assise_libfs::libfs::LibFs;
use assise_libfs::served::Served;
use assise_names::byte_string::ByteString;
use assise_names::call::Op;
use assise_names::name_list::NameList;
use assise_names::path::Path;
use assise_names::refusal::Refusal;
use assise_names::reply::{Reply, TreeError};
use std::alloc::{AllocError, Global};
use std::sync::Wait;

/// The most bytes of a message.
pub const MOST_MESSAGE: u64 = 65_536;

/// Two equal paths.
fn twice(path: &Path) -> Result<(Path, Path), AllocError>
    ensures equal { IfOk result (λ both. (both.0 ≡ path.now) × (both.1 ≡ path.now)) }
{
    let first = path.copy()?;
    Ok((first, path.copy()?))
}

/// Delivers a message of at most [`MOST_MESSAGE`] bytes: it is written to a draft, synced, moved to its place, where nothing may be,
/// and synced (Maildir, Bernstein 1995). The draft and the place are names that no other delivery uses, the place in a mailbox, which is
/// a directory, the draft elsewhere. Once this returns the message stays until it is removed, and before that nobody finds a part of it
/// at its place.
///
/// [`MailFault::Answered`] where something stands at the draft or the place already, or one of their directories isn't there;
/// [`MailFault::Refused`] as the file system refuses a call, and with [`Refusal::OutOfMemory`] before the first one. The calls before it
/// were made: the draft may be left, and the message, where the last sync is refused.
pub fn deliver<S: Served, R: Wait>(
    rt: &R,
    alloc: Global,
    files: &mut LibFs<'_, S>,
    draft: &Path,
    place: &Path,
    message: ByteString,
) -> Result<(), MailFault>
    ensures same { IsSameClient files.old files.new }
    ensures delivered { OnOk result (SeesAll AnyTurns (client_of files.old)
        (ops_of (delivery_calls draft.now place.now message)) (seen_by files.old)
        (replies_of (delivery_calls draft.now place.now message)) (seen_by files.new)) }
    ensures stops { IfErr result (λ fault.
        LacksMemory fault (seen_by files.old) (seen_by files.new) ⊎
        StopsAt (client_of files.old) (delivery_calls draft.now place.now message)
        (seen_by files.old) fault (seen_by files.new)) }
{
    let (created, written) = twice(draft)?;
    let (free, taken) = twice(place)?;
    let moved = draft.copy()?;
    let calls = [
        DueCall::done(Op::Create(created)),
        DueCall::done(Op::Write(written, 0, message)),
        DueCall::done(Op::Dsync),
        DueCall {
            op: Op::Stat(free),
            reply: Reply::Error(TreeError::NoEnt),
        },
        DueCall::done(Op::Rename(moved, taken)),
        DueCall::done(Op::Dsync),
    ];
    make_all(rt, alloc, files, &calls)
}

/// The names of a mailbox's messages, ascending by their bytes.
///
/// [`MailFault::Answered`] where it is no directory, [`MailFault::Refused`] as the file system refuses a call.
pub fn list<S: Served, R: Wait>(
    rt: &R,
    alloc: Global,
    files: &mut LibFs<'_, S>,
    mailbox: &Path,
) -> Result<NameList, MailFault>
    ensures same { IsSameClient files.old files.new }
    ensures sees { IfOk result (λ names. SeesCall (client_of files.old) (ListCall mailbox.now)
        (seen_by files.old) (Ok (Names names)) (seen_by files.new)) }
    ensures stops { IfErr result (λ fault.
        LacksMemory fault (seen_by files.old) (seen_by files.new) ⊎
        ComesToElse (client_of files.old) (ListCall mailbox.now) IsNames
        (seen_by files.old) fault (seen_by files.new)) }
{
    match files.call(rt, alloc, &Op::List(mailbox.copy()?))? {
        Reply::Names(names) => Ok(names),
        other => Err(MailFault::Answered(other)),
    }
}

/// The whole message at a place.
///
/// [`MailFault::Answered`] where none is there, [`MailFault::Refused`] as the file system refuses a call.
pub fn read<S: Served, R: Wait>(
    rt: &R,
    alloc: Global,
    files: &mut LibFs<'_, S>,
    place: &Path,
) -> Result<ByteString, MailFault>
    ensures same { IsSameClient files.old files.new }
    ensures sees { IfOk result (λ message. SeesCall (client_of files.old)
        (Read place.now 0 65536) (seen_by files.old) (Ok (Bytes message)) (seen_by files.new)) }
    ensures stops { IfErr result (λ fault.
        LacksMemory fault (seen_by files.old) (seen_by files.new) ⊎
        ComesToElse (client_of files.old) (Read place.now 0 65536) IsBytes
        (seen_by files.old) fault (seen_by files.new)) }
{
    match files.call(rt, alloc, &Op::Read(place.copy()?, 0, MOST_MESSAGE))? {
        Reply::Bytes(message) => Ok(message),
        other => Err(MailFault::Answered(other)),
    }
}

/// Removes the message at a place; once this returns it is gone, whatever fails.
///
/// [`MailFault::Answered`] where none is there, [`MailFault::Refused`] as the file system refuses a call, and with
/// [`Refusal::OutOfMemory`] before the first one. The message may be gone where the sync is refused.
pub fn remove<S: Served, R: Wait>(
    rt: &R,
    alloc: Global,
    files: &mut LibFs<'_, S>,
    place: &Path,
) -> Result<(), MailFault>
    ensures same { IsSameClient files.old files.new }
    ensures removed { OnOk result (SeesAll AnyTurns (client_of files.old)
        (ops_of (removal_calls place.now)) (seen_by files.old)
        (replies_of (removal_calls place.now)) (seen_by files.new)) }
    ensures stops { IfErr result (λ fault.
        LacksMemory fault (seen_by files.old) (seen_by files.new) ⊎
        StopsAt (client_of files.old) (removal_calls place.now) (seen_by files.old) fault
        (seen_by files.new)) }
{
    let calls = [
        DueCall::done(Op::Unlink(place.copy()?)),
        DueCall::done(Op::Dsync),
    ];
    make_all(rt, alloc, files, &calls)
}
