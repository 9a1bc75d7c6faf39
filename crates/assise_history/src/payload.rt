//! How many bytes an entry keeps of what its call wrote, read or listed.
ghost use Rattle.std.specs.Prelude.{◌≡◌, ◌-◌, ◌^◌, min};
ghost use Rattle.assise_history.specs.Payload.{bytes_answered, bytes_written, name_bytes, payload};

use crate::entry::{Entry, EntryKind};
use assise_names::call::Op;
use assise_names::name::Name;
use assise_names::reply::Reply;

/// The payload of an entry, in bytes.
pub(crate) fn payload(entry: &Entry) -> u64
    ensures { result ≡ min (payload entry.now) (2 ^ 64 - 1) }
{
    match entry.kind() {
        EntryKind::Call(call) => written(&call.op).saturating_add(answered(&call.reply)),
        EntryKind::Open { .. } => 0,
        EntryKind::Crash { .. } => 0,
        EntryKind::Fail { .. } => 0,
        EntryKind::Return { .. } => 0,
    }
}

/// How many bytes a call has written.
fn written(op: &Op) -> u64
    ensures { result ≡ bytes_written op.now }
{
    match op {
        Op::Write(_, _, bytes) => bytes.len() as u64,
        _ => 0,
    }
}

/// How many bytes a call was answered.
fn answered(reply: &Reply) -> u64
    ensures { result ≡ min (bytes_answered reply.now) (2 ^ 64 - 1) }
{
    match reply {
        Reply::Bytes(bytes) => bytes.len() as u64,
        Reply::Names(names) => listed(names.as_slice()),
        _ => 0,
    }
}

/// How many bytes names have together.
fn listed(names: &[Name]) -> u64
    ensures { result ≡ min (name_bytes names.now) (2 ^ 64 - 1) }
{
    let mut bytes = 0u64;
    for name in names {
        bytes = bytes.saturating_add(name.as_str().len() as u64);
    }
    bytes
}
