//! What a node sends of its log.
ghost use Rattle.std.specs.Prelude.{◌≡◌, ◌+◌, ◌<◌, ◌^◌, IfOk, IsOk, IsOkUnless, [], take};
ghost use Rattle.assise_private_log.specs.NumberedLog.{records_from};
ghost use Rattle.assise_names.specs.declared.refusal.Refusal.TheVariants.{OutOfMemory};
ghost use Rattle.assise_chain.specs.Messages.{last_marks, message_of, sent};

use assise_names::refusal::Refusal;
use assise_private_log::log::Log;
use assise_record::frame::{Frame, MOST_RECORDS};
use assise_record::record::Record;
use std::alloc::{AllocError, Global};

/// A frame of the records of a log that are numbered from `from` on, or from the log's first where that is later, and below
/// `to`: whole groups of them, as many as have at most 64 records together, with their marks in version 2 or without in version
/// 1. None, where there is no such group. The bytes of writes are shared. The one refusal is [`Refusal::OutOfMemory`].
pub fn message(
    alloc: Global,
    log: &Log,
    marked: bool,
    epoch: u64,
    client: u32,
    from: u64,
    to: u64,
) -> Result<Option<Frame>, Refusal>
    requires a_client { 0 < client }
    ensures exact { IfOk result
        (λ message. message ≡ message_of log.now marked epoch client from to) }
    ensures only_memory { IsOkUnless result OutOfMemory }
    ensures nothing_asked { sent log.now from to ≡ [] → IsOk result }
{
    let first = from.max(log.first());
    let end = to.min(log.end());
    let most = MOST_RECORDS.min(end.saturating_sub(first) as usize);
    let count = log.whole_count(first, most);
    if count == 0 {
        return Ok(None);
    }
    let records = copies(alloc, log, from, count)?;
    if !marked {
        return Ok(Some(Frame::new(epoch, client, first, records)));
    }
    let last = last_marks(alloc, log, first, count)?;
    Ok(Some(Frame::with_marks(epoch, client, first, records, last)))
}

/// Of each of `count` records from a number on, whether it is the last of its group.
fn last_marks(alloc: Global, log: &Log, first: u64, count: usize) -> Result<Vec<bool>, AllocError>
    requires fits { first + count < 2 ^ 64 }
    ensures marks { IfOk result (λ marks. marks.items ≡ last_marks log.now first count) }
{
    let mut marks = Vec::with_capacity(alloc, count)?;
    for place in 0..count {
        marks.push(log.is_border(first + place as u64 + 1))?;
    }
    Ok(marks)
}

/// Equal records: the first ones of those from a number on.
fn copies(alloc: Global, log: &Log, from: u64, count: usize) -> Result<Vec<Record>, Refusal>
    ensures equal { IfOk result (λ copied. copied.items ≡ take count (records_from log.now from)) }
    ensures only_memory { IsOkUnless result OutOfMemory }
{
    let mut copied = Vec::with_capacity(alloc, count)?;
    for record in log.since(from).take(count) {
        copied.push(record.copy(alloc)?)?;
    }
    Ok(copied)
}
