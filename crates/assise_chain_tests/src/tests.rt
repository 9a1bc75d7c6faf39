//! A log goes from one node to the next.
ghost use Rattle.std.specs.Prelude.{◌≡◌, ◌+◌, ◌≤◌, true, length};

use assise_chain::acceptance::accept;
use assise_chain::messages::message;
use assise_private_log::log::Log;
use assise_record::effect::Effect;
use assise_record::frame::Frame;
use assise_record::record::Record;
use std::alloc::Global;

/// Adds a record.
fn add(alloc: Global, log: &mut Log) -> Option<()> {
    let number = log.end();
    if number == u64::MAX {
        return None;
    }
    let mut effects = Vec::new(alloc);
    effects.push(Effect::Free { inode: 7 }).ok()?;
    log.append(Record::new(number, effects)).ok()
}

/// Whether a log has room up to a frame's last record.
fn has_room(log: &Log, frame: &Frame) -> bool
    ensures { result ≡ true → frame.now.first + length frame.now.records ≤ log.now.first +
        log.now.limit }
{
    let end = frame.first() + frame.records().len() as u64;
    end <= log.first().saturating_add(log.limit() as u64)
}

/// How many of 100 records come with a first message, with marks or without.
fn passed(alloc: Global, marked: bool) -> Option<u64> {
    let mut log = Log::new(alloc, 128).ok()?;
    for _ in 0..100 {
        add(alloc, &mut log)?;
    }
    let mut next = Log::new(alloc, 128).ok()?;
    let frame = message(alloc, &log, marked, 5, 1, 0, 100).ok()??;
    if has_room(&next, &frame) {
        accept(&mut next, frame, 5).ok()
    } else {
        None
    }
}

#[test]
fn at_most_64_records_are_sent_and_taken_in(rt: HostRuntime) {
    assert_eq!(rt; passed(rt.alloc(), true), Some(64));
    assert_eq!(rt; passed(rt.alloc(), false), Some(64));
}
