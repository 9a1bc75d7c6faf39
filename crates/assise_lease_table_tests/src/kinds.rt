//! What the kinds of revokers answer.
use assise_private_log::log::Log;
use assise_record::effect::Effect;
use assise_record::record::Record;
use assise_revokers::kinds::{eights, least, whole};
use std::alloc::Global;

/// The first number of a log, its end, and the last touch of inode 7; and what the kinds `least`, `whole` and `eights` answer then.
const CUTS: &[((u64, u64, Option<u64>), [u64; 3])] = &[
    ((3, 20, Some(9)), [10, 20, 16]),
    ((3, 20, None), [3, 20, 8]),
    ((3, 6, Some(4)), [5, 6, 6]),
    ((0, 0, None), [0, 0, 0]),
];

/// Appends records up to an end, each of which touches an inode of its own, but for that of one number.
fn fill(alloc: Global, log: &mut Log, end: u64, last: Option<u64>) -> Option<()> {
    for number in 0..end {
        if log.end() == u64::MAX {
            return None;
        }
        let inode = if last == Some(number) { 7 } else { 8 };
        let effects = vec![in alloc; Effect::Free { inode }].ok()?;
        log.append(Record::new(number, effects)).ok()?;
    }
    Some(())
}

fn answers(alloc: Global, first: u64, end: u64, last: Option<u64>) -> Option<[u64; 3]> {
    let mut log = Log::new(alloc, 64).ok()?;
    fill(alloc, &mut log, end, last)?;
    log.drop_front(first);
    let view = log.view();
    Some([least(view, 7), whole(view, 7), eights(view, 7)])
}

#[test]
fn the_kinds_answer_cuts(rt: HostRuntime) {
    for &((first, end, last), wanted) in CUTS {
        assert_eq!(rt; answers(rt.alloc(), first, end, last), Some(wanted));
    }
}
