//! What contracts can't say: that two threads get on, and that a keeper has its state once it is closed.
use crate::book::Book;
use crate::threads::{Ended, two_clients};
use assise_keeper::keeper::Keeper;
use std::alloc::Global;
use std::sync::Wait;
use std::thread::{Threads, join};
use std::time::Duration;

/// Longer than a test may take, in seconds.
const LONG: u64 = 3600;

/// Whether a thousand calls of each of two clients stand in the book, and nothing else but their openings.
fn has_all(ended: &Ended) -> bool {
    let Some(book) = &ended.book else {
        return false;
    };
    ended.first.numbers.len() == 1000
        && ended.second.numbers.len() == 1000
        && ended.looked <= 2000
        && book.calls() == 2000
        && book.history().entries().len() == 2002
}

#[test]
fn the_calls_of_two_threads_stand_in_the_history(rt: HostRuntime) {
    let ended = two_clients(&rt, rt.alloc(), 1000).expect(&rt, "a call was refused");
    assert!(rt; has_all(&ended));
}

/// How often an event happened for a thread that waits for the next one, an hour at most, beside one that lets it happen; and then for
/// who waits for what happened before.
fn times_after_waits<R: Threads + Wait + Sync>(rt: &R, alloc: Global) -> Option<(u64, u64)> {
    let (keeper, first) = Keeper::new(alloc, Book::new(alloc)).ok()?;
    let events = keeper.progress();
    let (before, most) = (events.read(), Duration::from_secs(LONG));
    join(rt, || events.wait(rt, before, most), || events.advance());
    let after = events.read();
    events.wait(rt, before, most);
    drop(first);
    keeper.close()?;
    Some((before, after))
}

#[test]
fn who_waits_goes_on_once_it_happens(rt: HostRuntime) {
    assert_eq!(rt; times_after_waits(&rt, rt.alloc()), Some((0, 1)));
}
