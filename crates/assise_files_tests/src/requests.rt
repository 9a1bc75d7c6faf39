//! Requests as text, one behind another at one desk.
use assise_desk::caller_desk::{CallerDesk, serve_desk};
use assise_desk::desk_request::DeskRequest;
use assise_test_rows::{Subject, split_word};
use std::alloc::Global;

/// The number of a listing.
const LIST: u32 = 24;

/// The number of a listing that goes on.
const LISTED: u32 = 31;

/// The number of a redo.
const REDO: u32 = 35;

/// The number of a renewal.
const RENEW: u32 = 36;

/// A desk at which requests are served.
#[derive(Drop)]
pub(crate) struct Requests {
    desk: CallerDesk,
}

impl Requests {
    /// A desk without a cluster.
    pub(crate) fn new() -> Requests {
        Requests {
            desk: CallerDesk::empty(),
        }
    }

    /// The number that the last request was answered with.
    pub(crate) fn result(&self) -> i64 {
        self.desk.result
    }

    /// Has a request served, with a path and what stands behind it.
    fn ask(&mut self, alloc: Global, asked: DeskRequest, path: &str, other: &str) -> Option<()> {
        let mut request = asked;
        let bytes = path.len();
        let end = bytes.checked_add(other.len())?;
        let room = self.desk.bytes.get_mut(..end)?;
        let (prefix, back) = room.split_at_mut(bytes);
        prefix.copy_from_slice(path.as_bytes());
        back.copy_from_slice(other.as_bytes());
        request.path_bytes = u32::try_from(bytes).ok()?;
        request.other_bytes = u32::try_from(other.len()).ok()?;
        self.desk.request = request;
        serve_desk(alloc, &mut self.desk);
        Some(())
    }

    /// Has the request of a step served: `WORD NUMBERS.. TEXTS..`. The numbers are the client's or the node's, and two more.
    pub(crate) fn step(&mut self, alloc: Global, step: &str) -> Option<()> {
        let (word, rest) = split_word(step);
        let (mut numbers, mut texts) = ([0_u64; 3], [""; 2]);
        let (mut count, mut found) = (0_usize, 0_usize);
        for part in rest.split(' ') {
            if let Ok(number) = part.parse::<u64>() {
                *numbers.get_mut(count)? = number;
                count = count.saturating_add(1);
            } else {
                *texts.get_mut(found)? = part;
                found = found.saturating_add(1);
            }
        }
        let asked = request(call_named(word)?, numbers);
        self.ask(alloc, asked, texts[0], texts[1])
    }

    /// Client 1 makes `count` files in a directory, whose names have 200 bytes.
    fn make_files(&mut self, alloc: Global, directory: &str, count: u64) -> Option<()> {
        for number in 0..count {
            let step = format!(in alloc; "create 1 {directory}/{number:0200}").ok()?;
            self.step(alloc, step.as_str())?;
        }
        Some(())
    }
}

/// Behind each step its result, and behind that of a listing how many names there are. A step `often STEP` is made twenty times, and
/// `files DIRECTORY` makes a hundred. Behind `bytes TEXT` stands whether the desk's bytes begin with the text.
impl Subject for Requests {
    fn put(&mut self, alloc: Global, steps: &str, text: &mut String) -> Option<()> {
        for step in steps.split("; ") {
            if let ("bytes", begin) = split_word(step) {
                let begins = self.desk.bytes.starts_with(begin.as_bytes());
                write!(text, " {begins}").ok()?;
                continue;
            }
            match split_word(step) {
                ("files", directory) => self.make_files(alloc, directory, 100)?,
                ("often", again) => {
                    for _ in 0..20 {
                        self.step(alloc, again)?;
                    }
                }
                _ => self.step(alloc, step)?,
            }
            let (result, names) = (self.desk.result, self.desk.stands);
            if self.desk.request.call == LIST || self.desk.request.call == LISTED {
                write!(text, " {result} of {names}").ok()?;
            } else {
                write!(text, " {result}").ok()?;
            }
        }
        Some(())
    }
}

fn small(number: u64) -> u32 {
    u32::try_from(number).unwrap_or(u32::MAX)
}

fn request(call: u32, numbers: [u64; 3]) -> DeskRequest {
    let [who, first, second] = numbers;
    let client = small(who);
    // The first number of a renewal is how many records a log has.
    let kind = if call == RENEW { 0 } else { small(first) };
    // That of a redo is the client that lost calls.
    let first = if call == REDO { second } else { first };
    DeskRequest {
        call,
        client,
        node: client,
        path_bytes: 0,
        other_bytes: 0,
        kind,
        first,
        second,
    }
}

/// The number of a request's word, or that of `number NUMBER`.
fn call_named(word: &str) -> Option<u32> {
    match word {
        "make" => Some(1),
        "free" => Some(2),
        "open" => Some(3),
        "crash" => Some(4),
        "fail" => Some(5),
        "back" => Some(6),
        "legal" => Some(7),
        "round" => Some(8),
        "entries" => Some(9),
        "payload" => Some(10),
        "phase" => Some(11),
        "standing" => Some(12),
        "home" => Some(13),
        "answered" => Some(14),
        "replicated" => Some(15),
        "create" => Some(16),
        "mkdir" => Some(17),
        "read" => Some(18),
        "write" => Some(19),
        "truncate" => Some(20),
        "rename" => Some(21),
        "unlink" => Some(22),
        "rmdir" => Some(23),
        "list" => Some(LIST),
        "stat" => Some(25),
        "fsync" => Some(26),
        "dsync" => Some(27),
        "history" => Some(28),
        "tree" => Some(29),
        "page" => Some(30),
        "listed" => Some(LISTED),
        "hot" => Some(32),
        "raise" => Some(33),
        "link" => Some(34),
        "redo" => Some(REDO),
        "renew" => Some(RENEW),
        _ => word.parse::<u32>().ok(),
    }
}
