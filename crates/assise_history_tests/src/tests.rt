//! Histories that grow entry by entry.
use assise_history::call::{Call, Loss};
use assise_history::check::check;
use assise_history::entry::Entry;
use assise_history::history::History;
use assise_history::kept::kept;
use assise_names::call::Op;
use assise_names::durability::Durability;
use assise_names::reply::{Reply, TreeError};
use assise_test_rows::calls::call_in;
use assise_test_rows::{Subject, show, split_word};
use std::alloc::Global;

/// Clients open, call, crash and are lost. Behind each entry it is told how many calls are kept.
const LEGAL: &str = "\
open 1 1 => legal 0
open 2 2 => legal 0
call 1 0 create /f = done => legal 1
call 1 1 write /f 0 thi = done => legal 2
call 2 0 stat /f = file 2 => legal 3
call 2 1 truncate /f 9 = done => legal 4
crash 2 => legal 4
call 1 2 stat /f = file 9 => legal 5
fail 2 => legal 5
return 2 => legal 5
open 3 2 => legal 5
call 3 0 stat /g = E1 NoEnt => legal 6

open 1 1 => legal 0
open 2 1 => legal 0
call 1 0 create /a = done => legal 1
call 2 0 create /b = done => legal 2
call 1 1 stat /b = file 0 => legal 3
fail 1 1:1 2:0 => legal 1
open 3 2 => legal 1
call 3 0 stat /b = E1 NoEnt => legal 2

open 1 1 => legal 0
call 1 0 fsync = done => legal 1
call 1 1 create /a = done => legal 2
fail 1 1:1 => legal 1
fail 1 => legal 1
return 1 => legal 1

open 1 1 optimistic => legal 0
call 1 0 create /a = done => legal 1
call 1 1 dsync = done => legal 2
call 1 2 fsync = done => legal 3
fail 1 1:2 => legal 2
";

/// Each last entry is one too many.
const ILLEGAL: &str = "\
open 2 1 => illegal 0

open 1 1 => legal 0
open 1 1 => illegal 0

call 1 0 create /f = done => illegal 1

open 1 1 => legal 0
call 1 1 create /f = done => illegal 1

open 1 1 => legal 0
call 1 0 stat / = dir 1 => illegal 1

crash 1 => illegal 0

open 1 1 => legal 0
crash 1 => legal 0
crash 1 => illegal 0

open 1 1 => legal 0
crash 1 => legal 0
call 1 0 create /f = done => illegal 1

open 1 1 => legal 0
fail 1 => legal 0
return 1 => legal 0
call 1 0 create /f = done => illegal 1

fail 1 => legal 0
open 1 1 => illegal 0

return 1 => illegal 0

fail 1 1:0 => illegal 0

open 1 1 => legal 0
call 1 0 create /f = done => legal 1
fail 2 1:0 => illegal 0

open 1 1 => legal 0
open 2 1 => legal 0
fail 1 2:0 1:0 => illegal 0

open 1 1 => legal 0
call 1 0 create /f = done => legal 1
fail 1 => legal 1
return 1 => legal 1
fail 1 1:0 => illegal 0

open 1 1 => legal 0
open 2 2 => legal 0
call 1 0 create /f = done => legal 1
call 2 0 stat /f = file 0 => legal 2
fail 1 1:0 => illegal 1

open 1 1 => legal 0
call 1 0 create /a = done => legal 1
call 1 1 fsync = done => legal 2
fail 1 1:1 => illegal 1

open 1 1 optimistic => legal 0
call 1 0 create /a = done => legal 1
call 1 1 dsync = done => legal 2
fail 1 1:0 => illegal 0
";

/// A history, to which each row adds an entry as it is printed, but for the data of a write. A blank row begins another one.
#[derive(Drop)]
struct Growing {
    history: History,
}

impl Subject for Growing {
    fn put(&mut self, alloc: Global, steps: &str, text: &mut String) -> Option<()> {
        if steps.is_empty() {
            self.history = History::new(alloc);
            return Some(());
        }
        add(alloc, &mut self.history, steps)?;
        put_verdict(alloc, &self.history, text)
    }
}

/// Adds an entry.
fn add(alloc: Global, history: &mut History, line: &str) -> Option<()> {
    let entry = entry_of(alloc, line)?;
    history.reserve().ok()?;
    history.push(entry);
    Some(())
}

/// Appends whether a history is legal, and how many of its calls are kept.
fn put_verdict(alloc: Global, history: &History, text: &mut String) -> Option<()> {
    let legal = check(alloc, history).ok()?;
    let word = if legal { "legal" } else { "illegal" };
    let count = kept(alloc, history).ok()?.len();
    write!(text, " {word} {count}").ok()
}

fn entry_of(alloc: Global, line: &str) -> Option<Entry> {
    let (word, rest) = split_word(line);
    match word {
        "open" => open_of(rest),
        "call" => Some(Entry::call(call_of(alloc, rest)?)),
        "crash" => Some(Entry::crash(rest.parse::<u32>().ok()?)),
        "fail" => failure_of(alloc, rest),
        "return" => Some(Entry::node_return(rest.parse::<u32>().ok()?)),
        _ => None,
    }
}

/// `CLIENT NODE`, with `optimistic` behind it where the client isn't pessimistic.
fn open_of(words: &str) -> Option<Entry> {
    let (client, rest) = split_word(words);
    let (node, mode) = split_word(rest);
    let durability = match mode {
        "optimistic" => Durability::Optimistic,
        _ => Durability::Pessimistic,
    };
    Some(Entry::open(
        client.parse::<u32>().ok()?,
        node.parse::<u32>().ok()?,
        durability,
    ))
}

/// `CLIENT NUMBER CALL = REPLY`.
fn call_of(alloc: Global, text: &str) -> Option<Call> {
    let (asked, answered) = text.split_once(" = ")?;
    let (client, asked) = split_word(asked);
    let (number, asked) = split_word(asked);
    Some(Call {
        client: client.parse::<u32>().ok()?,
        number: number.parse::<u64>().ok()?,
        op: call_in(alloc, asked)?,
        reply: reply_of(answered)?,
    })
}

/// A reply without bytes and names. The one error is that nothing is there.
fn reply_of(text: &str) -> Option<Reply> {
    match split_word(text) {
        ("done", _) => Some(Reply::Done),
        ("file", size) => Some(Reply::File(size.parse::<u64>().ok()?)),
        ("dir", entries) => Some(Reply::Dir(entries.parse::<u64>().ok()?)),
        ("E1", _) => Some(Reply::Error(TreeError::NoEnt)),
        _ => None,
    }
}

/// `NODE CLIENT:FIRST ..`.
fn failure_of(alloc: Global, text: &str) -> Option<Entry> {
    let (node, rest) = split_word(text);
    let node = node.parse::<u32>().ok()?;
    let mut losses = Vec::new(alloc);
    for word in rest.split_whitespace() {
        let (client, first) = word.split_once(':')?;
        let client = client.parse::<u32>().ok()?;
        let first = first.parse::<u64>().ok()?;
        losses.push(Loss { client, first }).ok()?;
    }
    Some(Entry::fail(node, losses))
}

/// What comes out of histories that begin with none.
fn shown(alloc: Global, rows: &str) -> String {
    let history = History::new(alloc);
    show(alloc, &mut Growing { history }, rows)
}

#[test]
fn legal_histories_pass_and_others_do_not(rt: HostRuntime) {
    assert_eq!(rt; shown(rt.alloc(), LEGAL).as_str(), "right");
    assert_eq!(rt; shown(rt.alloc(), ILLEGAL).as_str(), "right");
}

/// What [`put_verdict`] says of a history of `count` calls.
fn verdict_of(alloc: Global, calls: u64) -> Option<String> {
    let mut history = History::new(alloc);
    add(alloc, &mut history, "open 1 1")?;
    for number in 0..calls {
        history.reserve().ok()?;
        history.push(Entry::call(Call {
            client: 1,
            number,
            op: Op::Fsync,
            reply: Reply::Done,
        }));
    }
    let mut text = String::new(alloc);
    put_verdict(alloc, &history, &mut text)?;
    Some(text)
}

#[test]
fn a_history_of_100000_calls_is_checked(rt: HostRuntime) {
    let verdict = verdict_of(rt.alloc(), 100_000);
    assert_eq!(rt; verdict.as_deref(), Some(" legal 100000"));
}
