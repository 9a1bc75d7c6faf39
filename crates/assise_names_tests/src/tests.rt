//! Calls and replies that are made and copied, and what is printed of the copy.
use assise_names::byte_string::ByteString;
use assise_names::name::Name;
use assise_names::name_list::NameList;
use assise_names::reply::Reply;
use assise_test_rows::calls::call_in;
use assise_test_rows::{Subject, show, split_word};
use std::alloc::Global;

/// Calls, and the replies of some bytes and of some names. A call tells how many bytes it writes.
const COPIED: &str = "\
create /f => create /f
read /a/b 0 10 => read /a/b 0 10
write /f 9 tabc => write /f 9 3
mkdir /d => mkdir /d
truncate /f 1048577 => truncate /f 1048577
rename /a/b / => rename /a/b /
unlink /f => unlink /f
rmdir /d => rmdir /d
list /ä/-/... => list /ä/-/...
stat / => stat /
fsync => fsync
dsync => dsync
bytes abc => bytes 3 x616263
names B a ab é => names 4 B a ab é
";

/// What is copied.
#[derive(Clone, Copy)]
struct Copies;

impl Subject for Copies {
    fn put(&mut self, alloc: Global, steps: &str, text: &mut String) -> Option<()> {
        match split_word(steps) {
            ("bytes", bytes) => put_reply(alloc, &bytes_reply(alloc, bytes)?, text),
            ("names", names) => put_reply(alloc, &names_reply(alloc, names)?, text),
            _ => put_call(alloc, steps, text),
        }
    }
}

/// Appends a copy of a call.
fn put_call(alloc: Global, call: &str, text: &mut String) -> Option<()> {
    let copied = call_in(alloc, call)?.copy().ok()?;
    write!(text, " {copied}").ok()
}

/// Appends a copy of a reply.
fn put_reply(alloc: Global, reply: &Reply, text: &mut String) -> Option<()> {
    let copied = reply.copy(alloc).ok()?;
    write!(text, " {copied}").ok()
}

fn bytes_reply(alloc: Global, text: &str) -> Option<Reply> {
    let bytes = Vec::from_slice(alloc, text.as_bytes()).ok()?;
    Some(Reply::Bytes(ByteString::from_vec(bytes).ok()?))
}

/// The reply of names that ascend.
fn names_reply(alloc: Global, words: &str) -> Option<Reply> {
    let mut names = Vec::new(alloc);
    for word in words.split(' ') {
        names.push(Name::parse(alloc, word).ok()?).ok()?;
    }
    if NameList::ascend(&names) {
        Some(Reply::Names(NameList::from_vec(alloc, names).ok()?))
    } else {
        None
    }
}

#[test]
fn calls_and_replies_are_copied_and_printed(rt: HostRuntime) {
    assert_eq!(rt; show(rt.alloc(), &mut Copies, COPIED).as_str(), "right");
}
