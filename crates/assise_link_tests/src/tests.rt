//! What comes over links of tests.
use assise_link::hostile::{CuttingLink, DelayingLink, FaultyLink, LosingLink, RepeatingLink};
use assise_link::link::{Link, LinkFault, PerfectLink};
use assise_link::test_link::TestLink;
use assise_test_rows::{Subject, show, split_word};
use std::alloc::Global;
use std::str;

/// A link of a kind is handed one word after another. What comes, where `-` is nothing and `!` a fault, and how many faults it had.
const CARRIED: &str = "\
perfect ab cd => ab cd 0
lose ab cd => - - 0
repeat ab cd ef gh => ab ab ef ef 0
delay ab cd ef => - ab cd 0
cut1 ab cd => a c 0
cut2 a bcd ef => a bc ef 0
fault ab cd => ! ! 2";

/// Links, one for each row.
#[derive(Drop)]
struct Links;

impl Subject for Links {
    fn put(&mut self, alloc: Global, steps: &str, text: &mut String) -> Option<()> {
        let (kind, words) = split_word(steps);
        let mut link = link_of(kind)?;
        for word in words.split(' ') {
            put_carried(alloc, &mut link, word, text)?;
        }
        write!(text, " {}", link.faults()).ok()
    }
}

/// A link that carried nothing.
fn link_of(kind: &str) -> Option<TestLink> {
    match kind {
        "perfect" => Some(TestLink::Perfect(PerfectLink::new())),
        "lose" => Some(TestLink::Lose(LosingLink)),
        "repeat" => Some(TestLink::Repeat(RepeatingLink::new())),
        "delay" => Some(TestLink::Delay(DelayingLink::new())),
        "cut1" => Some(TestLink::Cut(CuttingLink::new(1))),
        "cut2" => Some(TestLink::Cut(CuttingLink::new(2))),
        "fault" => Some(TestLink::Fault(FaultyLink::new())),
        _ => None,
    }
}

/// Hands a word to a link, and appends what comes.
fn put_carried(alloc: Global, link: &mut TestLink, word: &str, text: &mut String) -> Option<()> {
    match link.carry(alloc, word.as_bytes()) {
        Ok(Some(came)) => {
            let came = str::from_utf8(came.as_slice()).ok()?;
            write!(text, " {came}").ok()
        }
        Ok(None) => text.push_str(" -").ok(),
        Err(LinkFault::Device) => text.push_str(" !").ok(),
        Err(LinkFault::Memory) => None,
    }
}

#[test]
fn a_link_of_each_kind_answers_as_it_is_called(rt: HostRuntime) {
    assert_eq!(rt; show(rt.alloc(), &mut Links, CARRIED).as_str(), "right");
}
