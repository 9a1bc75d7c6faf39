//! Lists of steps by chance.
use crate::tests::desk::Desk;
use crate::tests::dice::Dice;
use crate::tests::faults::{fault_at_the_end, fault_behind};
use crate::tests::tasks::{Task, on_desk};
use std::alloc::{AllocError, Global};
use std::process::Abort;

/// What calls ask for: few paths, so that they meet.
const PATHS: &str = "/a\n/b\n/c\n/d\n/d/a\n/d/b\n/d/e\n/d/e/a\n/a/b\n/\n";

/// What may come next, some of it likelier: `C` stands for a client, `S` for a node, `P` for a path, and `N` for a number from 1 to 12.
const STEPS: &str = "\
C create P
C create P
C create P
C create P
C create P
C create P
C mkdir P
C mkdir P
C mkdir P
C mkdir P
C read P N N
C read P N N
C read P N N
C read P N N
C read P N N
C read P N N
C write P N tab
C write P N tab
C write P N tcdef
C write P N tcdef
C write /a N tx
C write /a N tx
C write /b N tx
C truncate P N
C truncate P N
C rename P P
C rename P P
C dsync
C dsync
C unlink P
C rmdir P
C list P
C stat P
carry S
carry S
carry S
carry S
carry S
carry S
carry S
carry S
carry S
carry S
link S perfect
link S perfect
link S lose
link S repeat
link S delay
link S cut 65
link S cut N
link S fault
hot S N
C fsync
C fsync
C fsync
C fsync
C fsync
C fsync
digest S
digest S
digest S
digest S
digest S
release
release
release
release
crash C
fail S
fail S
back S
back S
back S
refill S
refill S
refill S
refill S
refill S
refill S
refill S
join S
join S
join S
raise S
";

/// How a client is opened.
const OPENS: &str = "\
open S least
open S whole
open S eights
open S least optimistic
open S whole optimistic
open S eights optimistic
";

/// What comes out of some step of the lists.
const OUTCOMES: [&str; 23] = [
    "Opened(Ok(",
    "Done",
    "Names(",
    "Bytes(",
    "NotYet",
    "Carried(Ok(0))",
    "Carried(Ok(1))",
    "Digested(Ok(1))",
    "Released(1)",
    "HotSet(Ok(",
    "Linked",
    "Crashed(Ok(",
    "Failed(Ok(",
    "Began(Ok(",
    "Left(Ok(",
    "Joined(Ok(",
    "Raised(Ok(",
    "NodeDown",
    "ClientGone",
    "LastNode",
    "BadNode",
    "BadClient",
    "WrongPhase",
];

/// Which of them came out.
type Came = [bool; OUTCOMES.len()];

/// Appends a step by chance, where there are `nodes` nodes, and `clients` clients were opened. Now and then there is no such node or
/// client.
fn put_step(
    dice: &mut Dice,
    nodes: u32,
    clients: u64,
    text: &mut String,
) -> Result<(), AllocError> {
    let step = if dice.number(clients.saturating_add(1).saturating_mul(24)) == 1 {
        dice.line(OPENS)
    } else {
        dice.line(STEPS)
    };
    for word in step.split(' ') {
        put_word(dice, nodes, clients, word, text)?;
        text.push(' ')?;
    }
    Ok(())
}

/// Appends a word of a step, or what it stands for.
fn put_word(
    dice: &mut Dice,
    nodes: u32,
    clients: u64,
    word: &str,
    text: &mut String,
) -> Result<(), AllocError> {
    let most = match word {
        "P" => return text.push_str(dice.line(PATHS)),
        "C" => clients.saturating_add(1),
        "S" => u64::from(nodes).saturating_add(1),
        "N" => 12,
        _ => return text.push_str(word),
    };
    let number = dice.number(most);
    write!(text, "{number}")
}

/// Begins anew with 2 to 4 nodes, and logs of 8 to 13 records.
fn begin(alloc: Global, dice: &mut Dice, desk: &mut Desk) -> Option<()> {
    let log = dice.below(6) as usize + 8;
    let nodes = dice.below(3) as u32 + 2;
    desk.renew(alloc, nodes, log, 2)
}

/// What is wrong behind a step of a list, or once all nodes are back, and all is digested. None where memory runs out.
fn fault_of(
    alloc: Global,
    dice: &mut Dice,
    desk: &mut Desk,
    lists: Lists,
    came: &mut Came,
) -> Option<&'static str> {
    begin(alloc, dice, desk)?;
    let mut clients = 0_u64;
    for number in 1..=lists.steps {
        make_next(alloc, dice, desk, clients)?;
        note(came, desk.outcome.as_str());
        if desk.outcome.as_str().starts_with("Opened(Ok") {
            clients = clients.saturating_add(1);
        }
        if number % lists.apart.max(1) == 0 {
            let fault = fault_behind(alloc, desk)?;
            if !fault.is_empty() {
                return Some(fault);
            }
        }
    }
    fault_at_the_end(alloc, desk)
}

/// Makes a step by chance, now and then often.
fn make_next(alloc: Global, dice: &mut Dice, desk: &mut Desk, clients: u64) -> Option<()> {
    desk.line.clear();
    put_step(dice, desk.nodes, clients, &mut desk.line).ok()?;
    let times = if dice.number(8) == 1 { 14 } else { 1 };
    for _ in 0..times {
        desk.make_line(alloc)?;
    }
    Some(())
}

/// Notes what stands in what came out.
fn note(came: &mut Came, outcome: &str) {
    for place in 0..OUTCOMES.len() {
        if outcome.contains(OUTCOMES[place]) {
            came[place] = true;
        }
    }
}

/// Lists of steps by chance, of pessimistic and optimistic clients.
#[derive(Clone, Copy)]
pub(crate) struct Lists {
    /// Where chance begins.
    pub(crate) seed: u64,
    /// How many lists, and how many steps each has.
    pub(crate) lists: u32,
    pub(crate) steps: u32,
    /// It is looked at what is wrong each time that this number of steps is done.
    pub(crate) apart: u32,
}

/// Sees that nothing is wrong behind the steps of lists, and that these have each outcome.
pub(crate) fn see_lists(alloc: Global, rt: &impl Abort, desk: &mut Desk, lists: Lists) {
    let mut dice = Dice::new(lists.seed);
    let mut came = [false; OUTCOMES.len()];
    for list in 0..lists.lists {
        let fault = fault_of(alloc, &mut dice, desk, lists, &mut came);
        assert!(rt; fault == Some(""), "list {list}: {fault:?}");
    }
    assert!(rt; !came.contains(&false), "an outcome is missing");
}

fn see(alloc: Global, rt: &impl Abort, lists: Lists) {
    on_desk(alloc, rt, Task::Chance(lists)).expect(rt, "no memory");
}

#[test]
fn lists_by_chance_end_well(rt: HostRuntime) {
    let lists = Lists {
        seed: 1,
        lists: 60,
        steps: 200,
        apart: 1,
    };
    see(rt.alloc(), &rt, lists);
}

/// Forty lists of 500 steps each, five times.
const LONG: Lists = Lists {
    seed: 2,
    lists: 40,
    steps: 500,
    apart: 250,
};

#[test]
fn long_lists_from_seed_2_end_well(rt: HostRuntime) {
    see(rt.alloc(), &rt, LONG);
}

#[test]
fn long_lists_from_seed_3_end_well(rt: HostRuntime) {
    see(rt.alloc(), &rt, Lists { seed: 3, ..LONG });
}

#[test]
fn long_lists_from_seed_4_end_well(rt: HostRuntime) {
    see(rt.alloc(), &rt, Lists { seed: 4, ..LONG });
}

#[test]
fn long_lists_from_seed_5_end_well(rt: HostRuntime) {
    see(rt.alloc(), &rt, Lists { seed: 5, ..LONG });
}

#[test]
fn long_lists_from_seed_6_end_well(rt: HostRuntime) {
    see(rt.alloc(), &rt, Lists { seed: 6, ..LONG });
}
