//! Steps on a cluster: lines of scripts.
use crate::tests::desk::{Asked, Desk};
use assise_fault_script::command::{Command, LinkKind};
use assise_fault_script::parse::parse;
use assise_link::test_link::TestLink;
use assise_machine::answer::Answer;
use assise_machine::event::Event;
use assise_machine::hot::HotCapacity;
use assise_machine::run::run;
use assise_names::call::Op;
use assise_rounds::rounds::replicate;
use std::alloc::Global;

impl Desk {
    /// Makes the step of a line; one that only looks does nothing. None where there is no such step, or no memory to read it or to tell of it.
    pub(crate) fn make(&mut self, alloc: Global, line: &str) -> Option<()> {
        self.line.clear();
        self.line.push_str(line).ok()?;
        self.make_line(alloc)
    }

    /// Makes the step of a word with the number of a node.
    pub(crate) fn make_of(&mut self, alloc: Global, word: &str, node: u32) -> Option<()> {
        self.line.clear();
        write!(self.line, "{word} {node}").ok()?;
        self.make_line(alloc)
    }

    /// Makes the step of its line, tells what it comes to, and keeps the line.
    pub(crate) fn make_line(&mut self, alloc: Global) -> Option<()> {
        let command = command_of(alloc, self.line.as_str())?;
        self.outcome.clear();
        self.make_command(alloc, command)?;
        self.steps.push_str(self.line.as_str()).ok()?;
        self.steps.push('\n').ok()
    }

    fn make_command(&mut self, alloc: Global, command: Command) -> Option<()> {
        match command {
            Command::Cluster { nodes, log, hot } => {
                self.renew(alloc, small(nodes), log as usize, hot as usize)
            }
            Command::Carry { node } => self.carry(alloc, small(node)),
            Command::Link { node, kind } => self.set_link(node as usize, kind),
            Command::Open {
                node,
                kind,
                durability,
            } => {
                self.stock.push(Asked { kind }).ok()?;
                self.happen(alloc, Event::Open(small(node), durability))
            }
            _ => match event_of(command) {
                Some(event) => self.happen(alloc, event),
                None => Some(()),
            },
        }
    }

    /// What a node sends goes over its link, and comes to the nodes that it is for.
    fn carry(&mut self, alloc: Global, node: u32) -> Option<()> {
        let link = self.links.get_mut((node as usize).checked_sub(1)?)?;
        let taken = replicate(alloc, &mut self.cluster, link, node);
        write!(self.outcome, "Carried({taken:?})").ok()
    }

    /// A node has a new link.
    fn set_link(&mut self, node: usize, kind: LinkKind) -> Option<()> {
        let link = self.links.get_mut(node.checked_sub(1)?)?;
        *link = link_of(kind);
        self.outcome.push_str("Linked").ok()
    }

    /// An event happens, as a list of one.
    fn happen(&mut self, alloc: Global, event: Event) -> Option<()> {
        let events = vec![in alloc; event].ok()?;
        match run(alloc, &mut self.cluster, events.as_slice(), &mut self.stock) {
            Ok(answers) => put_answers(answers.as_slice(), &mut self.outcome),
            Err(refusal) => write!(self.outcome, "{refusal:?}").ok(),
        }
    }
}

/// A number of a line as that of a node or a client, of which there is none so great.
fn small(number: u64) -> u32 {
    u32::try_from(number).unwrap_or(u32::MAX)
}

fn put_answers(answers: &[Answer], text: &mut String) -> Option<()> {
    for answer in answers {
        write!(text, "{answer:?}").ok()?;
    }
    Some(())
}

fn link_of(kind: LinkKind) -> TestLink {
    match kind {
        LinkKind::Perfect => TestLink::perfect(),
        LinkKind::Lose => TestLink::lose(),
        LinkKind::Repeat => TestLink::repeat(),
        LinkKind::Delay => TestLink::delay(),
        LinkKind::Cut(most) => TestLink::cut(most as usize),
        LinkKind::Fault => TestLink::fault(),
    }
}

/// The event of a command. None of one that is no event, or not of a node, a client or a capacity.
fn event_of(command: Command) -> Option<Event> {
    match command {
        Command::Call { client, op } => Some(called(small(client), op)),
        Command::Digest { node } => Some(Event::Digest(small(node))),
        Command::Release => Some(Event::ReleaseReady),
        Command::Hot { node, capacity } => set_hot(small(node), capacity as usize),
        Command::Crash { client } => Some(Event::Crash(small(client))),
        Command::Fail { node } => Some(Event::Fail(small(node))),
        Command::Back { node } => Some(Event::Back(small(node))),
        Command::Refill { node } => Some(Event::Refill(small(node))),
        Command::Join { node } => Some(Event::Join(small(node))),
        Command::Raise { node } => Some(Event::Raise(small(node))),
        _ => None,
    }
}

fn called(client: u32, op: Op) -> Event {
    if matches!(&op, Op::Fsync) {
        Event::Fsync(client)
    } else {
        Event::Call(client, op)
    }
}

fn set_hot(node: u32, capacity: usize) -> Option<Event> {
    Some(Event::SetHot(node, HotCapacity::new(capacity)?))
}

/// The command of a line, in front of which there is a cluster.
fn command_of(alloc: Global, line: &str) -> Option<Command> {
    let cluster = if line.starts_with("cluster") {
        ""
    } else {
        "cluster 1 8 1\n"
    };
    let script = format!(in alloc; "{cluster}{line}").ok()?;
    let mut commands = parse(alloc, script.as_bytes()).ok()?;
    let last = commands.pop()?;
    Some(last.command)
}
