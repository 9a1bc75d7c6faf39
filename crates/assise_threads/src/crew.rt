//! Runs commands with a main thread, and a thread for each client.
ghost use Rattle.std.specs.Prelude.{◌≡◌, ◌≤◌, [], IfErr, OnOk};
ghost use Rattle.std.specs.Io.KnownBytes.{Appends};
ghost use Rattle.assise_console.specs.Lines.{line_text};
ghost use Rattle.assise_threads.specs.CallsAhead.{calls_ahead};
ghost use Rattle.assise_threads.specs.Runs.{EndsRun};

use crate::main_thread::MainThread;
use crate::stretch::serve;
use crate::takes::Take;
use assise_console::engine::print;
use assise_console::fault::EngineFault;
use assise_console::response::Response;
use assise_console::stock::Stock;
use assise_fault_script::command::{Command, RevokerKind};
use assise_fault_script::parse::NumberedCommand;
use assise_history::history::History;
use assise_lease_table::revoker::Revoker;
use assise_libfs::libfs::LibFs;
use assise_machine::cluster::Cluster;
use assise_names::durability::Durability;
use assise_names::refusal::Refusal;
use assise_workers::gate::OpenGate;
use std::alloc::Global;
use std::io::Write;
use std::mem;
use std::sync::Wait;
use std::thread::Threads;

/// What the main thread runs commands with.
#[derive(Drop)]
pub(crate) struct Crew<'a> {
    main: MainThread<'a>,
    gate: &'a OpenGate,
    stock: Stock<Revoker>,
    nodes: u32,
    turns: u32,
    ghost some_turns: { 1 ≤ turns },
    ghost few_turns: { turns ≤ 1000000 },
}

/// How many of the first commands are calls.
fn calls_ahead(commands: &[NumberedCommand]) -> usize
    ensures { result ≡ calls_ahead commands.now }
{
    let mut count = 0;
    for line in commands {
        let Command::Call { .. } = line.command else {
            return count;
        };
        count += 1;
    }
    count
}

/// Writes the line of an answer that isn't the history.
fn write_answer<W: Write>(
    alloc: Global,
    writer: &mut W,
    line: u64,
    answer: Response,
) -> Result<(), EngineFault>
    ensures written { OnOk result (Appends (W.contents writer.old) (W.contents writer.new)
        (line_text line [] answer)) }
    ensures fault { IfErr result EndsRun }
{
    print(writer, line, &History::new(alloc), &answer)
}

impl<'a> Crew<'a> {
    ghost use Rattle.std.specs.Prelude.{◌≡◌, ◌≤◌, [], ℕ, IfErr, IfOk, List, OnOk, length, take};
    ghost use Rattle.std.specs.Io.KnownBytes.{Appends};
    ghost use Rattle.assise_fault_script.specs.declared.command.Command.TheVariants.{History as WholeHistory};
    ghost use Rattle.assise_history.specs.Legal.{IsLegal};
    ghost use Rattle.assise_history.specs.Text.{history_text};
    ghost use Rattle.assise_keeper.specs.Clients.{Extends};
    ghost use Rattle.assise_console.specs.Lines.{numbered_line};
    ghost use Rattle.assise_console.specs.Stored.{revokers_left};
    ghost use Rattle.assise_fault_script.specs.declared.command.RevokerKind.{RevokerKind as Kind};
    ghost use Rattle.assise_console.specs.declared.response.Response.TheVariants.{Client};
    ghost use Rattle.assise_machine.specs.Following.{IsWorkedTo};
    ghost use Rattle.assise_threads.specs.Answered.{AnswersCommand, OpensOne};
    ghost use Rattle.assise_threads.specs.Begun.{machine_begun};
    ghost use Rattle.assise_threads.specs.CallsAhead.{AreSaidNext};
    ghost use Rattle.assise_threads.specs.Hearing.{sights};
    ghost use Rattle.assise_threads.specs.Runs.{EndsRun, IsRunSaid};
    ghost use Rattle.assise_threads.specs.Openings.{OpensJust, OpensNone, opened_by, opening_in, with_opened};
    ghost use Rattle.assise_threads.specs.Spoken.{AreAllSaid, IsOneSaid, IsStretchSaid};
    ghost use Rattle.assise_threads.specs.Stretches.{AreCalls, IsClientCall};
    ghost use Rattle.assise_threads.specs.AtKeeper.{AreClients};
    ghost use Rattle.assise_threads.specs.Threads.{main_keeper, main_seen};

    /// A main thread of a cluster of `nodes` nodes, with revokers for clients, each call of which is tried at most `turns` times.
    pub(crate) fn new(
        main: MainThread<'a>,
        gate: &'a OpenGate,
        stock: Stock<Revoker>,
        nodes: u32,
        turns: u32,
    ) -> Crew<'a>
        requires some_turns { 1 ≤ turns }
        requires few_turns { turns ≤ 1000000 }
        ensures seen { main_seen result.main ≡ main_seen main.entry }
        ensures turns { result.turns ≡ turns }
    {
        Crew {
            main,
            gate,
            stock,
            nodes,
            turns,
        }
    }

    /// Runs the commands of a script, and writes the line of each answer.
    pub(crate) fn run<W: Write, R: Threads + Wait + Sync>(
        mut self,
        rt: &'a R,
        alloc: Global,
        commands: &'a [NumberedCommand],
        writer: &mut W,
    ) -> Result<(), EngineFault>
        requires { main_seen self.main ≡ machine_begun commands.now }
        ensures done { OnOk result (IsRunSaid self.entry.turns commands.now
            (W.contents writer.old) (W.contents writer.new)) }
        ensures fault { IfErr result EndsRun }
    {
        let mut clients = Vec::new(alloc);
        self.run_all(rt, alloc, &mut clients, commands, writer)?;
        let Crew {
            main,
            gate: _,
            stock: _,
            nodes: _,
            turns: _,
        } = self;
        main.end(rt, clients);
        Ok(())
    }

    /// Runs commands in order, and writes the line of each answer.
    fn run_all<W: Write, R: Threads + Wait + Sync>(
        &mut self,
        rt: &'a R,
        alloc: Global,
        clients: &mut Vec<LibFs<'a, Cluster>>,
        commands: &'a [NumberedCommand],
        writer: &mut W,
    ) -> Result<(), EngineFault>
        requires nothing_seen { (main_seen self.old.main).history ≡ [] }
        requires no_clients { clients.old.items ≡ [] }
        ensures at { OnOk result (AreClients (main_keeper self.new.main) self.new.turns
            clients.new.items) }
        ensures turns { self.new.turns ≡ self.old.turns }
        ensures done { OnOk result (AreAllSaid self.old.turns
            (main_seen self.old.main) commands.now
            (main_seen self.new.main) (sights clients.new.items)
            (W.contents writer.old) (W.contents writer.new)) }
        ensures fault { IfErr result EndsRun }
    {
        let mut done = 0;
        while done < commands.len() {
            let (_, rest) = commands.split_at(done);
            done += self.run_next(rt, alloc, clients, rest, writer)?;
        }
        Ok(())
    }

    /// Runs the calls in front of these commands, or else the first command, and answers how many it ran.
    fn run_next<W: Write, R: Threads + Wait + Sync>(
        &mut self,
        rt: &'a R,
        alloc: Global,
        clients: &mut Vec<LibFs<'a, Cluster>>,
        commands: &'a [NumberedCommand],
        writer: &mut W,
    ) -> Result<usize, EngineFault>
        requires some { 1 ≤ length commands.now }
        requires at { AreClients (main_keeper self.old.main) self.old.turns clients.old.items }
        ensures at { OnOk result (AreClients (main_keeper self.new.main) self.new.turns
            clients.new.items) }
        ensures turns { self.new.turns ≡ self.old.turns }
        ensures some { IfOk result (λ count. (1 ≤ count) × (count ≤ length commands.now)) }
        ensures said { IfOk result (λ count. AreSaidNext self.old.turns
            (take count commands.now)
            (main_seen self.old.main) (sights clients.old.items)
            (main_seen self.new.main) (sights clients.new.items)
            (W.contents writer.old) (W.contents writer.new)) }
        ensures fault { IfErr result EndsRun }
    {
        let calls = calls_ahead(commands);
        if calls == 0 {
            self.run_one(rt, alloc, clients, &commands[0], writer)?;
            return Ok(1);
        }
        let (stretch, _) = commands.split_at(calls);
        self.run_calls(rt, alloc, clients, stretch, writer)?;
        Ok(calls)
    }

    /// Runs calls that stand together, and writes their lines.
    fn run_calls<W: Write, R: Threads + Wait + Sync>(
        &mut self,
        rt: &'a R,
        alloc: Global,
        clients: &mut Vec<LibFs<'a, Cluster>>,
        stretch: &'a [NumberedCommand],
        writer: &mut W,
    ) -> Result<(), EngineFault>
        requires calls { AreCalls stretch.now }
        requires at { AreClients (main_keeper self.old.main) self.old.turns clients.old.items }
        ensures at { OnOk result (AreClients (main_keeper self.new.main) self.new.turns
            clients.new.items) }
        ensures turns { self.new.turns ≡ self.old.turns }
        ensures seen { main_seen self.new.main ≡ main_seen self.old.main }
        ensures said { OnOk result (IsStretchSaid self.old.turns stretch.now
            (main_seen self.old.main)
            (sights clients.old.items) (sights clients.new.items)
            (W.contents writer.old) (W.contents writer.new)) }
        ensures fault { IfErr result EndsRun }
    {
        let before = mem::replace(clients, Vec::new(alloc));
        let main = &mut self.main;
        *clients = serve(
            rt, alloc, main, self.nodes, self.gate, before, stretch, writer,
        )?;
        Ok(())
    }

    /// Runs a command that is no call, and writes the line of its answer.
    fn run_one<W: Write, R: Wait>(
        &mut self,
        rt: &R,
        alloc: Global,
        clients: &mut Vec<LibFs<'a, Cluster>>,
        line: &NumberedCommand,
        writer: &mut W,
    ) -> Result<(), EngineFault>
        requires no_call { IsClientCall line.now.command → ⊥ }
        requires at { AreClients (main_keeper self.old.main) self.old.turns clients.old.items }
        ensures at { OnOk result (AreClients (main_keeper self.new.main) self.new.turns
            clients.new.items) }
        ensures turns { self.new.turns ≡ self.old.turns }
        ensures said { OnOk result (IsOneSaid self.old.turns line.now
            (main_seen self.old.main) (sights clients.old.items)
            (main_seen self.new.main) (sights clients.new.items)
            (W.contents writer.old) (W.contents writer.new)) }
        ensures fault { IfErr result EndsRun }
    {
        if let Command::History = line.command {
            return self.write_history(rt, alloc, line.line, writer);
        }
        let answer = self.answer(rt, alloc, clients, &line.command)?;
        write_answer(alloc, writer, line.line, answer)
    }

    /// Writes the history so far.
    fn write_history<W: Write, R: Wait>(
        &mut self,
        rt: &R,
        alloc: Global,
        line: u64,
        writer: &mut W,
    ) -> Result<(), EngineFault>
        ensures keeper { main_keeper self.new.main ≡ main_keeper self.old.main }
        ensures turns { self.new.turns ≡ self.old.turns }
        ensures extends { Extends (main_seen self.new.main).history
            (main_seen self.old.main).history }
        ensures worked { IsWorkedTo (main_seen self.old.main) (main_seen self.new.main) }
        ensures legal { ∥ IsLegal (main_seen self.new.main).history ∥₁ }
        ensures none_opened { OpensNone (main_seen self.old.main).history
            (main_seen self.new.main).history }
        ensures text { OnOk result (Appends (W.contents writer.old) (W.contents writer.new)
            (numbered_line line (history_text (main_seen self.new.main).history))) }
        ensures fault { IfErr result EndsRun }
    {
        let Ok(text) = self.main.history(rt, alloc) else {
            return Err(EngineFault::Memory);
        };
        match writeln!(writer, "{line}: {text}") {
            Ok(()) => Ok(()),
            Err(_) => Err(EngineFault::Write),
        }
    }

    /// What a command is answered that is neither a call nor the history.
    fn answer<R: Wait>(
        &mut self,
        rt: &R,
        alloc: Global,
        clients: &mut Vec<LibFs<'a, Cluster>>,
        command: &Command,
    ) -> Result<Response, EngineFault>
        requires no_call { IsClientCall command.now → ⊥ }
        requires no_history { command.now ≡ WholeHistory → ⊥ }
        requires at { AreClients (main_keeper self.old.main) self.old.turns clients.old.items }
        ensures at { OnOk result (AreClients (main_keeper self.new.main) self.new.turns
            clients.new.items) }
        ensures turns { self.new.turns ≡ self.old.turns }
        ensures answered { IfOk result (λ answer. AnswersCommand self.old.turns command.now answer
            (main_seen self.old.main) (main_seen self.new.main)) }
        ensures opened { IfOk result (λ answer. OpensJust (opening_in command.now answer)
            (main_seen self.old.main).history (main_seen self.new.main).history) }
        ensures clients { IfOk result (λ answer. sights clients.new.items ≡ with_opened
            (sights clients.old.items) (main_seen self.new.main).history
            (opening_in command.now answer)) }
        ensures fault { IfErr result EndsRun }
    {
        let main = &mut self.main;
        match command {
            Command::Open {
                node,
                kind,
                durability,
            } => self.open(rt, alloc, clients, *node, *kind, *durability),
            Command::Carry { node } => Ok(main.carry(rt, alloc, *node)),
            Command::Back { node } => Ok(main.bring_back(rt, alloc, *node, self.turns)),
            Command::Digest { node } => Ok(main.in_one_take(rt, alloc, Take::Digest(*node))),
            Command::Release => Ok(main.in_one_take(rt, alloc, Take::Release)),
            Command::Hot { node, capacity } => {
                Ok(main.in_one_take(rt, alloc, Take::SetHot(*node, *capacity)))
            }
            Command::Crash { client } => Ok(main.in_one_take(rt, alloc, Take::Crash(*client))),
            Command::Fail { node } => Ok(main.in_one_take(rt, alloc, Take::Fail(*node))),
            Command::Refill { node } => Ok(main.in_one_take(rt, alloc, Take::Refill(*node))),
            Command::Join { node } => Ok(main.in_one_take(rt, alloc, Take::Join(*node))),
            Command::Raise { node } => Ok(main.in_one_take(rt, alloc, Take::Raise(*node))),
            Command::Tree { node } => Ok(main.in_one_take(rt, alloc, Take::Tree(*node))),
            Command::Check => Ok(main.in_one_take(rt, alloc, Take::Check)),
            Command::Cluster { .. } => Ok(Response::Quiet),
            Command::Manual => Ok(Response::Quiet),
            Command::Link { .. } => Ok(Response::Quiet),
            Command::Call { .. } => unreachable!(),
            Command::History => unreachable!(),
        }
    }

    /// Opens a client on a node, with a revoker of a kind.
    fn open<R: Wait>(
        &mut self,
        rt: &R,
        alloc: Global,
        clients: &mut Vec<LibFs<'a, Cluster>>,
        node: u64,
        kind: RevokerKind,
        durability: Durability,
    ) -> Result<Response, EngineFault>
        requires at { AreClients (main_keeper self.old.main) self.old.turns clients.old.items }
        ensures kinds { (k : Kind) → (k ≡ kind → ⊥) →
            revokers_left k self.new.stock ≡ revokers_left k self.old.stock }
        ensures at { OnOk result (AreClients (main_keeper self.new.main) self.new.turns
            clients.new.items) }
        ensures turns { self.new.turns ≡ self.old.turns }
        ensures opens { IfOk result (λ answer. OpensOne node durability answer
            (main_seen self.old.main) (main_seen self.new.main)) }
        ensures kept { IfOk result (λ answer. ((c : ℕ) → answer ≡ Client c → ⊥) →
            revokers_left kind self.new.stock ≡ revokers_left kind self.old.stock) }
        ensures opened { IfOk result (λ answer. OpensJust (opened_by answer node durability)
            (main_seen self.old.main).history (main_seen self.new.main).history) }
        ensures clients { IfOk result (λ answer. sights clients.new.items ≡ with_opened
            (sights clients.old.items) (main_seen self.new.main).history
            (opened_by answer node durability)) }
        ensures fault { IfErr result EndsRun }
    {
        let Ok(node) = u32::try_from(node) else {
            return Ok(Response::Refused(Refusal::BadNode));
        };
        let Ok(()) = clients.reserve(1) else {
            return Err(EngineFault::Memory);
        };
        let Some(revoker) = self.stock.take(kind) else {
            return Ok(Response::Refused(self.main.refuse_open(rt, node)));
        };
        match self
            .main
            .open(rt, alloc, node, revoker, durability, self.turns)
        {
            Ok(libfs) => {
                let client = libfs.client();
                clients.push_reserved(libfs);
                Ok(Response::Client(client))
            }
            Err((refusal, revoker)) => {
                let _ = self.stock.put_back(kind, revoker);
                Ok(Response::Refused(refusal))
            }
        }
    }
}
