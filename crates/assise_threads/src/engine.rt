//! Runs a script with a thread for each client, and prints its answers.
ghost use Rattle.std.specs.Prelude.{◌≡◌, ◌≤◌, [], IfErr, IfOk, IsOkUnless, OnOk};
ghost use Rattle.std.specs.Io.KnownBytes.{Keeps};
ghost use Rattle.assise_fault_script.specs.Script.{ClusterFirst, IsCluster};
ghost use Rattle.assise_machine.specs.Clusters.{machine};
ghost use Rattle.assise_threads.specs.Begun.{IsBegunAs};
ghost use Rattle.assise_threads.specs.Runs.{EndsRun, IsRunSaid, PrintsByThreads, ThreadFault, serial_command, serial_line};

use crate::crew::Crew;
use crate::main_thread::MainThread;
use assise_console::engine::{flush, read_all};
use assise_console::fault::{EngineFault, SerialCommand};
use assise_console::options::CommandLine;
use assise_console::stock::Stock;
use assise_fault_script::command::Command;
use assise_fault_script::parse::{NumberedCommand, parse};
use assise_keeper::keeper::Keeper;
use assise_lease_table::revoker::Revoker;
use assise_machine::cluster::Cluster;
use assise_workers::gate::OpenGate;
use std::alloc::Global;
use std::io::{Read, Write};
use std::sync::Wait;
use std::thread::Threads;

/// Reads a script, runs it on a cluster with threads, and writes its answers and nothing else, in the script's order. Calls that stand
/// together are made at once, each client's in order in a thread of its own, beside the workers of all nodes. Each other command
/// waits until all before it are answered, and is made by the calling thread. Clients are opened with revokers of the stock.
///
/// [`EngineFault::Read`] is the reader's failure, [`EngineFault::Script`] the first fault of the script, and
/// [`EngineFault::NeedsSerial`] its first line `manual` or `link`: nothing is written then. [`EngineFault::Memory`], [`EngineFault::NoThread`]
/// and [`EngineFault::Write`] may come in the midst of a run. Whatever ends it, no thread is left.
pub fn engine_threads<I: Read, W: Write, R: Threads + Wait + Sync>(
    rt: &R,
    alloc: Global,
    reader: &mut I,
    writer: &mut W,
    stock: Stock<Revoker>,
    command_line: &CommandLine<'_>,
) -> Result<(), EngineFault>
    requires some_turns { 1 ≤ command_line.now.turns }
    requires few_turns { command_line.now.turns ≤ 1000000 }
    ensures done { OnOk result (PrintsByThreads command_line.now.turns
        (I.remaining reader.old) (W.contents writer.old) (W.contents writer.new)) }
    ensures faulty { IfErr result (λ e. ThreadFault e (I.remaining reader.old)
        (W.contents writer.old) (W.contents writer.new)) }
{
    let input = read_all(alloc, reader)?;
    let commands = match parse(alloc, input.as_slice()) {
        Ok(commands) => commands,
        Err(found) => return Err(EngineFault::Script(found.line, found.fault)),
    };
    if let Some((line, command)) = serial_line(commands.as_slice()) {
        return Err(EngineFault::NeedsSerial(line, command));
    }
    run_commands(
        rt,
        alloc,
        commands.as_slice(),
        writer,
        stock,
        command_line.turns,
    )?;
    flush(writer)
}

/// The first line that only a run on one thread serves, with its command.
fn serial_line(commands: &[NumberedCommand]) -> Option<(u64, SerialCommand)>
    ensures { result ≡ serial_line commands.now }
{
    for line in commands {
        if let Some(command) = serial_command(&line.command) {
            return Some((line.line, command));
        }
    }
    None
}

/// What a command is that only a run on one thread serves.
fn serial_command(command: &Command) -> Option<SerialCommand>
    ensures { result ≡ serial_command command.now }
{
    match command {
        Command::Manual => Some(SerialCommand::Manual),
        Command::Link { .. } => Some(SerialCommand::Link),
        _ => None,
    }
}

/// Runs the commands of a script, the first of which makes its cluster.
fn run_commands<W: Write, R: Threads + Wait + Sync>(
    rt: &R,
    alloc: Global,
    commands: &[NumberedCommand],
    writer: &mut W,
    stock: Stock<Revoker>,
    turns: u32,
) -> Result<(), EngineFault>
    requires cluster_first { ClusterFirst commands.now }
    requires some_turns { 1 ≤ turns }
    requires few_turns { turns ≤ 1000000 }
    ensures done { OnOk result (IsRunSaid turns commands.now
        (W.contents writer.old) (W.contents writer.new)) }
    ensures fault { IfErr result EndsRun }
{
    let Some(first) = commands.first() else {
        return Ok(());
    };
    let (cluster, nodes) = cluster_of(alloc, &first.command)?;
    let Ok((keeper, pass)) = Keeper::new(alloc, cluster) else {
        return Err(EngineFault::Memory);
    };
    let gate = OpenGate;
    let main = MainThread::new(&keeper, pass);
    let crew = Crew::new(main, &gate, stock, nodes, turns);
    let ended = crew.run(rt, alloc, commands, writer);
    keeper.close();
    ended
}

/// The cluster that a command makes, and how many nodes it has.
fn cluster_of(alloc: Global, command: &Command) -> Result<(Cluster, u32), EngineFault>
    requires { IsCluster command.now }
    ensures begun { IfOk result (λ made. (machine made.0).history ≡ []) }
    ensures as_said { IfOk result (λ made. IsBegunAs command.now made.0 made.1) }
    ensures only_memory { IsOkUnless result EngineFault.Memory }
{
    let Command::Cluster { nodes, log, hot } = command else {
        unreachable!();
    };
    let nodes = *nodes as u32;
    match Cluster::new(alloc, nodes, *log as usize, *hot as usize) {
        Ok(cluster) => Ok((cluster, nodes)),
        Err(_) => Err(EngineFault::Memory),
    }
}
