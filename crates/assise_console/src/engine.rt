//! Runs a script's commands and prints their answers.
ghost use Rattle.std.specs.Prelude.{◌≡◌, IfErr, IfOk, IsOk, IsOkUnless, OnOk};
ghost use Rattle.std.specs.Io.KnownBytes.{Appends, Keeps};
ghost use Rattle.assise_console.specs.Consoles.{console_seen, stocks};
ghost use Rattle.assise_console.specs.Engines.{FaultFrom, FaultOf, ClusterIsBegun, IsInput, IsReadFault, IsRunFault, Printed, PrintedFrom, Ran, RunsFrom, read_fault};
ghost use Rattle.assise_console.specs.Lines.{PrintsAll, PrintsOne, answer_text, line_text, numbered_line};
ghost use Rattle.assise_fault_script.specs.Script.{ClusterFirst, IsCluster};

use crate::console::ConsoleOf;
use crate::fault::EngineFault;
use crate::options::CommandLine;
use crate::response::Response;
use crate::stock::Stock;
use crate::text::{AnswerLine, AnswerText};
use arrayvec::ArrayString;
use assise_fault_script::command::Command;
use assise_fault_script::parse::{NumberedCommand, parse};
use assise_history::history::History;
use assise_lease_table::revoker::Revokes;
use assise_names::reply::Reply;
use std::alloc::Global;
use std::fmt::Write as _;
use std::io;
use std::io::{ErrorKind, Read, Write};

/// Bytes of a line that is short.
const SHORT_LINE: usize = 64;

/// Reads a script, runs it on a cluster, and writes its answers and nothing else. Clients are opened with revokers of the stock. It
/// waits for nobody.
///
/// [`EngineFault::Read`] is the reader's failure, [`EngineFault::Script`] the first fault of the script, and
/// [`EngineFault::Memory`] out of memory for the script's bytes or for the cluster; nothing is written then.
/// [`EngineFault::Write`] is the writer's failure, and nothing more is written after it. What is said of the bytes that
/// were read holds of the reader's own where those are known, and else of some.
pub fn engine<R: Read, W: Write, C: Revokes + Drop>(
    alloc: Global,
    reader: &mut R,
    writer: &mut W,
    stock: Stock<C>,
    command_line: &CommandLine<'_>,
) -> Result<(), EngineFault>
    ensures done { OnOk result (PrintedFrom (stocks stock) command_line.now.turns
        (R.remaining reader.old) (W.contents writer.old) (W.contents writer.new)) }
    ensures faulty { IfErr result (λ e. FaultFrom e (R.remaining reader.old) (W.contents writer.old)
        (W.contents writer.new)) }
{
    let input = read_all(alloc, reader)?;
    run_script(alloc, input.as_slice(), writer, stock, command_line.turns)
}

/// Runs the script that these bytes are, and writes its answers and nothing else. A call is tried at most `turns` times.
///
/// [`EngineFault::Script`] is the first fault of the script, and [`EngineFault::Memory`] out of memory for the cluster of
/// a script that has no fault; nothing is written then. [`EngineFault::Write`] is the writer's failure.
pub fn run_script<W: Write, C: Revokes + Drop>(
    alloc: Global,
    script: &[u8],
    writer: &mut W,
    stock: Stock<C>,
    turns: u32,
) -> Result<(), EngineFault>
    ensures done { OnOk result (Printed (stocks stock) turns script.now (W.contents writer.old)
        (W.contents writer.new)) }
    ensures faulty { IfErr result (λ e. FaultOf e script.now (W.contents writer.old)
        (W.contents writer.new)) }
{
    match parse(alloc, script) {
        Ok(commands) => run_commands(alloc, commands.as_slice(), writer, stock, turns),
        Err(found) => Err(EngineFault::Script(found.line, found.fault)),
    }
}

/// All bytes that the reader has. [`EngineFault::Read`] is the reader's failure, and [`EngineFault::Memory`] out of memory for what it
/// gave.
pub fn read_all<R: Read>(alloc: Global, reader: &mut R) -> Result<Vec<u8>, EngineFault>
    ensures bytes { IfOk result (λ bytes. IsInput (R.remaining reader.old) bytes.items) }
    ensures fault { IfErr result IsReadFault }
{
    let mut input = Vec::new(alloc);
    match reader.read_to_end(&mut input) {
        Ok(_) => Ok(input),
        Err(error) => Err(read_fault(error.kind())),
    }
}

/// What a reader's failure is: out of memory for what was read, or the reader's own.
fn read_fault(kind: ErrorKind) -> EngineFault
    ensures exact { result ≡ read_fault kind }
    ensures fault { IsReadFault result }
{
    match kind {
        ErrorKind::OutOfMemory => EngineFault::Memory,
        _ => EngineFault::Read,
    }
}

/// Runs the commands of a script, the first of which makes its cluster.
fn run_commands<W: Write, C: Revokes + Drop>(
    alloc: Global,
    commands: &[NumberedCommand],
    writer: &mut W,
    stock: Stock<C>,
    turns: u32,
) -> Result<(), EngineFault>
    requires cluster_first { ClusterFirst commands.now }
    ensures done { OnOk result (Ran (stocks stock) turns commands.now (W.contents writer.old)
        (W.contents writer.new)) }
    ensures faulty { IfErr result (λ e. IsRunFault e (W.contents writer.old)
        (W.contents writer.new)) }
{
    match commands.first() {
        Some(first) => {
            let console = console_of(alloc, &first.command, stock, turns)?;
            run(alloc, console, commands, writer)
        }
        None => flush(writer),
    }
}

/// The console of the cluster that a command makes.
fn console_of<C: Revokes + Drop>(
    alloc: Global,
    command: &Command,
    stock: Stock<C>,
    turns: u32,
) -> Result<ConsoleOf<C>, EngineFault>
    requires cluster { IsCluster command.now }
    ensures begun { IfOk result (λ console. ClusterIsBegun command.now (stocks stock) turns
        (console_seen console)) }
    ensures only_memory { IsOkUnless result EngineFault.Memory }
{
    let Command::Cluster { nodes, log, hot } = command else {
        unreachable!();
    };
    match ConsoleOf::new(
        alloc,
        *nodes as u32,
        *log as usize,
        *hot as usize,
        stock,
        turns,
    ) {
        Ok(console) => Ok(console),
        Err(_) => Err(EngineFault::Memory),
    }
}

/// Runs the commands in order, and writes the line of each answer and nothing else.
fn run<W: Write, C: Revokes + Drop>(
    alloc: Global,
    mut console: ConsoleOf<C>,
    commands: &[NumberedCommand],
    writer: &mut W,
) -> Result<(), EngineFault>
    ensures done { OnOk result (RunsFrom (console_seen console) commands.now
        (W.contents writer.old) (W.contents writer.new)) }
    ensures only_write { IsOkUnless result EngineFault.Write }
{
    run_to_end(alloc, &mut console, commands, writer)
}

/// Runs the commands in order on a console that is lent, and writes the line of each answer and nothing else.
fn run_to_end<W: Write, C: Revokes + Drop>(
    alloc: Global,
    console: &mut ConsoleOf<C>,
    commands: &[NumberedCommand],
    writer: &mut W,
) -> Result<(), EngineFault>
    ensures done { OnOk result (RunsFrom (console_seen console.old) commands.now
        (W.contents writer.old) (W.contents writer.new)) }
    ensures only_write { IsOkUnless result EngineFault.Write }
{
    run_lines(alloc, console, commands, writer)?;
    flush(writer)
}

/// Runs the commands in order on a console, and writes the line of each answer.
fn run_lines<W: Write, C: Revokes + Drop>(
    alloc: Global,
    console: &mut ConsoleOf<C>,
    commands: &[NumberedCommand],
    writer: &mut W,
) -> Result<(), EngineFault>
    ensures done { OnOk result (PrintsAll (console_seen console.old) commands.now
        (console_seen console.new) (W.contents writer.old) (W.contents writer.new)) }
    ensures only_write { IsOkUnless result EngineFault.Write }
{
    for command in commands {
        run_line(alloc, console, command, writer)?;
    }
    Ok(())
}

/// Runs one command and writes its line.
fn run_line<W: Write, C: Revokes + Drop>(
    alloc: Global,
    console: &mut ConsoleOf<C>,
    command: &NumberedCommand,
    writer: &mut W,
) -> Result<(), EngineFault>
    ensures done { OnOk result (PrintsOne (console_seen console.old) command.now
        (console_seen console.new) (W.contents writer.old) (W.contents writer.new)) }
    ensures only_write { IsOkUnless result EngineFault.Write }
{
    let answer = console.step(alloc, &command.command);
    print(writer, command.line, console.history(), &answer)
}

/// Writes the line of an answer to the command at this line, numbered from 1, where the history so far is this. The one fault is
/// [`EngineFault::Write`].
///
/// Nothing is written of [`Response::Quiet`].
pub fn print<W: Write>(
    writer: &mut W,
    number: u64,
    history: &History,
    answer: &Response,
) -> Result<(), EngineFault>
    ensures done { OnOk result (Appends (W.contents writer.old) (W.contents writer.new)
        (line_text number history.now.events answer.now)) }
    ensures only_write { IsOkUnless result EngineFault.Write }
{
    match answer {
        Response::Quiet => Ok(()),
        _ => print_line(writer, number, history, answer),
    }
}

// A short line is made beside, and handed to the writer at once.
fn print_line<W: Write>(
    writer: &mut W,
    number: u64,
    history: &History,
    answer: &Response,
) -> Result<(), EngineFault>
    ensures done { OnOk result (Appends (W.contents writer.old) (W.contents writer.new)
        (numbered_line number (answer_text history.now.events answer.now))) }
    ensures only_write { IsOkUnless result EngineFault.Write }
{
    let text = AnswerText { history, answer };
    let line = AnswerLine { number, text };
    let mut short = ArrayString::<SHORT_LINE>::new();
    if is_short(answer) && write!(short, "{line}").is_ok() {
        return written(writer.write_all(short.as_str().as_bytes()));
    }
    written(write!(writer, "{line}"))
}

/// What a write came to.
fn written(end: io::Result<()>) -> Result<(), EngineFault>
    ensures done { OnOk result (IsOk end) }
    ensures only_write { IsOkUnless result EngineFault.Write }
{
    match end {
        Ok(()) => Ok(()),
        Err(_) => Err(EngineFault::Write),
    }
}

/// Whether an answer takes few bytes: it has nothing that was read, and isn't of the whole cluster.
fn is_short(answer: &Response) -> bool {
    !matches!(
        answer,
        Response::Replied(Reply::Bytes(_) | Reply::Names(_)) | Response::Tree(_) | Response::History
    )
}

/// Hands on what the writer keeps back. The one fault is [`EngineFault::Write`].
pub fn flush<W: Write>(writer: &mut W) -> Result<(), EngineFault>
    ensures done { OnOk result (Keeps (W.contents writer.old) (W.contents writer.new)) }
    ensures only_write { IsOkUnless result EngineFault.Write }
{
    written(writer.flush())
}
