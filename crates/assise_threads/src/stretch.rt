//! Calls that stand together: each client's are made in a thread of its own, and the lines are written in order.
ghost use Rattle.std.specs.Prelude.{◌≡◌, ℕ, IfErr, IfOk, OnOk};
ghost use Rattle.assise_model_events.specs.Machine.{Machine};
ghost use Rattle.assise_threads.specs.Hearing.{sights};
ghost use Rattle.assise_threads.specs.Runs.{EndsRun, fault_of_run};
ghost use Rattle.assise_threads.specs.Spoken.{IsStretchSaid};
ghost use Rattle.assise_threads.specs.Said.{outcome_answer};
ghost use Rattle.assise_threads.specs.Stretches.{AreCalls, AreCallsSaid, HasAllOf, IsClientCall, IsCallSaid, next_or_none, untold};
ghost use Rattle.assise_threads.specs.AtKeeper.{AreAt, HaveTurns};
ghost use Rattle.assise_threads.specs.Threads.{main_keeper, main_seen};

use crate::lists::lists_of;
use crate::main_thread::MainThread;
use crate::outcomes::{Outcomes, next_outcome, parted};
use assise_console::engine::print;
use assise_console::fault::EngineFault;
use assise_console::response::Response;
use assise_fault_script::command::Command;
use assise_fault_script::parse::NumberedCommand;
use assise_history::history::History;
use assise_libfs::libfs::LibFs;
use assise_machine::cluster::Cluster;
use assise_names::refusal::Refusal;
use assise_names::reply::Reply;
use assise_workers::gate::OpenGate;
use assise_workers::running::{RunFault, run_cluster};
use std::alloc::Global;
use std::io::Write;
use std::sync::Wait;
use std::thread::Threads;

/// What a call is answered for which there is this outcome: none is left where there is no such client.
fn answer_of(outcome: Option<Result<Reply, Refusal>>) -> Response
    ensures { result ≡ outcome_answer (next_or_none outcome) }
{
    match outcome {
        Some(Ok(reply)) => Response::Replied(reply),
        Some(Err(refusal)) => Response::Refused(refusal),
        None => Response::Refused(Refusal::BadClient),
    }
}

/// Writes the line of a call.
fn write_call<W: Write>(
    alloc: Global,
    outcomes: &mut [Outcomes],
    line: &NumberedCommand,
    writer: &mut W,
) -> Result<(), EngineFault>
    requires { IsClientCall line.now.command }
    ensures said { OnOk result (IsCallSaid line.now (untold outcomes.old) (untold outcomes.new)
        (W.contents writer.old) (W.contents writer.new)) }
    ensures fault { IfErr result EndsRun }
{
    let Command::Call { client, op: _ } = &line.command else {
        unreachable!();
    };
    let answer = answer_of(next_outcome(outcomes, *client));
    print(writer, line.line, &History::new(alloc), &answer)
}

/// Writes the lines of all calls of a stretch.
fn write_calls<W: Write>(
    alloc: Global,
    outcomes: &mut [Outcomes],
    stretch: &[NumberedCommand],
    writer: &mut W,
) -> Result<(), EngineFault>
    requires calls { AreCalls stretch.now }
    requires all { HasAllOf stretch.now (untold outcomes.old) }
    ensures said { (turns : ℕ) (seen : Machine) → OnOk result
        (AreCallsSaid turns stretch.now seen
        (untold outcomes.old) (W.contents writer.old) (W.contents writer.new)) }
    ensures fault { IfErr result EndsRun }
{
    for line in stretch {
        write_call(alloc, outcomes, line, writer)?;
    }
    Ok(())
}

/// Serves a stretch of calls, beside the workers of nodes 1 to the last.
pub(crate) fn serve<'a, W: Write, R: Threads + Wait + Sync>(
    rt: &'a R,
    alloc: Global,
    main: &mut MainThread<'a>,
    last: u32,
    gate: &'a OpenGate,
    clients: Vec<LibFs<'a, Cluster>>,
    stretch: &'a [NumberedCommand],
    writer: &mut W,
) -> Result<Vec<LibFs<'a, Cluster>>, EngineFault>
    requires calls { AreCalls stretch.now }
    requires at { AreAt (main_keeper main.old) clients.items }
    ensures keeper { main_keeper main.new ≡ main_keeper main.old }
    ensures at { IfOk result (λ after. AreAt (main_keeper main.old) after.items) }
    ensures seen { main_seen main.new ≡ main_seen main.old }
    ensures turns { IfOk result (λ after. (turns : ℕ) → HaveTurns turns clients.entry.items →
        HaveTurns turns after.items) }
    ensures said { IfOk result (λ after. (turns : ℕ) → HaveTurns turns clients.entry.items →
        IsStretchSaid turns stretch.now (main_seen main.old)
        (sights clients.entry.items) (sights after.items)
        (W.contents writer.old) (W.contents writer.new)) }
    ensures fault { IfErr result EndsRun }
{
    let Ok(nodes) = main.workers(alloc, last) else {
        return Err(EngineFault::Memory);
    };
    let Ok(lists) = lists_of(alloc, clients, stretch) else {
        return Err(EngineFault::Memory);
    };
    let ends = match run_cluster(rt, alloc, nodes, gate, lists) {
        Ok(ends) => ends,
        Err(fault) => return Err(fault_of(fault)),
    };
    let Ok((clients, mut outcomes)) = parted(alloc, ends) else {
        return Err(EngineFault::Memory);
    };
    write_calls(alloc, outcomes.as_mut_slice(), stretch, writer)?;
    Ok(clients)
}

/// Why the engine ends where a run isn't whole.
fn fault_of(fault: RunFault) -> EngineFault
    ensures which { result ≡ fault_of_run fault }
    ensures ends { EndsRun result }
{
    match fault {
        RunFault::Memory => EngineFault::Memory,
        RunFault::NoThread => EngineFault::NoThread,
    }
}
