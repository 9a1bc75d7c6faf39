//! What scripts print with a thread for each client.
use crate::tests::scripts::{NOWHERE, RUNS};
use crate::tests::stock::stock_of;
use assise_names::limits::{MOST_CLIENTS, MOST_NODES};
use assise_threads::engine::engine_threads;
use std::alloc::Global;
use std::sync::Wait;
use std::test::Fail;
use std::thread::Threads;

/// Whether a script, run with threads from memory to memory, prints this.
fn prints<R: Threads + Wait + Sync>(
    rt: &R,
    alloc: Global,
    script: &str,
    wanted: &str,
) -> Result<bool, Fail> {
    let mut reader = script.as_bytes();
    let mut output = Vec::new(alloc);
    let stock = stock_of(alloc)?;
    let ended = engine_threads(rt, alloc, &mut reader, &mut output, stock, &NOWHERE);
    Ok(ended.is_ok() && output.as_slice() == wanted.as_bytes())
}

#[test]
fn scripts_of_one_client_print_the_same_with_threads(rt: HostRuntime) -> Result<(), Fail> {
    for (script, wanted) in RUNS {
        assert!(rt; prints(&rt, rt.alloc(), script, wanted)?, "{script}");
    }
    Ok(())
}

/// A script with as many nodes and clients as there may be, and what it prints: each client looks at the root once.
fn crowded(alloc: Global) -> Result<(String, String), Fail> {
    let mut script = format!(in alloc; "cluster {MOST_NODES} 8 4\n")?;
    let mut printed = String::new(alloc);
    for client in 1..=MOST_CLIENTS {
        writeln!(script, "open {} least", 1 + client % MOST_NODES)?;
        writeln!(printed, "{}: client {client}", client + 1)?;
    }
    for client in 1..=MOST_CLIENTS {
        writeln!(script, "{client} stat /")?;
        writeln!(printed, "{}: dir 0", MOST_CLIENTS + client + 1)?;
    }
    Ok((script, printed))
}

#[test]
fn all_nodes_and_all_clients_have_threads(rt: HostRuntime) -> Result<(), Fail> {
    let (script, printed) = crowded(rt.alloc())?;
    assert!(rt; prints(&rt, rt.alloc(), script.as_str(), printed.as_str())?);
    Ok(())
}
