//! What ends a run early.
use crate::tests::scripts::NOWHERE;
use crate::tests::stock::stock_of;
use assise_console::engine::engine;
use assise_console::fault::{EngineFault, SerialCommand, fault_line, status};
use assise_fault_script::fault::ScriptFault;
use assise_names::path::PathFault;
use std::alloc::{AllocError, Global};
use std::test::Fail;

/// What may end a run, with the exit status and the line on standard error.
const FAULTS: &[(EngineFault, &str)] = &[
    (EngineFault::Read, "3 assise: cannot read some.script"),
    (
        EngineFault::Script(12, ScriptFault::NoCluster),
        "2 assise: script line 12: no cluster yet",
    ),
    (
        EngineFault::Script(3, ScriptFault::BadPath(PathFault::NameTooLong)),
        "2 assise: script line 3: bad path: name too long",
    ),
    (EngineFault::Memory, "1 assise: out of memory"),
    (EngineFault::Write, "1 assise: cannot write"),
    (
        EngineFault::NeedsSerial(7, SerialCommand::Manual),
        "2 assise: script line 7: manual needs the serial mode",
    ),
    (
        EngineFault::NeedsSerial(8, SerialCommand::Link),
        "2 assise: script line 8: link needs the serial mode",
    ),
    (EngineFault::NoThread, "1 assise: cannot start a thread"),
];

fn line_of(alloc: Global, fault: &EngineFault) -> Result<String, Fail> {
    let line = fault_line(alloc, fault, NOWHERE.script)?;
    Ok(format!(in alloc; "{} {line}", status(fault))?)
}

#[test]
fn each_fault_has_its_line_and_its_status(rt: HostRuntime) -> Result<(), Fail> {
    for (fault, wanted) in FAULTS {
        assert_eq!(rt; line_of(rt.alloc(), fault)?.as_str(), *wanted);
    }
    Ok(())
}

/// A script whose third line has a name of 256 letters.
fn long_name(alloc: Global) -> Result<String, AllocError> {
    let mut script = String::from_str(alloc, "cluster 1 8 4\nopen 1 least\n1 stat /")?;
    for _ in 0..256 {
        script.push('a')?;
    }
    Ok(script)
}

/// Whether a script is faulty, prints nothing, and ends with this status and this line.
fn is_faulty(alloc: Global, script: &str, wanted: &str) -> Result<bool, Fail> {
    let mut output = Vec::new(alloc);
    let stock = stock_of(alloc)?;
    let mut reader = script.as_bytes();
    match engine(alloc, &mut reader, &mut output, stock, &NOWHERE) {
        Ok(()) => Ok(false),
        Err(fault) => Ok(output.is_empty() && line_of(alloc, &fault)?.as_str() == wanted),
    }
}

#[test]
fn a_faulty_script_writes_nothing(rt: HostRuntime) -> Result<(), Fail> {
    let script = long_name(rt.alloc())?;
    let wanted = "2 assise: script line 3: bad path: name too long";
    assert!(rt; is_faulty(rt.alloc(), script.as_str(), wanted)?);
    let wanted = "2 assise: script line 1: out of limits";
    assert!(rt; is_faulty(rt.alloc(), "cluster 17 8 4\n", wanted)?);
    Ok(())
}
