//! Calls and commands written as a line of a script.
use assise_fault_script::command::Command;
use assise_fault_script::parse::{NumberedCommand, parse};
use assise_names::call::Op;
use std::alloc::Global;

/// The call that a text says as in a script, but without its client: `create /f`. None where it says none, or there is no memory.
pub fn call_in(alloc: Global, text: &str) -> Option<Op> {
    let line = format!(in alloc; "1 {text}").ok()?;
    match command_in(alloc, line.as_str()) {
        Some(Command::Call { op, .. }) => Some(op),
        _ => None,
    }
}

/// The command that a line of a script says behind a cluster. None where it says none, or there is no memory.
pub fn command_in(alloc: Global, line: &str) -> Option<Command> {
    let script = format!(in alloc; "cluster 1 8 1\n{line}").ok()?;
    last_command(parse(alloc, script.as_bytes()).ok()?)
}

fn last_command(mut commands: Vec<NumberedCommand>) -> Option<Command> {
    Some(commands.pop()?.command)
}
