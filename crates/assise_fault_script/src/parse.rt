//! The lines of a script.
ghost use Rattle.std.specs.Prelude.{◌≡◌, ◌⊎◌, ◌+◌, ◌<◌, ◌^◌, IfErr, IfOk, OnOk, Ok, Err};
ghost use Rattle.assise_fault_script.specs.declared.fault.ScriptFault.TheVariants.{Memory};
ghost use Rattle.assise_fault_script.specs.Script.{ClusterFirst, GivesNext, IsCommandAt, IsLineReached, commands_of, start};

use crate::command::Command;
use crate::fault::{LineFault, ScriptFault};
use crate::line::line_command;
use crate::recent_paths::RecentPaths;
use crate::words::split_line;
use std::alloc::Global;
use std::marker::Model;

/// A command with its line.
#[derive(Debug, Drop)]
pub struct NumberedCommand {
    /// The line's number. The first line has 1.
    pub line: u64,
    /// What it says.
    pub command: Command,
}

/// The commands so far, the number of the next line, and whether there was a command.
#[derive(Drop)]
struct Progress {
    commands: Vec<NumberedCommand>,
    number: u64,
    built: bool,
}

impl Model for Progress {
    ghost use Rattle.assise_fault_script.specs.Script as script;

    ghost Value = { script.Progress };

    ghost view = { λ p. record { commands = p.commands.items; number = p.number; built = p.built } };
}

impl Progress {
    fn new(alloc: Global) -> Progress
        ensures { result ≡ start }
    {
        Progress {
            commands: Vec::new(alloc),
            number: 1,
            built: false,
        }
    }

    fn into_commands(self) -> Vec<NumberedCommand>
        ensures { result.items ≡ self.commands }
    {
        self.commands
    }

    /// Takes the next line in.
    fn take<'a>(
        &mut self,
        alloc: Global,
        recent: &mut RecentPaths<'a>,
        bytes: &'a [u8],
    ) -> Result<(), LineFault>
        requires { self.old.number + 1 < 2 ^ 64 }
        ensures gives { GivesNext self.old bytes.now result self.new }
        ensures counts { OnOk result (self.new.number ≡ self.old.number + 1) }
        ensures faulty { IfErr result (λ faulty. faulty.line ≡ self.old.number) }
    {
        let line = self.number;
        match line_command(alloc, recent, self.built, bytes) {
            Ok(Some(command)) => {
                if self
                    .commands
                    .push(NumberedCommand { line, command })
                    .is_err()
                {
                    let fault = ScriptFault::Memory;
                    return Err(LineFault { line, fault });
                }
                self.built = true;
                self.number += 1;
                Ok(())
            }
            Ok(None) => {
                self.number += 1;
                Ok(())
            }
            Err(fault) => Err(LineFault { line, fault }),
        }
    }
}

/// The commands of a script with their lines, or the first fault of the first faulty line.
/// [`ScriptFault::Memory`] stands at the line that was read when a growth was refused. That line is a command without
/// a fault, and no line in front of it has one.
pub fn parse(alloc: Global, bytes: &[u8]) -> Result<Vec<NumberedCommand>, LineFault>
    ensures commands { IfOk result (λ commands. commands_of bytes.now ≡ Ok commands.items) }
    ensures cluster_first { IfOk result (λ commands. ClusterFirst commands.items) }
    ensures first_fault { IfErr result (λ faulty. (faulty.fault ≡ Memory) ⊎
        (commands_of bytes.now ≡ Err faulty)) }
    ensures memory { IfErr result (λ faulty. ((faulty.fault ≡ Memory) ×
        IsCommandAt bytes.now faulty.line) ⊎ (commands_of bytes.now ≡ Err faulty)) }
    ensures reached { IfErr result (λ faulty. IsLineReached bytes.now faulty.line) }
{
    let mut progress = Progress::new(alloc);
    let mut recent = RecentPaths::new();
    let mut rest = bytes;
    while let Some((line, more)) = split_line(rest) {
        progress.take(alloc, &mut recent, line)?;
        rest = more;
    }
    progress.take(alloc, &mut recent, rest)?;
    Ok(progress.into_commands())
}
