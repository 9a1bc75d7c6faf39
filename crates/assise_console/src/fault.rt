//! Why the program ends without running its script to the end.
ghost use Rattle.std.specs.Prelude.{◌≡◌, IfOk, IsOkUnless, Some, string_bytes};
ghost use Rattle.assise_console.specs.Faults.{fault_line, status};
ghost use Rattle.assise_names.specs.declared.refusal.Refusal.TheVariants.{OutOfMemory};

use assise_fault_script::fault::ScriptFault;
use assise_names::refusal::Refusal;
use std::alloc::{AllocError, Global};
use std::fmt;
use std::fmt::{Display, Formatter};

/// A command that only the serial mode runs.
#[derive(Clone, Copy, Debug, PartialEq, Eq)]
pub enum SerialCommand {
    /// `manual`.
    Manual,
    /// `link`.
    Link,
}

/// Why the engine ends early.
#[derive(Clone, Copy, Debug, PartialEq, Eq)]
pub enum EngineFault {
    /// The script can't be read.
    Read,
    /// A line of the script, numbered from 1, with its first fault.
    Script(u64, ScriptFault),
    /// The engine finds no memory for itself.
    Memory,
    /// The writer failed.
    Write,
    /// A line of the script, numbered from 1, with its command, which only the serial mode runs.
    NeedsSerial(u64, SerialCommand),
    /// A thread couldn't be made.
    NoThread,
}

impl From<AllocError> for EngineFault {
    /// There is no memory.
    fn from(_: AllocError) -> EngineFault
        ensures { result ≡ EngineFault.Memory }
    {
        EngineFault::Memory
    }
}

/// The line that standard error gets, without its end, or [`Refusal::OutOfMemory`]. `script` is the word of the
/// command line that names the script.
pub fn fault_line(alloc: Global, fault: &EngineFault, script: &str) -> Result<String, Refusal>
    ensures line { IfOk result (λ line. string_bytes line ≡ fault_line fault.now script.now) }
    ensures only_memory { IsOkUnless result OutOfMemory }
{
    let line = FaultLine { fault, script };
    Ok(format!(in alloc; "{line}")?)
}

/// The exit status: 1 where memory or a thread is wanting or the writer failed, 2 for a faulty script and for one that needs the
/// serial mode, 3 where it can't be read.
pub fn status(fault: &EngineFault) -> u8
    ensures { result ≡ status fault.now }
{
    match fault {
        EngineFault::Read => 3,
        EngineFault::Script(_, _) => 2,
        EngineFault::Memory => 1,
        EngineFault::Write => 1,
        EngineFault::NeedsSerial(_, _) => 2,
        EngineFault::NoThread => 1,
    }
}

#[derive(Drop)]
struct FaultLine<'a> {
    fault: &'a EngineFault,
    script: &'a str,
}

impl Display for FaultLine<'_> {
    ghost output = { λ l. Some (fault_line l.fault.now l.script.now) };

    fn fmt<W: fmt::Write>(&self, f: &mut Formatter<W>) -> fmt::Result {
        match self.fault {
            EngineFault::Read => {
                let script = self.script;
                write!(f, "assise: cannot read {script}")
            }
            EngineFault::Script(line, fault) => write!(f, "assise: script line {line}: {fault}"),
            EngineFault::Memory => f.write_str("assise: out of memory"),
            EngineFault::Write => f.write_str("assise: cannot write"),
            EngineFault::NeedsSerial(line, SerialCommand::Manual) => {
                write!(
                    f,
                    "assise: script line {line}: manual needs the serial mode"
                )
            }
            EngineFault::NeedsSerial(line, SerialCommand::Link) => {
                write!(f, "assise: script line {line}: link needs the serial mode")
            }
            EngineFault::NoThread => f.write_str("assise: cannot start a thread"),
        }
    }
}
