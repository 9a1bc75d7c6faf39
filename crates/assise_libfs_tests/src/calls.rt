//! Calls that are lines of text.
use assise_fault_script::command::Command;
use assise_fault_script::parse::parse;
use assise_libfs::libfs::LibFs;
use assise_libfs::served::Served;
use assise_names::call::Op;
use assise_names::refusal::Refusal;
use assise_names::reply::Reply;
use std::alloc::Global;
use std::sync::Wait;

/// The turns of a call: more than any call of the tests takes.
pub const TURNS: u32 = 1_000_000;

/// The call that a line names. None where it names none, or memory runs out.
pub fn call_in(alloc: Global, line: &str) -> Option<Op> {
    let script = format!(in alloc; "cluster 1 8 1\n1 {line}").ok()?;
    let mut commands = parse(alloc, script.as_bytes()).ok()?;
    match commands.pop()?.command {
        Command::Call { client: _, op } => Some(op),
        _ => None,
    }
}

/// Makes a call by the method of its name.
pub fn make<S: Served, R: Wait>(
    rt: &R,
    alloc: Global,
    libfs: &mut LibFs<'_, S>,
    op: &Op,
) -> Result<Reply, Refusal> {
    match op {
        Op::Create(path) => libfs.create(rt, alloc, path.copy()?),
        Op::Mkdir(path) => libfs.mkdir(rt, alloc, path.copy()?),
        Op::Read(path, offset, most) => libfs.read(rt, alloc, path.copy()?, *offset, *most),
        Op::Write(path, offset, bytes) => {
            libfs.write(rt, alloc, path.copy()?, *offset, bytes.copy()?)
        }
        Op::Truncate(path, size) => libfs.truncate(rt, alloc, path.copy()?, *size),
        Op::Rename(path, to) => libfs.rename(rt, alloc, path.copy()?, to.copy()?),
        Op::Unlink(path) => libfs.unlink(rt, alloc, path.copy()?),
        Op::Rmdir(path) => libfs.rmdir(rt, alloc, path.copy()?),
        Op::List(path) => libfs.list(rt, alloc, path.copy()?),
        Op::Stat(path) => libfs.stat(rt, alloc, path.copy()?),
        Op::Fsync => libfs.fsync(rt, alloc),
        Op::Dsync => libfs.dsync(rt, alloc),
    }
}

/// What a call came to.
pub fn told(alloc: Global, outcome: &Result<Reply, Refusal>) -> Option<String> {
    match outcome {
        Ok(reply) => format!(in alloc; "{reply}").ok(),
        Err(refusal) => format!(in alloc; "{refusal}").ok(),
    }
}
