//! A row for each call of a client.
ghost use Rattle.std.specs.Prelude.{◌≡◌, map};
ghost use Rattle.assise_fault_script.specs.Calls.{call_command, call_word, path_word, read_of, rename_of, truncate_of, write_of};
ghost use Rattle.assise_fault_script.specs.declared.fault.ScriptFault.{ScriptFault};
ghost use Rattle.assise_fault_script.specs.Fault.{Answers};

use crate::command::CallWord;
use crate::data::data_made;
use crate::fault::ScriptFault;
use crate::number::number;
use crate::recent_paths::RecentPaths;
use assise_names::call::Op;
use assise_names::path::Path;
use std::alloc::Global;

/// The call that a word names. Those that scripts make most are looked for first.
pub fn call_word(word: &str) -> Result<CallWord, ScriptFault>
    ensures { result ≡ call_word word.now }
{
    match word {
        "create" => Ok(CallWord::Create),
        "write" => Ok(CallWord::Write),
        "read" => Ok(CallWord::Read),
        "rename" => Ok(CallWord::Rename),
        "stat" => Ok(CallWord::Stat),
        "fsync" => Ok(CallWord::Fsync),
        "unlink" => Ok(CallWord::Unlink),
        "truncate" => Ok(CallWord::Truncate),
        "list" => Ok(CallWord::List),
        "mkdir" => Ok(CallWord::Mkdir),
        "dsync" => Ok(CallWord::Dsync),
        "rmdir" => Ok(CallWord::Rmdir),
        _ => Err(ScriptFault::UnknownCommand),
    }
}

/// The call that the words behind its name make. That memory ran out is answered only where no word
/// has a fault.
pub fn call<'a>(
    alloc: Global,
    recent: &mut RecentPaths<'a>,
    name: CallWord,
    words: &[&'a str],
) -> Result<Op, ScriptFault>
    ensures { Answers result (call_command name (map (λ w. w.now) words.now)) }
{
    match (name, words) {
        (CallWord::Create, [word]) => Ok(Op::Create(path(alloc, recent, word)?)),
        (CallWord::Mkdir, [word]) => Ok(Op::Mkdir(path(alloc, recent, word)?)),
        (CallWord::Read, [path, offset, length]) => read(alloc, recent, path, offset, length),
        (CallWord::Write, [path, offset, data]) => write(alloc, recent, path, offset, data),
        (CallWord::Truncate, [path, size]) => truncate(alloc, recent, path, size),
        (CallWord::Rename, [from, to]) => rename(alloc, recent, from, to),
        (CallWord::Unlink, [word]) => Ok(Op::Unlink(path(alloc, recent, word)?)),
        (CallWord::Rmdir, [word]) => Ok(Op::Rmdir(path(alloc, recent, word)?)),
        (CallWord::List, [word]) => Ok(Op::List(path(alloc, recent, word)?)),
        (CallWord::Stat, [word]) => Ok(Op::Stat(path(alloc, recent, word)?)),
        (CallWord::Fsync, []) => Ok(Op::Fsync),
        (CallWord::Dsync, []) => Ok(Op::Dsync),
        _ => Err(ScriptFault::WrongCount),
    }
}

fn path<'a>(alloc: Global, recent: &mut RecentPaths<'a>, word: &'a str) -> Result<Path, ScriptFault>
    ensures { Answers result (path_word word.now) }
{
    match recent.path(alloc, word)? {
        Some(path) => Ok(path),
        None => Err(ScriptFault::Memory),
    }
}

fn read<'a>(
    alloc: Global,
    recent: &mut RecentPaths<'a>,
    word: &'a str,
    offset: &str,
    count: &str,
) -> Result<Op, ScriptFault>
    ensures { Answers result (read_of word.now offset.now count.now) }
{
    let path = recent.path(alloc, word)?;
    let offset = number(offset)?;
    let count = number(count)?;
    let path = path.ok_or(ScriptFault::Memory)?;
    Ok(Op::Read(path, offset, count))
}

fn write<'a>(
    alloc: Global,
    recent: &mut RecentPaths<'a>,
    word: &'a str,
    offset: &str,
    bytes: &str,
) -> Result<Op, ScriptFault>
    ensures { Answers result (write_of word.now offset.now bytes.now) }
{
    let path = recent.path(alloc, word)?;
    let offset = number(offset)?;
    let bytes = data_made(alloc, bytes)?;
    let path = path.ok_or(ScriptFault::Memory)?;
    let bytes = bytes.ok_or(ScriptFault::Memory)?;
    Ok(Op::Write(path, offset, bytes))
}

fn truncate<'a>(
    alloc: Global,
    recent: &mut RecentPaths<'a>,
    word: &'a str,
    size: &str,
) -> Result<Op, ScriptFault>
    ensures { Answers result (truncate_of word.now size.now) }
{
    let path = recent.path(alloc, word)?;
    let size = number(size)?;
    let path = path.ok_or(ScriptFault::Memory)?;
    Ok(Op::Truncate(path, size))
}

fn rename<'a>(
    alloc: Global,
    recent: &mut RecentPaths<'a>,
    from: &'a str,
    to: &'a str,
) -> Result<Op, ScriptFault>
    ensures { Answers result (rename_of from.now to.now) }
{
    let from = recent.path(alloc, from)?;
    let to = recent.path(alloc, to)?;
    let from = from.ok_or(ScriptFault::Memory)?;
    let to = to.ok_or(ScriptFault::Memory)?;
    Ok(Op::Rename(from, to))
}
