//! What a line says.
ghost use Rattle.std.specs.Prelude.{◌≡◌, ◌∷◌, map};
ghost use Rattle.assise_fault_script.specs.Line.{AnswersLine, begins_with_digit, client_command, cluster_there, command_of, in_turn, is_comment, line_says, nameless_call, other_command};
ghost use Rattle.assise_fault_script.specs.Words.{words_of};

use crate::calls::{call, call_word};
use crate::command::{Command, Keyword};
use crate::fault::ScriptFault;
use crate::keywords::{keyword, keyword_command};
use crate::number::number;
use crate::recent_paths::RecentPaths;
use crate::words::words;
use std::alloc::Global;

/// What a line says: a command, nothing, or its first fault. `built` says whether a command stands before it.
/// [`ScriptFault::Memory`] comes only where the line is a command without a fault.
pub fn line_command<'a>(
    alloc: Global,
    recent: &mut RecentPaths<'a>,
    built: bool,
    bytes: &'a [u8],
) -> Result<Option<Command>, ScriptFault>
    ensures { AnswersLine result (line_says built bytes.now) }
{
    if is_comment(bytes) {
        return Ok(None);
    }
    match str::from_utf8(bytes) {
        Ok(text) => text_line(alloc, recent, built, text),
        Err(_) => Err(ScriptFault::NotUtf8),
    }
}

fn is_comment(bytes: &[u8]) -> bool
    ensures { result ≡ is_comment bytes.now }
{
    match bytes {
        [first, ..] => *first == b'#',
        [] => false,
    }
}

fn text_line<'a>(
    alloc: Global,
    recent: &mut RecentPaths<'a>,
    built: bool,
    text: &'a str,
) -> Result<Option<Command>, ScriptFault>
    ensures { AnswersLine result (command_of built (words_of text.now)) }
{
    let words = words(text);
    command(alloc, recent, built, words.as_slice())
}

/// The command that words make.
fn command<'a>(
    alloc: Global,
    recent: &mut RecentPaths<'a>,
    built: bool,
    words: &[&'a str],
) -> Result<Option<Command>, ScriptFault>
    ensures { AnswersLine result (command_of built (map (λ w. w.now) words.now)) }
{
    match words {
        [] => Ok(None),
        [first, rest @ ..] => some_command(alloc, recent, built, first, rest),
    }
}

fn some_command<'a>(
    alloc: Global,
    recent: &mut RecentPaths<'a>,
    built: bool,
    first: &str,
    rest: &[&'a str],
) -> Result<Option<Command>, ScriptFault>
    ensures { AnswersLine result (command_of built (first.now ∷ map (λ w. w.now) rest.now)) }
{
    if begins_with_digit(first) {
        client_command(alloc, recent, built, first, rest)
    } else {
        other_command(built, first, rest)
    }
}

fn begins_with_digit(word: &str) -> bool
    ensures { result ≡ begins_with_digit word.now }
{
    match word.as_bytes() {
        [first, ..] => b'0' <= *first && *first <= b'9',
        [] => false,
    }
}

/// The call that a client's line makes.
fn client_command<'a>(
    alloc: Global,
    recent: &mut RecentPaths<'a>,
    built: bool,
    client: &str,
    rest: &[&'a str],
) -> Result<Option<Command>, ScriptFault>
    ensures { AnswersLine result (client_command built client.now (map (λ w. w.now) rest.now)) }
{
    match rest {
        [] => nameless_call(client),
        [name, rest @ ..] => named_call(alloc, recent, built, client, name, rest),
    }
}

fn nameless_call(client: &str) -> Result<Option<Command>, ScriptFault>
    ensures { result ≡ nameless_call client.now }
{
    number(client)?;
    Err(ScriptFault::UnknownCommand)
}

fn named_call<'a>(
    alloc: Global,
    recent: &mut RecentPaths<'a>,
    built: bool,
    client: &str,
    name: &str,
    rest: &[&'a str],
) -> Result<Option<Command>, ScriptFault>
    ensures { AnswersLine result (client_command built client.now
        (name.now ∷ map (λ w. w.now) rest.now)) }
{
    let client = number(client)?;
    let word = call_word(name)?;
    cluster_there(built)?;
    let op = call(alloc, recent, word, rest)?;
    Ok(Some(Command::Call { client, op }))
}

/// The command that begins with a keyword.
fn other_command(built: bool, word: &str, rest: &[&str]) -> Result<Option<Command>, ScriptFault>
    ensures { result ≡ other_command built word.now (map (λ w. w.now) rest.now) }
{
    let keyword = keyword(word)?;
    in_turn(built, keyword)?;
    let command = keyword_command(keyword, rest)?;
    Ok(Some(command))
}

/// Whether the cluster is there, or for `cluster` none came before.
fn in_turn(built: bool, keyword: Keyword) -> Result<(), ScriptFault>
    ensures { result ≡ in_turn built keyword }
{
    match keyword {
        Keyword::Cluster => {
            if built {
                Err(ScriptFault::SecondCluster)
            } else {
                Ok(())
            }
        }
        _ => cluster_there(built),
    }
}

fn cluster_there(built: bool) -> Result<(), ScriptFault>
    ensures { result ≡ cluster_there built }
{
    if built {
        Ok(())
    } else {
        Err(ScriptFault::NoCluster)
    }
}
