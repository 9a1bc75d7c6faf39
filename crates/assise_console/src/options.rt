//! The command line.
ghost use Rattle.std.specs.Prelude.{◌≡◌, ◌≤◌, IfErr, IfOk, IsTrue, Some, [], false, map};
ghost use Rattle.clap.specs.Words.{HasKind, app_of, kind_of, rule_of};
ghost use Rattle.assise_console.specs.CommandLine.{faults_of, is_taken, program, script_of, script_rule, threads_of, threads_rule, turns_of, turns_rule};

use clap::error::ErrorKind;
use clap::{Arg, ArgAction, Command, Error, value_parser};
use std::alloc::{AllocError, Global};
use std::convert::AsStr;

/// What the command line asks for.
#[derive(Clone, Copy, Debug, PartialEq, Eq)]
pub struct CommandLine<'a> {
    /// The file of the script.
    pub script: &'a str,
    /// The most tries of a call before it is refused as busy, 1 to 1,000,000.
    pub turns: u32,
    /// A thread for each client.
    pub threads: bool,
}

/// The version that `assise --version` prints. Which commit was built, and whether it was proved, `./build` writes there.
pub const VERSION: &str = "0.1.0 (unknown, unproved)";

/// What `assise --help` prints.
const HELP: &str = r"Runs a script on a cluster of a replicated file system, and prints each answer

Usage: assise [OPTIONS] <SCRIPT>

Arguments:
  <SCRIPT>  A file, or - for standard input

Options:
      --threads    A thread for each client; what clients do at once may come in another order
      --turns <N>  Tries of a call before it is refused as F2 Busy, 1 to 1000000 [default: 100000]
  -h, --help       Print help
  -V, --version    Print version

One command a line. Spaces alone part its words. A line that begins with # is a comment.
  cluster NODES LOG HOT         first of all: nodes, 8-4096 records a log, 1-4096 hot inodes a node
  open NODE KIND [optimistic]   opens client 1, 2, ..; KIND is least, whole or eights
  C create P                    the calls of client C; P and Q are paths, as /mail/new
  C mkdir P
  C read P OFFSET LENGTH
  C write P OFFSET DATA         DATA is tTEXT, xHEX, or zCOUNT for zeros, and has no space in it
  C truncate P SIZE
  C rename P Q
  C unlink P
  C rmdir P
  C list P
  C stat P
  C fsync                       as dsync; an optimistic client's is answered at once, and promises nothing
  C dsync                       is answered once every full node has what the client did before
  crash C                       a client stops
  fail NODE                     a node stops, and the clients on it
  back NODE                     a node comes back; after manual it only begins to
  hot NODE CAPACITY             1-4096 inodes, those used last, are hot at a node from here on
  tree NODE                     prints what this node alone has
  history                       prints what happened so far
  check                         says whether that is legal, which it always is
  manual                        from here on a call is tried once, and nodes do only what a command says
  carry NODE                    sends what is to be replicated to the nodes behind it
  digest NODE                   digests what every full node has, and so makes room in logs
  release                       frees the revoked leases that may go
  refill NODE                   a node that comes back gets one inode
  join NODE                     a node that comes back and lacks nothing is full again
  raise NODE                    a full node reads and sends version 2 of frames from here on
  link NODE KIND                a node's new link; KIND is perfect, lose, repeat, delay, cut K or fault

Example:  printf 'cluster 1 8 4\nopen 1 least\n1 create /f\n1 stat /f\n' | ./assise -

Exit status: 0 the script ran to its end, whatever was refused; 1 no memory, or no output;
2 a fault of the words or the script; 3 an unreadable script. More: docs/SCRIPT.md";

/// Reads the command line `assise SCRIPT [--turns N] [--threads]`, of which `words` are all words, the program's own first. An
/// error has the text and the exit status of `clap`: `--help` and `--version` are errors of their own kinds, and so is want of
/// memory.
pub fn options<'a, S: AsStr>(alloc: Global, words: &'a [S]) -> Result<CommandLine<'a>, Error>
    ensures script { IfOk result (λ line. script_of (map S.text words.entry.now) ≡
        Some line.script.now) }
    ensures turns { IfOk result (λ line. turns_of (map S.text words.entry.now) ≡ Some line.turns) }
    ensures some_turns { IfOk result (λ line. 1 ≤ line.turns) }
    ensures few_turns { IfOk result (λ line. line.turns ≤ 1000000) }
    ensures threads { IfOk result (λ line. line.threads ≡ threads_of (map S.text words.entry.now)) }
    ensures faultless { IfOk result (λ line. faults_of (map S.text words.entry.now) ≡ []) }
    ensures fault { IfErr result (λ error. HasKind (faults_of (map S.text words.entry.now)) error) }
    ensures taken { IfErr result (λ error. IsTrue (is_taken (map S.text words.entry.now)) →
        kind_of error ≡ ErrorKind.OutOfMemory) }
{
    let command = command(alloc)?;
    let matches = command.try_get_matches_from(words)?;
    let Some(script) = matches.get_str("SCRIPT") else {
        unreachable!();
    };
    let Some(turns) = matches.get_one::<u32>("turns") else {
        unreachable!();
    };
    Ok(CommandLine {
        script,
        turns,
        threads: matches.get_flag("threads"),
    })
}

/// The program's name, version, help and arguments.
fn command<'a>(alloc: Global) -> Result<Command<'a>, AllocError>
    ensures { IfOk result (λ command. app_of command ≡ program) }
{
    Command::new(alloc, "assise")
        .version(VERSION)
        .override_help(HELP)
        .arg(script_argument(alloc))?
        .arg(turns_option(alloc))?
        .arg(threads_flag(alloc))
}

fn script_argument<'a>(alloc: Global) -> Arg<'a>
    ensures rule { rule_of result ≡ script_rule }
    ensures local { result.global ≡ false }
{
    Arg::new(alloc, "SCRIPT")
        .required(true)
        .action(ArgAction::Set)
}

fn turns_option<'a>(alloc: Global) -> Arg<'a>
    ensures rule { rule_of result ≡ turns_rule }
    ensures local { result.global ≡ false }
{
    Arg::new(alloc, "turns")
        .long("turns")
        .value_name("N")
        .action(ArgAction::Set)
        .value_parser(value_parser!(u32).range(1..=1_000_000))
        .default_value("100000")
}

fn threads_flag<'a>(alloc: Global) -> Arg<'a>
    ensures rule { rule_of result ≡ threads_rule }
    ensures local { result.global ≡ false }
{
    Arg::new(alloc, "threads")
        .long("threads")
        .action(ArgAction::SetTrue)
        .value_parser(value_parser!(bool))
}
