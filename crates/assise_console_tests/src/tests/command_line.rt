//! The words of the command line.
use assise_console::options::{CommandLine, options};
use clap::Error;
use std::alloc::{AllocError, Global};
use std::test::Fail;

/// Command lines, and what is asked for by each, or the kind of its fault, where its text goes, and the exit status.
const LINES: &[(&[&str], &str)] = &[
    (&["assise", "a.script"], "script a.script, 100000 turns"),
    (&["assise", "-"], "script -, 100000 turns"),
    (
        &["assise", "--turns=1000000", "a"],
        "script a, 1000000 turns",
    ),
    (
        &["assise", "--turns", "3", "--threads", "-"],
        "script -, 3 turns, threads",
    ),
    (&["assise"], "MissingRequiredArgument, status 2"),
    (&["assise", "a", "b"], "UnknownArgument, status 2"),
    (&["assise", "--none", "a"], "UnknownArgument, status 2"),
    (
        &["assise", "a", "--turns", "0"],
        "ValueValidation, status 2",
    ),
    (&["assise", "a", "--turns"], "InvalidValue, status 2"),
    (
        &["assise", "a", "--threads", "--threads"],
        "ArgumentConflict, status 2",
    ),
    (
        &["assise", "a", "--threads=true"],
        "TooManyValues, status 2",
    ),
    (
        &["assise", "--help"],
        "DisplayHelp, standard output, status 0",
    ),
    (
        &["assise", "--version"],
        "DisplayVersion, standard output, status 0",
    ),
];

/// What the words ask for, or what they end with.
fn described(alloc: Global, found: &Result<CommandLine<'_>, Error>) -> Result<String, AllocError> {
    match found {
        Ok(line) => {
            let threads = if line.threads { ", threads" } else { "" };
            let (script, turns) = (line.script, line.turns);
            format!(in alloc; "script {script}, {turns} turns{threads}")
        }
        Err(error) => {
            let (kind, status) = (error.kind(), error.exit_code());
            let output = if error.use_stderr() {
                ""
            } else {
                ", standard output"
            };
            format!(in alloc; "{kind:?}{output}, status {status}")
        }
    }
}

#[test]
fn the_command_line_is_one_script(rt: HostRuntime) -> Result<(), Fail> {
    for &(words, wanted) in LINES {
        let found = options(rt.alloc(), words);
        assert_eq!(rt; described(rt.alloc(), &found)?.as_str(), wanted);
    }
    Ok(())
}

/// What is printed of words that name no script.
fn printed(alloc: Global, words: &[&str]) -> Result<String, Fail> {
    let Err(error) = options(alloc, words) else {
        return Err(Fail::new("a script was found"));
    };
    Ok(format!(in alloc; "{error}")?)
}

/// What help says.
const HELP: &str = "\
Usage: assise [OPTIONS] <SCRIPT>
  <SCRIPT>  
      --threads    A thread for each client
  --turns <N>  
 1 to 1000000 [default: 100000]
  -h, --help  
  -V, --version  
  cluster NODES LOG HOT 
  open NODE KIND 
 least, whole or eights
  C create P 
  C mkdir P
  C read P OFFSET LENGTH
  C write P OFFSET DATA 
 tTEXT, xHEX, or zCOUNT 
  C truncate P SIZE
  C rename P Q
  C unlink P
  C rmdir P
  C list P
  C stat P
  C fsync 
  crash C 
  fail NODE 
  back NODE 
  tree NODE 
  history 
  check 
  manual 
  carry NODE 
  digest NODE 
  release 
  refill NODE 
  join NODE 
  raise NODE 
Example:  printf 
Exit status: 0 
";

#[test]
fn what_is_printed_says_what_to_do(rt: HostRuntime) -> Result<(), Fail> {
    let help = printed(rt.alloc(), &["assise", "--help"])?;
    for part in HELP.lines() {
        assert!(rt; help.contains(part), "{part}");
    }
    let version = printed(rt.alloc(), &["assise", "--version"])?;
    assert_eq!(rt; version.as_str(), "assise 0.1.0 (unknown, unproved)\n");
    let fault = printed(rt.alloc(), &["assise"])?;
    assert!(rt; fault.starts_with("error: "), "{fault}");
    Ok(())
}
