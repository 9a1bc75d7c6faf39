//! Lines of scripts behind a cluster.
use assise_fault_script::command::Command;
use assise_fault_script::fault::LineFault;
use assise_fault_script::parse::parse;
use assise_test_rows::{Subject, show};
use std::alloc::Global;

/// Each command. A call tells how many bytes it writes.
const COMMANDS: &str = "\
 manual => Manual
open  007   whole   => Open { node: 7, kind: Whole, durability: Pessimistic }
open 1 least => Open { node: 1, kind: Least, durability: Pessimistic }
open 2 eights optimistic => Open { node: 2, kind: Eights, durability: Optimistic }
01 create /f => 1 create /f
1 mkdir /d => 1 mkdir /d
2 read /f 0 18446744073709551615 => 2 read /f 0 18446744073709551615
1 write /f 2 tab => 1 write /f 2 2
1 write /f 0 x09afAF => 1 write /f 0 3
1 write /f 0 z1048576 => 1 write /f 0 1048576
1 truncate /f 1048577 => 1 truncate /f 1048577
1 rename /a /b => 1 rename /a /b
1 unlink /f => 1 unlink /f
1 rmdir /d => 1 rmdir /d
1 list / => 1 list /
1 stat / => 1 stat /
1 fsync => 1 fsync
1 dsync => 1 dsync
carry 1 => Carry { node: 1 }
digest 0 => Digest { node: 0 }
release => Release
crash 1 => Crash { client: 1 }
fail 2 => Fail { node: 2 }
back 2 => Back { node: 2 }
refill 2 => Refill { node: 2 }
join 2 => Join { node: 2 }
raise 2 => Raise { node: 2 }
link 1 perfect => Link { node: 1, kind: Perfect }
link 2 lose => Link { node: 2, kind: Lose }
link 3 repeat => Link { node: 3, kind: Repeat }
link 4 delay => Link { node: 4, kind: Delay }
link 5 cut 065 => Link { node: 5, kind: Cut(65) }
link 6 fault => Link { node: 6, kind: Fault }
hot 1 4096 => Hot { node: 1, capacity: 4096 }
tree 1 => Tree { node: 1 }
history => History
check => Check
";

/// Each fault of a line but two: that its bytes aren't UTF-8, and that the cluster is missing.
const FAULTS: &str = "\
fly => 2: unknown command
1 fly /f => 2: unknown command
open 1 => 2: wrong number of words
1 stat /f /g => 2: wrong number of words
carry 18446744073709551616 => 2: bad number
hot 1 0 => 2: out of limits
1 stat f => 2: bad path: not absolute
1 create //f => 2: bad path: empty name
1 rmdir /d/.. => 2: bad path: bad name
1 write /f 0 xg0 => 2: bad data
open 1 most => 2: unknown revoker
open 1 least eager => 2: unknown mode
link 1 tear => 2: unknown link
cluster 1 8 1 => 2: second cluster
";

/// A line behind a cluster.
#[derive(Clone, Copy)]
struct Lines;

impl Subject for Lines {
    fn put(&mut self, alloc: Global, steps: &str, text: &mut String) -> Option<()> {
        let script = format!(in alloc; "cluster 1 8 1\n{steps}").ok()?;
        match parse(alloc, script.as_bytes()) {
            Ok(commands) => put_command(&commands.last()?.command, text),
            Err(LineFault { line, fault }) => write!(text, " {line}: {fault}").ok(),
        }
    }
}

fn put_command(command: &Command, text: &mut String) -> Option<()> {
    match command {
        Command::Call { client, op } => write!(text, " {client} {op}").ok(),
        _ => write!(text, " {command:?}").ok(),
    }
}

#[test]
fn lines_are_read(rt: HostRuntime) {
    assert_eq!(rt; show(rt.alloc(), &mut Lines, COMMANDS).as_str(), "right");
    assert_eq!(rt; show(rt.alloc(), &mut Lines, FAULTS).as_str(), "right");
}

/// How many commands a script with `count` calls behind its cluster has.
fn count_of(alloc: Global, calls: usize) -> Option<usize> {
    let lines = "\n1 write /f 0 thello".repeat(alloc, calls).ok()?;
    let script = format!(in alloc; "cluster 1 8 1{lines}").ok()?;
    Some(parse(alloc, script.as_bytes()).ok()?.len())
}

#[test]
fn a_script_of_100000_commands_is_read(rt: HostRuntime) {
    assert_eq!(rt; count_of(rt.alloc(), 99_999), Some(100_000));
}
