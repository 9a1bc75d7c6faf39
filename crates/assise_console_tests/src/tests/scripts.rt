//! What scripts print.
use crate::tests::stock::stock_of;
use crate::tests::{failures, links, rows};
use assise_console::engine::engine;
use assise_console::options::CommandLine;
use assise_names::limits::MOST_CLIENTS;
use std::alloc::{AllocError, Global};
use std::test::Fail;

/// The command line of the tests. What ends a run early names its script.
pub(crate) const NOWHERE: CommandLine = CommandLine {
    script: "some.script",
    turns: 1000,
    threads: false,
};

/// A script, and what it prints.
pub(crate) type Run<'a> = (&'a str, &'a str);

/// Whether a script, read and run from memory to memory, prints this.
pub(crate) fn prints(
    alloc: Global,
    script: &str,
    wanted: &str,
    command_line: &CommandLine<'_>,
) -> Result<bool, Fail> {
    let mut reader = script.as_bytes();
    let mut output = Vec::new(alloc);
    let stock = stock_of(alloc)?;
    engine(alloc, &mut reader, &mut output, stock, command_line)?;
    Ok(output.as_slice() == wanted.as_bytes())
}

/// A script whose first line makes a cluster that keeps `hot` inodes hot; a script without a cluster stays as it is.
fn with_hot(alloc: Global, script: &str, hot: u32) -> Result<String, AllocError> {
    if let Some((first, rest)) = script.split_once('\n') {
        if let Some((cluster, _)) = first.rsplit_once(' ') {
            return format!(in alloc; "{cluster} {hot}\n{rest}");
        }
    }
    String::from_str(alloc, script)
}

/// Whether a script prints this, however many inodes are kept hot.
fn prints_always(alloc: Global, script: &str, wanted: &str) -> Result<bool, Fail> {
    for hot in [1, 3, 64] {
        let other = with_hot(alloc, script, hot)?;
        if !prints(alloc, other.as_str(), wanted, &NOWHERE)? {
            return Ok(false);
        }
    }
    prints(alloc, script, wanted, &NOWHERE)
}

#[test]
fn scripts_print_their_answers(rt: HostRuntime) -> Result<(), Fail> {
    for runs in [RUNS, rows::RUNS, failures::RUNS, links::RUNS] {
        for (script, wanted) in runs {
            assert!(rt; prints_always(rt.alloc(), script, wanted)?, "{script}");
        }
    }
    Ok(())
}

#[test]
fn so_many_clients_are_opened_ever(rt: HostRuntime) -> Result<(), Fail> {
    let mut script = String::from_str(rt.alloc(), "cluster 1 8 4\n")?;
    let mut wanted = String::new(rt.alloc());
    for client in 1..=MOST_CLIENTS {
        script.push_str("open 1 least\n")?;
        writeln!(wanted, "{}: client {client}", client + 1)?;
    }
    script.push_str("open 1 least\n")?;
    writeln!(wanted, "{}: F9 BadClient", MOST_CLIENTS + 2)?;
    assert!(rt; prints(rt.alloc(), script.as_str(), wanted.as_str(), &NOWHERE)?);
    Ok(())
}

/// Calls that are answered and calls that are refused, and the history of the answered ones.
pub(crate) const ANSWERS: &str = "cluster 1 8 4\n\
    open 1 least\n\
    1 create /f\n\
    1 create /f/g\n\
    1 write /g 0 x\n\
    1 write /f 9 x\n\
    1 stat /f\n\
    2 stat /\n\
    open 2 least\n\
    history\n";

/// What that prints.
pub(crate) const PRINTED: &str = "2: client 1\n\
    3: done\n\
    4: E3 NotDir\n\
    5: E1 NoEnt\n\
    6: done\n\
    7: file 0\n\
    8: F9 BadClient\n\
    9: F8 BadNode\n\
    10: history 6\n\
    open 1 1\n\
    call 1 0 create /f = done\n\
    call 1 1 create /f/g = E3 NotDir\n\
    call 1 2 write /g 0 0 = E1 NoEnt\n\
    call 1 3 write /f 9 0 = done\n\
    call 1 4 stat /f = file 0\n";

/// Scripts of one client on one node.
pub(crate) const RUNS: &[Run<'_>] = &[
    // An optimistic client: on one node its dsync is answered at once.
    (
        "\
cluster 1 8 4
open 1 least optimistic
1 dsync
1 fsync
history
",
        "\
2: client 1
3: done
4: done
5: history 3
open 1 1 optimistic
call 1 0 dsync = done
call 1 1 fsync = done
",
    ),
    // A gap is filled with zeros.
    // A write behind the end of a file.
    (
        "\
cluster 1 8 4
open 1 least
1 create /f
1 write /f 5 tabc
1 read /f 0 10
1 read /f 8 1
1 stat /f
",
        "\
2: client 1
3: done
4: done
5: bytes 8 x0000000000616263
6: bytes 0 x
7: file 8
",
    ),
    // Each file has its own bytes.
    // Creates, some of which fail, then a write and a read of each file: no two files have one inode.
    (
        "\
cluster 1 8 4
open 1 least
1 create /a
1 create /a
1 create /a/b
1 create /none/b
1 create /
1 create /b
1 create /c
1 write /a 0 tone
1 write /b 0 ttwo
1 write /c 2 tthree
1 write /a 3 x
1 read /a 0 9
1 read /b 0 9
1 read /c 0 9
1 stat /
1 read / 0 9
",
        "\
2: client 1
3: done
4: E2 Exists
5: E3 NotDir
6: E1 NoEnt
7: E2 Exists
8: done
9: done
10: done
11: done
12: done
13: done
14: bytes 3 x6f6e65
15: bytes 3 x74776f
16: bytes 7 x00007468726565
17: dir 3
18: E4 IsDir
",
    ),
    // The root stays.
    // Calls of the root that no file system lets through.
    (
        "\
cluster 1 8 4
open 1 least
1 read / 0 1
1 unlink /
1 rmdir /
1 create /
",
        "\
2: client 1
3: E4 IsDir
4: E4 IsDir
5: E6 Invalid
6: E2 Exists
",
    ),
    // A file has at most 1048576 bytes.
    // Sizes and writes up to the most bytes of a file, and past it.
    (
        "\
cluster 1 64 4
open 1 least
1 create /f
1 truncate /f 1048575
1 write /f 1048575 ta
1 write /f 1048576 ta
1 write /f 0 z65537
1 truncate /f 1048577
1 read /f 1048574 9
1 stat /f
1 write /f 1048576 t
1 write /nope 0 z65537
",
        "\
2: client 1
3: done
4: done
5: done
6: E7 TooBig
7: F6 TooLarge
8: E7 TooBig
9: bytes 2 x0061
10: file 1048576
11: done
12: F6 TooLarge
",
    ),
    // Directories are listed and removed.
    // Directories that are made, listed, and removed once they are empty; names ascend by their bytes.
    (
        "\
cluster 1 64 4
open 1 least
1 mkdir /d
1 mkdir /d
1 mkdir /d/e
1 create /d/b
1 create /d/B
1 create /d/ä
1 list /d
1 rmdir /d
1 unlink /d/e
1 rmdir /d/b
1 list /d/b
1 stat /d
1 unlink /d/b
1 unlink /d/B
1 unlink /d/ä
1 rmdir /d/e
1 list /d
1 rmdir /d
1 list /
1 mkdir /d/e
1 fsync
",
        "\
2: client 1
3: done
4: E2 Exists
5: done
6: done
7: done
8: done
9: names 4 B b e ä
10: E5 NotEmpty
11: E4 IsDir
12: E3 NotDir
13: E3 NotDir
14: dir 4
15: done
16: done
17: done
18: done
19: names 0
20: done
21: names 0
22: E1 NoEnt
23: done
",
    ),
    // Entries are moved.
    // Files and directories that are moved, over others and into others, and moves that are not made.
    (
        "\
cluster 1 64 4
open 1 least
1 create /a
1 create /b
1 mkdir /d
1 mkdir /e
1 create /d/k
1 rename /a /b
1 rename /b /d
1 rename /d /b
1 rename /e /d
1 rename /d /e
1 rename /e /e
1 rename /e /e/k/z
1 rename /none /b/c
1 rename /e /b/c
1 list /
1 list /e
",
        "\
2: client 1
3: done
4: done
5: done
6: done
7: done
8: done
9: E4 IsDir
10: E3 NotDir
11: E5 NotEmpty
12: done
13: done
14: E6 Invalid
15: E1 NoEnt
16: E3 NotDir
17: names 2 b e
18: names 1 k
",
    ),
    // What is moved is kept.
    // What is moved keeps its bytes, its subtree and its place in the history.
    (
        "\
cluster 1 16 4
open 1 least
1 mkdir /d
1 create /d/f
1 write /d/f 0 tabc
1 create /g
1 rename /d/f /g
1 read /g 0 9
1 rename /g /d/h
1 mkdir /e
1 rename /d /e/d
1 read /e/d/h 0 9
1 rename / /x
1 rename /e /
1 list /
1 write /e/d/h 3 td
1 read /e/d/h 0 9
history
",
        "\
2: client 1
3: done
4: done
5: done
6: done
7: done
8: bytes 3 x616263
9: done
10: done
11: done
12: bytes 3 x616263
13: E6 Invalid
14: E6 Invalid
15: names 1 e
16: done
17: bytes 4 x61626364
18: history 16
open 1 1
call 1 0 mkdir /d = done
call 1 1 create /d/f = done
call 1 2 write /d/f 0 3 = done
call 1 3 create /g = done
call 1 4 rename /d/f /g = done
call 1 5 read /g 0 9 = bytes 3 x616263
call 1 6 rename /g /d/h = done
call 1 7 mkdir /e = done
call 1 8 rename /d /e/d = done
call 1 9 read /e/d/h 0 9 = bytes 3 x616263
call 1 10 rename / /x = E6 Invalid
call 1 11 rename /e / = E6 Invalid
call 1 12 list / = names 1 e
call 1 13 write /e/d/h 3 1 = done
call 1 14 read /e/d/h 0 9 = bytes 4 x61626364
",
    ),
    // What is removed is gone.
    // A file that is removed and made again has none of its old bytes.
    (
        "\
cluster 1 8 4
open 1 least
1 create /f
1 write /f 0 tabc
1 truncate /f 1
1 truncate /f 3
1 read /f 0 9
1 unlink /f
1 read /f 0 9
1 create /f
1 read /f 0 9
1 fsync
history
",
        "\
2: client 1
3: done
4: done
5: done
6: done
7: bytes 3 x610000
8: done
9: E1 NoEnt
10: done
11: bytes 0 x
12: done
13: history 11
open 1 1
call 1 0 create /f = done
call 1 1 write /f 0 3 = done
call 1 2 truncate /f 1 = done
call 1 3 truncate /f 3 = done
call 1 4 read /f 0 9 = bytes 3 x610000
call 1 5 unlink /f = done
call 1 6 read /f 0 9 = E1 NoEnt
call 1 7 create /f = done
call 1 8 read /f 0 9 = bytes 0 x
call 1 9 fsync = done
",
    ),
    // Sixteen nodes; a check of the history changes nothing, and a tree comes from any of them.
    (
        "\
cluster 16 8 4
open 9 least
1 create /f
1 fsync
check
tree 8
history
check
",
        "\
2: client 1
3: done
4: done
5: legal
6: tree 1
/f file 0
7: history 3
open 1 9
call 1 0 create /f = done
call 1 1 fsync = done
8: legal
",
    ),
    // Answers stand in the history and refusals do not.
    (ANSWERS, PRINTED),
    // A script without a cluster prints nothing.
    ("", ""),
    ("# nothing\n\n", ""),
];
