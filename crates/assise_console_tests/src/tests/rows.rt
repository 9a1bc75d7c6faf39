//! Scripts on a cluster: replication, leases, digests and what each node has.
use crate::tests::scripts::Run;
use assise_test_rows::scripts::{CROSSING, HANDED_BY_HAND, SHARED_FILE};

/// Scripts of clients that share files, on one node and on several.
pub(crate) const RUNS: &[Run<'_>] = &[
    // A digest leaves the tree.
    // Records are digested, and the tree is the same before and after; there is one node.
    (
        "\
cluster 1 8 4
open 1 least
1 create /f
1 mkdir /d
tree 1
digest 1
digest 1
tree 1
tree 2
",
        "\
2: client 1
3: done
4: done
5: tree 2
/d dir
/f file 0
6: digested 2
7: digested 0
8: tree 2
/d dir
/f file 0
9: F8 BadNode
",
    ),
    // A dsync sends what is left of its group.
    // An optimistic client writes a file twice, and makes another that is gone again.
    (
        "\
cluster 2 64 4
manual
open 1 least optimistic
1 create /f
1 write /f 0 taa
1 write /f 0 tbb
1 create /t
1 unlink /t
1 fsync
1 dsync
carry 1
1 dsync
digest 2
tree 2
",
        "\
3: client 1
4: done
5: done
6: done
7: done
8: done
9: done
10: wait
11: carried 1
12: done
13: digested 3
14: tree 1
/f file 2
",
    ),
    // A full log is digested.
    // A log of eight records gets full; what needs no record is answered still.
    (
        "\
cluster 1 8 4
manual
open 1 least
1 create /a
1 create /b
1 create /c
1 create /d
1 create /e
1 create /f
1 create /g
1 create /h
1 create /i
1 create /a
digest 1
1 create /i
",
        "\
3: client 1
4: done
5: done
6: done
7: done
8: done
9: done
10: done
11: done
12: F12 LogFull
13: E2 Exists
14: digested 8
15: done
",
    ),
    // Two clients share a file.
    (
        SHARED_FILE,
        "\
2: client 1
3: client 2
4: done
5: done
6: bytes 2 x6869
7: done
8: bytes 3 x686921
9: history 7
open 1 1
open 2 2
call 1 0 create /f = done
call 1 1 write /f 0 2 = done
call 2 0 read /f 0 2 = bytes 2 x6869
call 2 1 write /f 2 1 = done
call 1 2 read /f 0 9 = bytes 3 x686921
",
    ),
    // Renames that cross make no ring.
    (
        CROSSING,
        "\
2: client 1
3: client 2
4: done
5: done
6: done
7: done
8: done
9: E1 NoEnt
10: E6 Invalid
11: E6 Invalid
12: names 1 y
13: dir 0
",
    ),
    // A lease is handed over by hand.
    (
        HANDED_BY_HAND,
        "\
3: client 1
4: client 2
5: done
6: wait
7: carried 1
8: digested 1
9: released 0
10: digested 1
11: released 1
12: wait
13: released 1
14: file 0
",
    ),
    // What names no node is refused.
    // Nodes and clients that aren't there, and more clients than may be.
    (
        "\
cluster 2 8 4
carry 3
digest 0
tree 4294967297
open 3 whole
carry 2
digest 2
release
tree 2
",
        "\
2: F8 BadNode
3: F8 BadNode
4: F8 BadNode
5: F8 BadNode
6: carried 0
7: digested 0
8: released 0
9: tree 0
",
    ),
    // An fsync makes room in a log.
    // A log that gets full once more: an fsync is tried twice, and the round between digests eight records at both nodes. Then the
    // client's node fails, and what it made behind its fsync is lost.
    (
        "\
cluster 2 8 4
open 1 least
1 create /a
1 create /b
1 create /c
1 create /d
1 create /e
1 create /f
1 create /g
1 create /h
1 create /i
1 fsync
1 create /i
fail 1
tree 2
",
        "\
2: client 1
3: done
4: done
5: done
6: done
7: done
8: done
9: done
10: done
11: F12 LogFull
12: done
13: done
14: failed 1 1:9
15: tree 8
/a file 0
/b file 0
/c file 0
/d file 0
/e file 0
/f file 0
/g file 0
/h file 0
",
    ),
    // A writer is not overtaken.
    // A client waits for another one of its node to give up the root. Its node's lease is raised at the asking, so a reader elsewhere
    // doesn't overtake it.
    (
        "\
cluster 2 64 4
manual
open 1 least
open 1 least
open 2 least
2 read /a 3 2
1 mkdir /a
3 list /a
release
release
1 mkdir /a
3 list /a
carry 1
digest 1
digest 2
release
3 list /a
history
",
        "\
3: client 1
4: client 2
5: client 3
6: E1 NoEnt
7: wait
8: wait
9: released 2
10: released 0
11: done
12: wait
13: carried 1
14: digested 1
15: digested 1
16: released 1
17: wait
18: history 5
open 1 1
open 2 1
open 3 2
call 2 0 read /a 3 2 = E1 NoEnt
call 1 0 mkdir /a = done
",
    ),
    // Nine clients have one tree.
    // Nine clients on three nodes make a file each, and the last one writes the first one's.
    (
        "\
cluster 3 8 4
open 1 least
open 2 whole
open 3 eights
open 1 least
open 2 whole
open 3 eights
open 1 least
open 2 whole
open 3 eights
1 create /a
2 create /b
3 create /c
4 create /d
5 create /e
6 create /f
7 create /g
8 create /h
9 create /i
tree 1
9 fsync
tree 1
9 write /a 0 t9
1 fsync
9 fsync
tree 3
",
        "\
2: client 1
3: client 2
4: client 3
5: client 4
6: client 5
7: client 6
8: client 7
9: client 8
10: client 9
11: done
12: done
13: done
14: done
15: done
16: done
17: done
18: done
19: done
20: tree 8
/a file 0
/b file 0
/c file 0
/d file 0
/e file 0
/f file 0
/g file 0
/h file 0
21: done
22: tree 9
/a file 0
/b file 0
/c file 0
/d file 0
/e file 0
/f file 0
/g file 0
/h file 0
/i file 0
23: done
24: done
25: done
26: tree 9
/a file 1
/b file 0
/c file 0
/d file 0
/e file 0
/f file 0
/g file 0
/h file 0
/i file 0
",
    ),
    // A line without words is skipped.
    ("cluster 1 8 4\n\n", ""),
    // Refusals come in their order.
    ("cluster 1 8 4\n1 stat /\n", "2: F9 BadClient\n"),
    (
        "cluster 1 8 4\nopen 2 least\nopen 4294967297 whole\n",
        "2: F8 BadNode\n3: F8 BadNode\n",
    ),
    (
        "cluster 1 8 4\nopen 1 least\nopen 1 eights\n",
        "2: client 1\n3: client 2\n",
    ),
    (
        "cluster 1 8 4\nopen 1 least\n4294967297 stat /\n",
        "2: client 1\n3: F9 BadClient\n",
    ),
    ("cluster 1 8 4\n1 write /f 0 z65537\n", "2: F9 BadClient\n"),
    (
        "cluster 1 8 4\nopen 1 least\n1 write /none 0 z65537\n1 write /none 0 z65536\n",
        "2: client 1\n3: F6 TooLarge\n4: E1 NoEnt\n",
    ),
];
