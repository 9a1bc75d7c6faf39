//! Links that lose, repeat, delay and cut, and areas of which another number of inodes is hot.
use crate::tests::scripts::Run;

/// Scripts that set links, and how many inodes may be hot.
pub(crate) const RUNS: &[Run<'_>] = &[
    // A frame that comes again does no harm.
    (
        "\
cluster 2 8 4
manual
open 1 least
link 1 repeat
1 create /a
1 fsync
carry 1
1 create /b
1 fsync
carry 1
carry 1
1 fsync
",
        "\
3: client 1
4: linked 1
5: done
6: wait
7: carried 1
8: done
9: wait
10: carried 1
11: carried 1
12: done
",
    ),
    // A frame of an earlier epoch is not taken in.
    (
        "\
cluster 3 8 4
manual
open 1 least
link 1 delay
1 create /f
1 fsync
carry 1
fail 3
carry 1
carry 1
",
        "\
3: client 1
4: linked 1
5: done
6: wait
7: carried 0
8: failed 3
9: carried 0
10: carried 1
",
    ),
    // What is hot changes no answer.
    (
        "\
cluster 1 16 2
open 1 least
1 create /a
1 create /b
1 write /a 4095 txy
digest 1
hot 1 1
1 read /a 4094 9
1 write /b 0 tz
hot 1 4
tree 1
hot 2 1
",
        "\
2: client 1
3: done
4: done
5: done
6: digested 3
7: hot 1
8: bytes 3 x007879
9: done
10: hot 1
11: tree 2
/a file 4097
/b file 1
12: F8 BadNode
",
    ),
    // Rounds go over links: what is lost is sent again, and whoever needs it waits.
    (
        "\
cluster 2 8 4
open 1 least
open 2 least
link 1 repeat
1 create /f
2 stat /f
link 1 lose
1 create /g
1 fsync
2 stat /g
link 1 perfect
2 stat /g
1 fsync
",
        "\
2: client 1
3: client 2
4: linked 1
5: done
6: file 0
7: linked 1
8: done
9: F2 Busy
10: F2 Busy
11: linked 1
12: file 0
13: done
",
    ),
    // A link stays through a failure and a return.
    (
        "\
cluster 2 8 4
manual
link 1 lose
fail 1
back 1
join 1
open 1 least
1 create /f
1 fsync
carry 1
link 1 perfect
carry 1
1 fsync
",
        "\
3: linked 1
4: failed 1
5: back 1 stale 0
6: returned 1
7: client 1
8: done
9: wait
10: carried 0
11: linked 1
12: carried 1
13: done
",
    ),
    // Numbers that name no node, and a node that is down.
    (
        "\
cluster 2 8 4
link 0 lose
link 3 cut 5
link 4294967297 fault
hot 0 1
hot 4294967297 4096
fail 2
link 2 delay
hot 2 1
carry 0
carry 9
carry 2
",
        "\
2: F8 BadNode
3: F8 BadNode
4: F8 BadNode
5: F8 BadNode
6: F8 BadNode
7: failed 2
8: linked 2
9: F10 WrongPhase
10: F8 BadNode
11: F8 BadNode
12: F10 WrongPhase
",
    ),
    // A link that has a fault at each carry, at a node that is there.
    (
        "\
cluster 2 8 4
manual
open 1 least
link 1 fault
1 create /f
1 fsync
carry 1
carry 1
link 1 perfect
carry 1
1 fsync
",
        "\
3: client 1
4: linked 1
5: done
6: wait
7: carried 0
8: carried 0
9: linked 1
10: carried 1
11: done
",
    ),
    // A node sends frames of its own level, and reads those up to it.
    (
        "\
cluster 2 8 4
manual
open 1 least
raise 1
1 create /f
1 fsync
carry 1
raise 2
carry 1
1 fsync
raise 2
",
        "\
3: client 1
4: raised 1
5: done
6: wait
7: carried 0
8: raised 2
9: carried 1
10: done
11: F10 WrongPhase
",
    ),
];
