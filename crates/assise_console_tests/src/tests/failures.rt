//! Scripts whose clients crash and whose nodes fail and come back.
use crate::tests::scripts::Run;
use assise_test_rows::scripts::{
    BACK_AND_ALONE, BACK_BY_HAND, CARRIED_IN_PART, CRASHED, CUT_AT_AN_FSYNC, DONOR_FAILS,
    FAILS_AGAIN, HANDED_LEAST, HANDED_WHOLE, LOST_FILE, OUT_OF_ORDER,
};

/// What a script prints in which a node comes back, and then stands alone.
pub(crate) const HAS_ALL: &str = "\
2: client 1
3: client 2
4: done
5: done
6: failed 1
7: done
8: digested 1
9: returned 1
10: done
11: done
12: failed 2
13: client 3
14: bytes 4 x6e657721
";

/// A script whose one fsync is an optimistic client's.
const OPTIMISTIC: &str = "\
cluster 2 64 4
open 1 least optimistic
open 2 least
1 create /f
1 write /f 0 taa
1 fsync
fail 1
2 read /f 0 2
history
";

/// Scripts with failures, returns and crashes.
pub(crate) const RUNS: &[Run<'_>] = &[
    // A file that one node had is lost.
    (
        LOST_FILE,
        "\
2: client 1
3: client 2
4: done
5: done
6: failed 1 1:0
7: E1 NoEnt
8: F3 NodeDown
",
    ),
    // What an optimistic client's fsync said is lost, too.
    (
        OPTIMISTIC,
        "\
2: client 1
3: client 2
4: done
5: done
6: done
7: failed 1 1:0
8: E1 NoEnt
9: history 7
open 1 1 optimistic
open 2 2
call 1 0 create /f = done
call 1 1 write /f 0 2 = done
call 1 2 fsync = done
fail 1 1:0
call 2 0 read /f 0 2 = E1 NoEnt
",
    ),
    // What an fsync kept stays.
    (
        CUT_AT_AN_FSYNC,
        "\
2: client 1
3: client 2
4: done
5: done
6: done
7: done
8: failed 1 1:3
9: bytes 2 x6161
10: tree 1
/f file 2
",
    ),
    // A create on two of three nodes is lost.
    (
        CARRIED_IN_PART,
        "\
3: client 1
4: client 2
5: done
6: wait
7: carried 1
8: failed 1 1:0
9: wait
10: released 2
11: E1 NoEnt
",
    ),
    // A least revoker hands over what it must.
    (
        HANDED_LEAST,
        "\
2: client 1
3: client 2
4: done
5: done
6: done
7: done
8: bytes 1 x31
9: failed 1 1:3
10: bytes 0 x
",
    ),
    // A whole revoker hands over everything.
    (
        HANDED_WHOLE,
        "\
2: client 1
3: client 2
4: done
5: done
6: done
7: done
8: bytes 1 x31
9: failed 1
10: bytes 1 x32
",
    ),
    // A node that came back has all.
    (BACK_AND_ALONE, HAS_ALL),
    // A node comes back by hand.
    (
        BACK_BY_HAND,
        "\
3: client 1
4: done
5: wait
6: carried 1
7: carried 1
8: done
9: digested 1
10: digested 1
11: failed 3
12: failed 2
13: back 2 stale 2
14: F2 Busy
15: left 1
16: left 0
17: returned 2
18: tree 1
/f file 0
",
    ),
    // Failures and returns are refused.
    (
        OUT_OF_ORDER,
        "\
2: F10 WrongPhase
3: F8 BadNode
4: failed 1
5: F10 WrongPhase
6: F7 LastNode
7: F3 NodeDown
8: returned 1
9: F9 BadClient
10: history 2
fail 1
return 1
",
    ),
    // A crashed clients file stays.
    (
        CRASHED,
        "\
2: client 1
3: client 2
4: done
5: done
6: crashed 1
7: F4 ClientGone
8: bytes 1 x7a
9: F4 ClientGone
",
    ),
    // A node fails while it comes back.
    (
        FAILS_AGAIN,
        "\
3: failed 2
4: back 2 stale 0
5: failed 2
6: back 2 stale 0
7: returned 2
8: history 3
fail 2
fail 2
return 2
",
    ),
    // Another node fills the one that comes back.
    (
        DONOR_FAILS,
        "\
3: client 1
4: failed 3
5: done
6: wait
7: carried 1
8: digested 1
9: digested 1
10: back 3 stale 2
11: left 1
12: failed 1
13: F2 Busy
14: left 1
15: left 0
16: done
17: digested 1
18: F2 Busy
19: left 0
20: returned 3
21: tree 1
/f file 1
",
    ),
    // What names nothing is refused.
    // Numbers that name nothing, some of which don't fit 32 bits, and a full node that is filled.
    (
        "\
cluster 1 8 4
manual
crash 1
crash 18446744073709551615
fail 0
fail 4294967297
back 2
back 4294967296
refill 1
refill 9
join 1
join 4294967297
",
        "\
3: F9 BadClient
4: F9 BadClient
5: F8 BadNode
6: F8 BadNode
7: F8 BadNode
8: F8 BadNode
9: F10 WrongPhase
10: F8 BadNode
11: F10 WrongPhase
12: F8 BadNode
",
    ),
];
