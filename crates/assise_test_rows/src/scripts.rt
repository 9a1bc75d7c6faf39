//! Scripts on several nodes that more than one crate of tests serves.

/// Two clients on two nodes write and read one file.
pub const SHARED_FILE: &str = "\
cluster 2 8 4
open 1 least
open 2 least
1 create /f
1 write /f 0 thi
2 read /f 0 2
2 write /f 2 t!
1 read /f 0 9
history
";

/// Two clients move each other's directories into their own.
pub const CROSSING: &str = "\
cluster 2 16 4
open 1 least
open 2 eights
1 mkdir /p
1 mkdir /q
1 mkdir /p/x
1 mkdir /q/y
2 rename /q/y /p/x/y
1 rename /p/x /q/y/x
1 rename /p/x /p/x/y/x
1 rename /p /p/r
2 list /p/x
1 stat /q
";

/// What rounds do, by hand: two leases are handed over, one after another.
pub const HANDED_BY_HAND: &str = "\
cluster 2 8 4
manual
open 1 least
open 2 least
1 create /f
2 stat /f
carry 1
digest 1
release
digest 2
release
2 stat /f
release
1 stat /f
";

/// A node fails that alone has a file.
pub const LOST_FILE: &str = "\
cluster 2 8 4
open 1 least
open 2 least
1 create /f
1 write /f 0 tx
fail 1
2 read /f 0 1
1 stat /f
";

/// What a client wrote behind its fsync is lost, and nothing before it.
pub const CUT_AT_AN_FSYNC: &str = "\
cluster 2 8 4
open 1 least
open 2 least
1 create /f
1 write /f 0 taa
1 fsync
1 write /f 0 tbb
fail 1
2 read /f 0 9
tree 2
";

/// Of three nodes the last lacks a record when the first fails: its client has to wait until the leases go.
pub const CARRIED_IN_PART: &str = "\
cluster 3 8 4
manual
open 1 least
open 2 least
1 create /f
1 fsync
carry 1
fail 1
2 stat /f
release
2 stat /f
";

/// A client handed over one of two files before its node fails.
pub const HANDED_LEAST: &str = "\
cluster 2 8 4
open 1 least
open 2 least
1 create /a
1 create /b
1 write /a 0 t1
1 write /b 0 t2
2 read /a 0 1
fail 1
2 read /b 0 1
";

/// A client handed over its whole log before its node fails.
pub const HANDED_WHOLE: &str = "\
cluster 2 8 4
open 1 whole
open 2 least
1 create /a
1 create /b
1 write /a 0 t1
1 write /b 0 t2
2 read /a 0 1
fail 1
2 read /b 0 1
";

/// A node comes back, and then stands alone.
pub const BACK_AND_ALONE: &str = "\
cluster 2 16 4
open 1 least
open 2 least
1 create /f
1 fsync
fail 1
2 write /f 0 tnew
digest 2
back 1
2 write /f 3 t!
2 fsync
fail 2
open 1 least
3 read /f 0 9
";

/// A node comes back step by step; it joins once it lacks nothing.
pub const BACK_BY_HAND: &str = "\
cluster 3 16 4
manual
open 1 least
1 create /f
1 fsync
carry 1
carry 2
1 fsync
digest 1
digest 3
fail 3
fail 2
back 2
join 2
refill 2
refill 2
join 2
tree 2
";

/// The last full node doesn't fail, and only a node that is down comes back.
pub const OUT_OF_ORDER: &str = "\
cluster 2 8 4
back 1
fail 3
fail 1
fail 1
fail 2
open 1 least
back 1
1 list /
history
";

/// A client crashes: what it wrote stays, and it calls no more.
pub const CRASHED: &str = "\
cluster 2 8 4
open 1 least
open 1 whole
1 create /f
1 write /f 0 tz
crash 1
1 read /f 0 1
2 read /f 0 1
crash 1
";

/// A node fails again while it comes back.
pub const FAILS_AGAIN: &str = "\
cluster 2 8 4
manual
fail 2
back 2
fail 2
back 2
join 2
history
";

/// The full node that a node is filled from fails, and another takes its place.
pub const DONOR_FAILS: &str = "\
cluster 3 16 4
manual
open 2 least
fail 3
1 create /f
1 fsync
carry 2
digest 1
digest 2
back 3
refill 3
fail 1
join 3
refill 3
refill 3
1 write /f 0 tz
digest 2
join 3
refill 3
join 3
tree 3
";
