//! Steps that are refused as out of memory: `checks/allocations state` refuses each allocation in turn. What is refused leaves all
//! as it was but for leases that it got, and the same step answers then.
use crate::seen::seen;
use crate::steps::{Sound, cluster_of, put_step};
use std::alloc::Global;

/// Clients are opened.
const OPENED: &str = "\
open 1 least => Ok(1)
open 2 least => Ok(2)
open 1 least optimistic => Ok(3)
";

/// A file is made.
const CREATED: &str = "\
open 2 least => Ok(1)
1 create /f => Ok(Answered(Done))
";

/// A file is written.
const WRITTEN: &str = "\
open 1 least => Ok(1)
1 create /f => Ok(Answered(Done))
1 write /f 3 tabc => Ok(Answered(Done))
";

/// A file is replaced by another.
const REPLACED: &str = "\
open 2 least => Ok(1)
1 create /a => Ok(Answered(Done))
1 create /b => Ok(Answered(Done))
1 rename /a /b => Ok(Answered(Done))
1 stat / => Ok(Answered(Dir(1)))
";

/// A file is cut, and removed.
const REMOVED: &str = "\
open 1 least => Ok(1)
1 create /f => Ok(Answered(Done))
1 truncate /f 3 => Ok(Answered(Done))
1 stat /f => Ok(Answered(File(3)))
1 unlink /f => Ok(Answered(Done))
";

/// A directory is made and removed.
const LISTED: &str = "\
open 1 least => Ok(1)
1 mkdir /d => Ok(Answered(Done))
1 stat / => Ok(Answered(Dir(1)))
1 rmdir /d => Ok(Answered(Done))
";

/// A log that another node lacks is awaited.
const AWAITED: &str = "\
open 1 least => Ok(1)
1 create /f => Ok(Answered(Done))
sync 1 => Ok(NotYet)
1 fsync => Ok(NotYet)
";

/// A log of an optimistic client becomes a group.
const COALESCED: &str = "\
open 1 least optimistic => Ok(1)
sync 1 => Ok(Answered(Done))
1 create /f => Ok(Answered(Done))
1 write /f 0 ta => Ok(Answered(Done))
1 write /f 0 tb => Ok(Answered(Done))
1 dsync => Ok(NotYet)
";

/// A writer elsewhere is asked, once.
const WRITER_ASKED: &str = "\
open 1 least => Ok(1)
open 2 least => Ok(2)
1 create /f => Ok(Answered(Done))
2 stat / => Ok(NotYet)
2 stat / => Ok(NotYet)
";

/// A reader is asked, waits then, and goes.
const BOTH_ASKED: &str = "\
open 1 least => Ok(1)
open 1 least => Ok(2)
1 stat / => Ok(Answered(Dir(0)))
2 stat / => Ok(Answered(Dir(0)))
1 create /f => Ok(NotYet)
2 stat / => Ok(NotYet)
release => 1
1 create /f => Ok(Answered(Done))
";

/// All of them, each from a new cluster of two nodes on.
const SHORT: &[&str] = &[
    OPENED,
    CREATED,
    WRITTEN,
    REPLACED,
    REMOVED,
    LISTED,
    AWAITED,
    COALESCED,
    WRITER_ASKED,
    BOTH_ASKED,
];

/// Makes the steps of rows, each once more where it is refused as out of memory. False where a refused step changed what is
/// seen, or where a step comes to something else than its row says. None where memory runs out for the test itself.
fn ends_alike(alloc: Global, rows: &str) -> Option<bool> {
    let mut sound = cluster_of(alloc, 2)?;
    are_right(alloc, &mut sound, rows)
}

fn are_right(alloc: Global, sound: &mut Sound, rows: &str) -> Option<bool> {
    for row in rows.lines() {
        let (step, wanted) = row.split_once(" => ").unwrap_or((row, ""));
        if !is_right(alloc, sound, step, wanted)? {
            return Some(false);
        }
    }
    Some(true)
}

/// Makes a step, once more where it is refused as out of memory.
fn is_right(alloc: Global, sound: &mut Sound, step: &str, wanted: &str) -> Option<bool> {
    let before = seen(alloc, sound).ok()?;
    let mut text = String::with_capacity(alloc, 256).ok()?;
    put_step(alloc, sound, step, &mut text)?;
    if text.as_str() == "Err(OutOfMemory)" {
        let after = seen(alloc, sound).ok()?;
        if after.as_str() != before.as_str() {
            return Some(false);
        }
        text.clear();
        put_step(alloc, sound, step, &mut text)?;
    }
    Some(text.as_str() == wanted)
}

#[test]
fn short_texts_are_made_again(rt: HostRuntime) {
    for rows in SHORT {
        assert!(rt; ends_alike(rt.alloc(), rows) != Some(false), "in\n{rows}");
    }
}
