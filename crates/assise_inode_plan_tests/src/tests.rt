//! A call of each kind, and what is planned for it.
ghost use Rattle.std.specs.Prelude.{IsTrue};
ghost use Rattle.assise_inode_plan.specs.Planning.{IsWritable};

use assise_inode_plan::plan::{Outcome, Planned, plan};
use assise_inode_plan::view::AllLeased;
use assise_inode_table::table::InodeTable;
use assise_names::call::Op;
use assise_record::effect::MOST_EXTENT_BYTES;
use assise_test_rows::calls::call_in;
use assise_test_rows::{Subject, show};
use std::alloc::Global;

/// Each call's reply, the inodes that it visits, and how many effects it has, which are made. Inode 7 is made first.
const CALLS: &str = "\
create /f => done [0] 2
write /f 5 tabc => done [0, 7] 1
read /f 4 10 => bytes 4 x00616263 [0, 7] 0
truncate /f 9 => done [0, 7] 1
stat /f => file 9 [0, 7] 0
mkdir /d => done [0] 2
rename /f /d/g => done [0, 7, 0, 8] 2
list /d => names 1 g [0, 8] 0
unlink /d/g => done [0, 8, 7] 2
rmdir /d => done [0, 8] 2
fsync => done [] 0
dsync => done [] 0
";

/// The inodes for which calls are planned, and the number of the next one.
#[derive(Drop)]
struct Planning {
    inodes: InodeTable,
    fresh: u64,
}

impl Subject for Planning {
    fn put(&mut self, alloc: Global, steps: &str, text: &mut String) -> Option<()> {
        let op = call_in(alloc, steps)?;
        if !is_writable(&op) {
            return None;
        }
        put_plan(alloc, &mut self.inodes, &op, self.fresh, text)?;
        if self.inodes.get(self.fresh).is_some() {
            self.fresh = self.fresh.wrapping_add(1);
        }
        Some(())
    }
}

/// Whether a call writes at most 65,536 bytes.
fn is_writable(op: &Op) -> bool
    ensures { IsTrue result → IsWritable op.now }
{
    match op {
        Op::Write(_, _, bytes) => bytes.len() <= MOST_EXTENT_BYTES,
        _ => true,
    }
}

/// Plans a call over all inodes, appends the plan, and makes its effects.
fn put_plan(
    alloc: Global,
    inodes: &mut InodeTable,
    op: &Op,
    fresh: u64,
    text: &mut String,
) -> Option<()>
    requires one_write { IsWritable op.now }
{
    let planned = plan(alloc, &AllLeased { inodes: &*inodes }, op, fresh).ok()?;
    match &planned {
        Planned::Ready(
            Outcome {
                reply,
                reads,
                effects,
            },
        ) => {
            inodes.apply_all(effects.as_slice()).ok()?;
            write!(text, " {reply} {:?} {}", reads.as_slice(), effects.len()).ok()
        }
        Planned::Missing(..) => None,
    }
}

/// What is planned for calls, one after another.
fn shown(alloc: Global, rows: &str) -> Option<String> {
    let inodes = InodeTable::opening(alloc).ok()?;
    Some(show(alloc, &mut Planning { inodes, fresh: 7 }, rows))
}

#[test]
fn a_call_of_each_kind_is_planned(rt: HostRuntime) {
    assert_eq!(rt; shown(rt.alloc(), CALLS).as_deref(), Some("right"));
}
