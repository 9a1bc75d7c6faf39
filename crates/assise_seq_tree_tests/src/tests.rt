//! Worked examples of the calls.
use assise_names::call::Op;
use assise_names::name::Name;
use assise_seq_tree::answer::answer;
use assise_seq_tree::sameness::is_same;
use assise_seq_tree::tree::Tree;
use assise_test_rows::calls::call_in;
use assise_test_rows::{Subject, show};
use std::alloc::Global;

/// Files are made, written, read, cut and unlinked. The first error is answered. A file has at most 1,048,576 bytes.
const FILES: &str = "\
stat / => dir 0
create /f => done
stat /f => file 0
write /f 5 tabc => done
read /f 0 10 => bytes 8 x0000000000616263
read /f 8 1 => bytes 0 x
read /f 18446744073709551615 18446744073709551615 => bytes 0 x
read /f 6 1 => bytes 1 x62
stat /f => file 8
stat / => dir 1
write /f 1 txy => done
read /f 0 18446744073709551615 => bytes 8 x0078790000616263
write /f 7 tde => done
read /f 5 9 => bytes 4 x61626465
stat /f => file 9

create /f => done
create /f => E2 Exists
create /f/g => E3 NotDir
create /f/g/h => E3 NotDir
create /g/h => E1 NoEnt
create / => E2 Exists
write /g 0 t => E1 NoEnt
write /g 1048577 ta => E1 NoEnt
write / 0 t => E4 IsDir
write /f/g 0 t => E3 NotDir
write /f 9 t => done
stat /f => file 0
read / 0 0 => E4 IsDir
read /g 0 0 => E1 NoEnt
read /f/g 0 0 => E3 NotDir
stat /g => E1 NoEnt
stat /f/g => E3 NotDir
stat / => dir 1

create /f => done
write /f 1048576 tz => E7 TooBig
write /f 1048575 tzz => E7 TooBig
write /f 18446744073709551615 tz => E7 TooBig
stat /f => file 0
write /f 1048576 t => done
write /f 1048577 t => E7 TooBig
stat /f => file 0
write /f 1048575 tz => done
stat /f => file 1048576
read /f 1048574 9 => bytes 2 x007a

create /f => done
truncate /f 3 => done
read /f 0 9 => bytes 3 x000000
write /f 0 tabc => done
truncate /f 5 => done
read /f 0 9 => bytes 5 x6162630000
truncate /f 2 => done
read /f 0 9 => bytes 2 x6162
truncate /f 4 => done
read /f 0 9 => bytes 4 x61620000
truncate /f 4 => done
stat /f => file 4
truncate /f 0 => done
stat /f => file 0

create /f => done
truncate /f 1048577 => E7 TooBig
truncate /f 18446744073709551615 => E7 TooBig
stat /f => file 0
truncate /f 1048576 => done
stat /f => file 1048576
read /f 1048575 9 => bytes 1 x00
truncate / 1048577 => E4 IsDir
truncate /g 1048577 => E1 NoEnt
truncate /f/g 1048577 => E3 NotDir

create /f => done
write /f 0 tabc => done
create /g => done
mkdir /d => done
unlink / => E4 IsDir
unlink /d => E4 IsDir
unlink /h => E1 NoEnt
unlink /d/h => E1 NoEnt
unlink /f/h => E3 NotDir
stat / => dir 3
unlink /f => done
unlink /f => E1 NoEnt
read /f 0 9 => E1 NoEnt
stat /g => file 0
stat / => dir 2
create /f => done
stat /f => file 0

fsync => done
create /f => done
write /f 0 tabc => done
fsync => done
read /f 0 9 => bytes 3 x616263
list / => names 1 f
";

/// Directories are made, listed by the bytes of their names, and removed once they have no entries. Names differ in any byte.
const DIRECTORIES: &str = "\
mkdir /d => done
stat /d => dir 0
create /d/f => done
mkdir /d/e => done
stat /d => dir 2
stat /d/e => dir 0
mkdir / => E2 Exists
mkdir /g/h => E1 NoEnt
mkdir /d/f/g => E3 NotDir
mkdir /d/f/g/h => E3 NotDir
mkdir /d/f => E2 Exists
mkdir /d/e => E2 Exists
create /d/e => E2 Exists
stat /d => dir 2
stat / => dir 1

mkdir /d => done
mkdir /d/e => done
create /d/f => done
rmdir / => E6 Invalid
rmdir /g => E1 NoEnt
rmdir /g/h => E1 NoEnt
rmdir /d/f => E3 NotDir
rmdir /d/f/g => E3 NotDir
rmdir /d => E5 NotEmpty
stat /d => dir 2
rmdir /d/e => done
stat /d/e => E1 NoEnt
stat /d => dir 1
rmdir /d => E5 NotEmpty
unlink /d/f => done
rmdir /d => done
rmdir /d => E1 NoEnt
stat / => dir 0
rmdir / => E6 Invalid

list / => names 0
create /b => done
mkdir /B => done
create /a => done
list / => names 3 B a b
list /B => names 0
create /B/ab => done
create /B/ä => done
create /B/b => done
create /B/a => done
list /B => names 4 a ab b ä
list /a => E3 NotDir
list /a/b => E3 NotDir
list /c => E1 NoEnt
unlink /a => done
list / => names 2 B b

create /b => done
write /b 0 tz => done
create /ä => done
write /ä 2 tz => done
create /a => done
write /a 3 tz => done
create /ab => done
write /ab 5 tz => done
create /A => done
write /A 6 tz => done
stat /b => file 1
stat /ä => file 3
stat /a => file 4
stat /ab => file 6
stat /A => file 7
stat / => dir 5
";

/// What stands in the way decides. The root isn't moved, and no path below itself: that is told before the walks. The first path
/// is walked before the second. What is moved to its own path stays, and what a tree holds moves with it.
const RENAMES: &str = "\
create /a => done
create /b => done
mkdir /d => done
mkdir /e => done
create /d/k => done
rename /a /b => done
rename /b /d => E4 IsDir
rename /d /b => E3 NotDir
rename /e /d => E5 NotEmpty
rename /d /e => done
rename /e /e => done
rename /e /e/k/z => E6 Invalid
rename /none /b/c => E1 NoEnt
rename /e /b/c => E3 NotDir
list / => names 2 b e
list /e => names 1 k

create /f => done
mkdir /d => done
rename / /g => E6 Invalid
rename / /d => E6 Invalid
rename / /g/h => E6 Invalid
rename /d / => E6 Invalid
rename /f / => E6 Invalid
rename /g / => E6 Invalid
rename /f/g / => E6 Invalid
rename / / => E6 Invalid
list / => names 2 d f

create /f => done
mkdir /d => done
mkdir /d/e => done
rename /d /d/g => E6 Invalid
rename /d /d/e => E6 Invalid
rename /d /d/e/g => E6 Invalid
rename /g /g/h => E6 Invalid
rename /g/h /g/h/i => E6 Invalid
rename /f /f/g => E6 Invalid
create /d/e/k => done
rename /d/e/k /d => E4 IsDir
rename /d/e /d => E5 NotEmpty
rename /d /de => done
rename /de/e /d => done
list / => names 3 d de f
list /d => names 1 k
list /de => names 0

create /f => done
mkdir /d => done
create /d/k => done
rename /g /h => E1 NoEnt
rename /g /d => E1 NoEnt
rename /g /f/h => E1 NoEnt
rename /f/g /h/i => E3 NotDir
rename /f/g /d => E3 NotDir
rename /f /g/h => E1 NoEnt
rename /f /g/h/i => E1 NoEnt
rename /f /d/k/h => E3 NotDir
rename /d /f/g/h => E3 NotDir
list / => names 2 d f
list /d => names 1 k

mkdir /d => done
create /d/f => done
write /d/f 0 tabc => done
mkdir /d/e => done
create /d/e/k => done
rename /d /d => done
rename /d/f /d/f => done
rename /d/e /d/e => done
rename /g /g => E1 NoEnt
rename /g/h /g/h => E1 NoEnt
rename /d/f/g /d/f/g => E3 NotDir
list / => names 1 d
list /d => names 2 e f
read /d/f 0 9 => bytes 3 x616263
list /d/e => names 1 k

create /a => done
write /a 0 tabc => done
create /b => done
write /b 0 treplaced => done
rename /a /b => done
stat /a => E1 NoEnt
read /b 0 9 => bytes 3 x616263
mkdir /d => done
mkdir /d/e => done
rename /b /d/e/f => done
stat /b => E1 NoEnt
read /d/e/f 0 9 => bytes 3 x616263
mkdir /g => done
rename /d /g/h => done
stat /d => E1 NoEnt
list /g => names 1 h
list /g/h => names 1 e
read /g/h/e/f 0 9 => bytes 3 x616263
rename /g/h/e/f /f => done
list /g/h/e => names 0
read /f 0 9 => bytes 3 x616263
rename /g/h /g/h => done
rename /g /g2 => done
list / => names 2 f g2
";

/// A tree on which calls are made, one after another. A blank row begins another tree.
#[derive(Drop)]
struct OnTree {
    tree: Tree,
}

impl Subject for OnTree {
    fn put(&mut self, alloc: Global, steps: &str, text: &mut String) -> Option<()> {
        if steps.is_empty() {
            self.tree = Tree::new(alloc);
            return Some(());
        }
        put_reply(alloc, &mut self.tree, &call_in(alloc, steps)?, text)
    }
}

/// Makes a call, and appends its reply.
fn put_reply(alloc: Global, tree: &mut Tree, op: &Op, text: &mut String) -> Option<()> {
    let reply = answer(alloc, tree, op).ok()?;
    write!(text, " {reply}").ok()
}

#[test]
fn calls_are_answered(rt: HostRuntime) {
    for rows in &[FILES, DIRECTORIES, RENAMES] {
        let tree = Tree::new(rt.alloc());
        let shown = show(rt.alloc(), &mut OnTree { tree }, rows);
        assert_eq!(rt; shown.as_str(), "right");
    }
}

/// Directories that lie one in the other, each beside two files, whose names come before its own and behind it.
fn directories(alloc: Global, depth: u32) -> Option<Tree> {
    let mut tree = Tree::new(alloc);
    for _ in 0..depth {
        let mut above = Tree::new(alloc);
        for name in &["a", "c"] {
            let file = Tree::of_bytes(Vec::new(alloc));
            above.insert(Name::parse(alloc, name).ok()?, file).ok()?;
        }
        above.insert(Name::parse(alloc, "b").ok()?, tree).ok()?;
        tree = above;
    }
    Some(tree)
}

/// Whether two trees of these depths are the same.
fn are_same(alloc: Global, depth: u32, other: u32) -> Option<bool> {
    let tree = directories(alloc, depth)?;
    is_same(alloc, &tree, &directories(alloc, other)?).ok()
}

#[test]
fn a_tree_is_printed_by_paths(rt: HostRuntime) {
    let text = directories(rt.alloc(), 2).and_then(|tree| format!(in rt.alloc(); "{tree}").ok());
    let lines = "tree 6\n/a file 0\n/b dir\n/b/a file 0\n/b/b dir\n/b/c file 0\n/c file 0";
    assert_eq!(rt; text.as_ref().map(|text| text.as_str()), Some(lines));
}

#[test]
fn deep_trees_are_compared_and_let_go_of(rt: HostRuntime) {
    assert_eq!(rt; are_same(rt.alloc(), 200_000, 200_000), Some(true));
    assert_eq!(rt; are_same(rt.alloc(), 200_000, 199_999), Some(false));
}
