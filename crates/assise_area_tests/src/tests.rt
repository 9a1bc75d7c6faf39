//! What a use makes hot, and what becomes cold for it.
use assise_area::area::{Area, MOST_HOT};
use assise_inode_table::inode::Inode;
use assise_inode_table::table::InodeTable;
use assise_record::effect::Effect;
use assise_test_rows::{Subject, show};
use std::alloc::{AllocError, Global};

/// Steps, and the inodes behind each, where those that are cold stand in parentheses. As many may be hot as was said last.
const STEPS: &str = "\
hot 1 =>
put 1 => (1)
make 2 => (1) (2)
touch 1 => 1 (2)
touch 2 => (1) 2
touch 3 => (1) 2
put 2 => (1) 2
make 3 => (1) 2 (3)
hot 2 => (1) 2 (3)
get 1 => 1 2 (3)
get 2 => 1 2 (3)
get 1 => 1 2 (3)
get 3 => 1 (2) 3
free 1 => (2) 3
make 1 => (1) (2) 3
touch 2 => (1) 2 3
take 3 => (1) 2
opening 0 => (0) (1) 2
touch 0 => 0 (1) 2
hot 1 => 0 (1) (2)
hot 3 => 0 (1) (2)
touch 2 => 0 (1) 2
";

/// An area on which steps are made, one after another.
#[derive(Drop)]
struct Steps {
    area: Area,
}

impl Subject for Steps {
    fn put(&mut self, alloc: Global, steps: &str, text: &mut String) -> Option<()> {
        let (word, number) = steps.split_once(' ')?;
        make(alloc, &mut self.area, word, number.parse::<u64>().ok()?)?;
        put_inodes(&self.area, text).ok()
    }
}

/// Makes a step on an inode, or with a number.
fn make(alloc: Global, area: &mut Area, word: &str, number: u64) -> Option<()> {
    match word {
        "hot" => set_capacity(area, number as usize)?,
        "put" => drop(area.put(number, Inode::new_directory(alloc)).ok()?),
        "opening" => area.put_all(&mut InodeTable::opening(alloc).ok()?).ok()?,
        "make" => area.apply(&Effect::NewFile { inode: number }).ok()?,
        "free" => area.apply(&Effect::Free { inode: number }).ok()?,
        "get" => drop(area.get(number)?),
        "take" => drop(area.remove(number)?),
        _ => area.touch(number),
    }
    Some(())
}

fn set_capacity(area: &mut Area, capacity: usize) -> Option<()> {
    if capacity == 0 || capacity > MOST_HOT {
        return None;
    }
    area.set_hot_capacity(capacity).ok()
}

/// Appends each inode with a number up to 9.
fn put_inodes(area: &Area, text: &mut String) -> Result<(), AllocError> {
    for number in 0..10 {
        if area.is_hot(number) {
            write!(text, " {number}")?;
        } else if area.peek(number).is_some() {
            write!(text, " ({number})")?;
        }
    }
    Ok(())
}

/// What comes out of steps on a new area.
fn shown(alloc: Global, rows: &str) -> Option<String> {
    let area = Area::new(alloc, MOST_HOT).ok()?;
    Some(show(alloc, &mut Steps { area }, rows))
}

#[test]
fn the_longest_unused_inode_is_cold(rt: HostRuntime) {
    assert_eq!(rt; shown(rt.alloc(), STEPS).as_deref(), Some("right"));
}
