//! Effects, and what they make of inodes.
use assise_inode_table::changes::apply_all_on_copies;
use assise_inode_table::table::InodeTable;
use assise_test_effects::effects::{effect_of, make};
use assise_test_effects::inodes::put_inodes;
use assise_test_rows::{Subject, show};
use std::alloc::Global;

/// Each effect, and all inodes behind it. A `copied` one is made on a copy of the inode.
const EFFECTS: &str = "\
new_file 7 => 0 dir 0; 7 file 0;
write 7 6 xy => 0 dir 0; 7 file 8 \0\0\0\0\0\0xy;
write 7 0 abcd => 0 dir 0; 7 file 8 abcd\0\0xy;
set_len 7 2 => 0 dir 0; 7 file 2 ab;
new_dir 8 => 0 dir 0; 7 file 2 ab; 8 dir 0;
link 0 b 7, link 0 a 8 => 0 dir 2 a:8 b:7; 7 file 2 ab; 8 dir 0;
link 0 b 8 => 0 dir 2 a:8 b:8; 7 file 2 ab; 8 dir 0;
unlink 0 b => 0 dir 1 a:8; 7 file 2 ab; 8 dir 0;
copied write 7 2 c => 0 dir 1 a:8; 7 file 3 abc; 8 dir 0;
copied link 0 f 7 => 0 dir 2 a:8 f:7; 7 file 3 abc; 8 dir 0;
copied free 8 => 0 dir 2 a:8 f:7; 7 file 3 abc;
free 7 => 0 dir 2 a:8 f:7;
";

/// A directory of more names than a piece of it has: one comes into a full piece, others go.
const LINKS: &str = "\
link 0 0 1, link 0 1 1, link 0 2 1, link 0 3 1, link 0 4 1, link 0 5 1, link 0 6 1, link 0 7 1, link 0 8 1, \
link 0 9 1, link 0 a 1, link 0 b 1, link 0 c 1, link 0 d 1, link 0 e 1, link 0 f 1, link 0 g 1, link 0 h 1, \
link 0 i 1, link 0 j 1, link 0 k 1, link 0 l 1, link 0 m 1, link 0 n 1, link 0 o 1, link 0 p 1, link 0 q 1, \
link 0 r 1, link 0 s 1, link 0 t 1, link 0 u 1, link 0 v 1 => 0 dir 32 0:1 1:1 2:1 3:1 4:1 5:1 6:1 7:1 8:1 9:1 \
a:1 b:1 c:1 d:1 e:1 f:1 g:1 h:1 i:1 j:1 k:1 l:1 m:1 n:1 o:1 p:1 q:1 r:1 s:1 t:1 u:1 v:1;
copied link 0 ab 2 => 0 dir 33 0:1 1:1 2:1 3:1 4:1 5:1 6:1 7:1 8:1 9:1 a:1 ab:2 b:1 c:1 d:1 e:1 f:1 g:1 h:1 \
i:1 j:1 k:1 l:1 m:1 n:1 o:1 p:1 q:1 r:1 s:1 t:1 u:1 v:1;
link 0 w 3 => 0 dir 34 0:1 1:1 2:1 3:1 4:1 5:1 6:1 7:1 8:1 9:1 a:1 ab:2 b:1 c:1 d:1 e:1 f:1 g:1 h:1 i:1 j:1 \
k:1 l:1 m:1 n:1 o:1 p:1 q:1 r:1 s:1 t:1 u:1 v:1 w:3;
copied link 0 ab 4 => 0 dir 34 0:1 1:1 2:1 3:1 4:1 5:1 6:1 7:1 8:1 9:1 a:1 ab:4 b:1 c:1 d:1 e:1 f:1 g:1 h:1 \
i:1 j:1 k:1 l:1 m:1 n:1 o:1 p:1 q:1 r:1 s:1 t:1 u:1 v:1 w:3;
copied unlink 0 a => 0 dir 33 0:1 1:1 2:1 3:1 4:1 5:1 6:1 7:1 8:1 9:1 ab:4 b:1 c:1 d:1 e:1 f:1 g:1 h:1 i:1 j:1 \
k:1 l:1 m:1 n:1 o:1 p:1 q:1 r:1 s:1 t:1 u:1 v:1 w:3;
unlink 0 0, unlink 0 1, unlink 0 2, unlink 0 3, unlink 0 4, unlink 0 5, unlink 0 6, unlink 0 7, unlink 0 8, \
unlink 0 9 => 0 dir 23 ab:4 b:1 c:1 d:1 e:1 f:1 g:1 h:1 i:1 j:1 k:1 l:1 m:1 n:1 o:1 p:1 q:1 r:1 s:1 t:1 u:1 \
v:1 w:3;
link 0 5 5, link 0 a 6 => 0 dir 25 5:5 a:6 ab:4 b:1 c:1 d:1 e:1 f:1 g:1 h:1 i:1 j:1 k:1 l:1 m:1 n:1 o:1 p:1 \
q:1 r:1 s:1 t:1 u:1 v:1 w:3;
";

/// A table on which effects are made, one after another.
#[derive(Drop)]
struct Effects {
    table: InodeTable,
}

impl Subject for Effects {
    fn put(&mut self, alloc: Global, steps: &str, text: &mut String) -> Option<()> {
        match steps.strip_prefix("copied ") {
            Some(effect) => make_on_a_copy(alloc, &mut self.table, effect)?,
            None => make(alloc, &mut self.table, steps)?,
        }
        put_inodes(alloc, text, &self.table)
    }
}

/// Makes an effect on a copy of the inode that it touches.
fn make_on_a_copy(alloc: Global, table: &mut InodeTable, text: &str) -> Option<()> {
    let effect = effect_of(alloc, text)?;
    apply_all_on_copies(table, &[effect]).ok()
}

/// What comes out of effects on the root alone.
fn shown(alloc: Global, rows: &str) -> Option<String> {
    let table = InodeTable::opening(alloc).ok()?;
    Some(show(alloc, &mut Effects { table }, rows))
}

#[test]
fn effects_change_inodes(rt: HostRuntime) {
    assert_eq!(rt; shown(rt.alloc(), EFFECTS).as_deref(), Some("right"));
}

#[test]
fn a_directory_gets_more_names_than_a_piece(rt: HostRuntime) {
    assert_eq!(rt; shown(rt.alloc(), LINKS).as_deref(), Some("right"));
}
