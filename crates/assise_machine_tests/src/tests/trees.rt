//! Trees, as text.
use assise_names::call::Op;
use assise_names::path::Path;
use assise_seq_tree::answer::answer;
use assise_seq_tree::tree::Tree;
use std::alloc::Global;

/// The files that tests write.
const FILES: &str = "/a\n/b\n/c\n/d\n/d/a\n/d/b\n/d/e\n/d/e/a\n/f\n/g\n/h";

/// Writes the lines of a tree, and what reads of its files answer, in place of a text. None where memory runs out.
pub(crate) fn put_tree(alloc: Global, tree: &mut Tree, text: &mut String) -> Option<()> {
    text.clear();
    write!(text, "{tree}").ok()?;
    for path in FILES.lines() {
        put_bytes(alloc, tree, path, text)?;
    }
    Some(())
}

/// Appends what a read of a file answers.
fn put_bytes(alloc: Global, tree: &mut Tree, path: &str, text: &mut String) -> Option<()> {
    let path = Path::parse(alloc, path).ok()?;
    let bytes = answer(alloc, tree, &Op::Read(path, 0, 1_048_576)).ok()?;
    write!(text, " {bytes}").ok()
}
