//! Texts of a cluster, and their pages.
ghost use Rattle.std.specs.Prelude.{◌≡◌, ◌-◌, ◌≤◌, IfOk, IfErr, drop, length, min, string_bytes, take};
ghost use Rattle.assise_desk.specs.Texts.{IsTextOf, MayNotPrint, text_kept};

use crate::desk_call::DeskText;
use crate::desk_fault::DeskFault;
use crate::desk_request::DESK_BYTES;
use crate::page::place_at;
use assise_files::files::Files;
use std::alloc::Global;

/// Prints a text of a cluster, of a node where it is a tree. The fault is that there is no memory for it, or why the node has no tree.
pub(crate) fn print(
    alloc: Global,
    files: &Files,
    text: DeskText,
    node: u32,
) -> Result<Box<String>, DeskFault>
    ensures printed { IfOk result (λ owner.
        IsTextOf text node files.now (string_bytes owner.value)) }
    ensures fault { IfErr result (MayNotPrint text node files.now) }
{
    let printed = match text {
        DeskText::History => {
            let history = files.history();
            format!(in alloc; "{history}")?
        }
        DeskText::Tree => {
            let tree = files.tree(alloc, node)?;
            format!(in alloc; "{tree}")?
        }
    };
    Ok(Box::new(alloc, printed)?)
}

/// Puts a page of a text at the front of a desk's bytes: from place `first` on, as much as there is room for. It answers how many bytes.
pub(crate) fn place_text(
    text: &Option<Box<String>>,
    first: u64,
    out: &mut [u8; DESK_BYTES],
) -> usize
    ensures count { result ≡ min DESK_BYTES (length (text_kept text.now) - first) }
    ensures shown { take result out.new ≡ take DESK_BYTES (drop first (text_kept text.now)) }
{
    match text {
        Some(text) => place_front(text.as_bytes(), first, out),
        None => 0,
    }
}

/// Puts what stands in these bytes from a place on at the front of a desk's, as much as there is room for, and answers how much.
fn place_front(bytes: &[u8], first: u64, out: &mut [u8; DESK_BYTES]) -> usize
    ensures count { result ≡ min DESK_BYTES (length bytes.now - first) }
    ensures shown { take result out.new ≡ take DESK_BYTES (drop first bytes.now) }
{
    let Some(left) = bytes.get(first as usize..) else {
        return 0;
    };
    let count = left.len().min(DESK_BYTES);
    let (page, _) = left.split_at(count);
    let _ = place_at(page, out, 0);
    count
}
