//! A region of one client, and what is seen of it.
ghost use Rattle.std.specs.Prelude.{◌≡◌, true};
ghost use Rattle.assise_digest.specs.Region.{HasClient};

use assise_digest::region::Region;
use assise_inode_table::inode::Inode;
use assise_names::refusal::Refusal;
use assise_private_log::log::Log;
use assise_record::record::Record;
use assise_test_effects::effects::effect_of;
use assise_test_effects::inodes::put_inode;
use std::alloc::{AllocError, Global};

/// A region whose one client lives there, or elsewhere, and has made these effects, a record each.
pub(crate) fn region_of(alloc: Global, at_home: bool, effects: &[&str]) -> Option<Region> {
    let mut region = Region::new(alloc, 4).ok()?;
    fill(alloc, &mut region, at_home, effects)?;
    Some(region)
}

fn fill(alloc: Global, region: &mut Region, at_home: bool, effects: &[&str]) -> Option<()> {
    if at_home {
        region.add_own_client(Log::new(alloc, 8).ok()?).ok()?;
    } else {
        region.add_client(Log::new(alloc, 8).ok()?, 0).ok()?;
    }
    for effect in effects {
        append(alloc, region, effect)?;
    }
    Some(())
}

/// Whether client 1 is the only one.
fn has_one(region: &Region) -> bool
    ensures { result ≡ true → HasClient region.now 1 }
{
    region.clients() == 1
}

/// Appends a record of one effect. None where there is no memory for it.
pub(crate) fn append(alloc: Global, region: &mut Region, effect: &str) -> Option<()> {
    if !has_one(region) || region.log(1).end() == u64::MAX {
        return None;
    }
    let call = region.log(1).end();
    let effects = vec![in alloc; effect_of(alloc, effect)?].ok()?;
    region.append(1, Record::new(call, effects)).ok()
}

/// The client's records from a number on become groups.
pub(crate) fn coalesce(region: &mut Region, from: u64) -> Option<Result<(), Refusal>> {
    if !has_one(region) || from < region.digested(1) || region.log(1).end() < from {
        return None;
    }
    Some(region.coalesce(1, from))
}

/// Up to nine records are digested.
pub(crate) fn digest(region: &mut Region) -> Option<Result<usize, Refusal>> {
    if region.clients() != 1 {
        return None;
    }
    Some(region.digest_some(1, 9, 9))
}

/// The numbers of the client's log, and what inodes 0 and 10 are; and how the client reads them where it lives there.
pub(crate) fn seen(alloc: Global, region: &Region) -> Option<String> {
    let mut text = String::new(alloc);
    if has_one(region) {
        put_log(&mut text, region).ok()?;
        for inode in [0, 10] {
            put_found(alloc, &mut text, region.peek(inode))?;
            if region.is_at_home(1) {
                put_found(alloc, &mut text, region.read(1, inode))?;
            }
        }
    }
    Some(text)
}

/// Appends the first number of the client's log, that up to which it is digested, and that behind the last.
fn put_log(text: &mut String, region: &Region) -> Result<(), AllocError>
    requires { HasClient region.now 1 }
{
    let (first, end) = (region.log(1).first(), region.log(1).end());
    let digested = region.digested(1);
    write!(text, " {first}..{digested}..{end};")
}

fn put_found(alloc: Global, text: &mut String, found: Option<&Inode>) -> Option<()> {
    match found {
        Some(inode) => put_inode(alloc, text, inode),
        None => text.push_str(" none;").ok(),
    }
}
