//! The file system as a library for C: one export serves the request of a desk in the caller's memory, and one writes an empty desk
//! there. The header is `include/assise.h`.
#![tactic(auto)]

ghost use Rattle.std.specs.Prelude.{◌≡◌, None};
ghost use types.Logic.{sem};
ghost use Rattle.std.specs.Ptr.{points_to, uninit_at};
ghost use Rattle.assise_desk.specs.DeskAnswers.{IsServedAt, cluster_at};
ghost use Rattle.assise_desk.specs.contracts.caller_desk.CallerDesk.{the_row as desk_row};

use assise_desk::caller_desk::{CallerDesk, serve_desk};
use std::alloc::Global;

/// The desk when its request is served.
fn served(alloc: Global, desk: CallerDesk) -> CallerDesk
    ensures { IsServedAt desk result }
{
    let mut desk = desk;
    serve_desk(alloc, &mut desk);
    desk
}

/// Serves the request of the desk at a place, and leaves the desk there with its answer.
#[unsafe(no_mangle)]
pub unsafe extern "C" fn assise_serve(alloc: Global, at: *mut u8)
    ghost desk: { CallerDesk }
    requires* { sem 𝓛 (points_to desk_row at desk) }
    ensures* { ∃ₛ (λ (left : CallerDesk).
        sem 𝓛 (points_to desk_row at left) ∗ ⌜ IsServedAt desk left ⌝) }
{
    let place = at as *mut CallerDesk;
    let desk = served(alloc, unsafe { std::ptr::read(place) });
    unsafe { std::ptr::write(place, desk) };
}

/// A desk without a cluster.
fn empty() -> CallerDesk
    ensures { cluster_at result ≡ None }
{
    CallerDesk::empty()
}

/// Writes a desk without a cluster to a place where nothing is known to stand.
#[unsafe(no_mangle)]
pub unsafe extern "C" fn assise_begin(at: *mut u8)
    requires* { sem 𝓛 (uninit_at desk_row at) }
    ensures* { ∃ₛ (λ (left : CallerDesk).
        sem 𝓛 (points_to desk_row at left) ∗ ⌜ cluster_at left ≡ None ⌝) }
{
    let place = at as *mut CallerDesk;
    let desk = empty();
    unsafe { std::ptr::write(place, desk) };
}
