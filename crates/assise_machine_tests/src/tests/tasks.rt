//! What tests make on a cluster. One function alone owns it.
use crate::tests::desk::Desk;
use crate::tests::failing_anywhere::see_failures;
use crate::tests::hot::see_hot;
use crate::tests::lists::{Lists, see_lists};
use crate::tests::refused::see_made_again;
use assise_names::refusal::Refusal;
use std::alloc::Global;
use std::process::Abort;

/// What is made.
#[derive(Clone, Copy)]
pub(crate) enum Task<'a> {
    /// Steps, and what is hot behind them.
    Hot,
    /// Steps, each once more where it is refused as out of memory.
    Again,
    /// Scripts in which a node fails before each step, and comes back a number of steps further.
    Failures(usize, &'a [&'a str]),
    /// Lists of steps by chance.
    Chance(Lists),
}

/// Makes what is to be made on a new desk. Refused as out of memory.
pub(crate) fn on_desk(alloc: Global, rt: &impl Abort, task: Task<'_>) -> Result<(), Refusal> {
    let mut desk = Desk::new(alloc)?;
    make(alloc, rt, &mut desk, task);
    Ok(())
}

fn make(alloc: Global, rt: &impl Abort, desk: &mut Desk, task: Task<'_>) {
    match task {
        Task::Hot => see_hot(alloc, rt, desk),
        Task::Again => see_made_again(alloc, rt, desk),
        Task::Failures(away, scripts) => see_failures(alloc, rt, desk, away, scripts),
        Task::Chance(lists) => see_lists(alloc, rt, desk, lists),
    }
}
