//! What all threads do, and what they saw.
ghost use Rattle.std.specs.Prelude.{◌≡◌};
ghost use Rattle.assise_keeper.specs.Clients.{MayOpenClients};
ghost use Rattle.assise_keeper.specs.Passes.{IsPassOf, opens};

use crate::crew::{Crew, Readers, Writers};
use crate::mailer::{Mailer, SURVIVOR};
use crate::members::{FAILING, Failing, Operator};
use crate::readers::{find_all, read_all};
use crate::report::Report;
use crate::tally::Tally;
use crate::writers::deliver_all;
use assise_keeper::keeper::Keeper;
use assise_keeper::pass::Pass;
use assise_lease_table::revoker::{CutFn, Revoker};
use assise_libfs::served::Served;
use assise_machine::cluster::Cluster;
use assise_mail::fault::MailFault;
use assise_names::refusal::Refusal;
use assise_revokers::kinds::whole;
use assise_workers::nodes::{NodeWorkers, tend};
use assise_workers::replicated::Replicated;
use std::alloc::{AllocError, Global};
use std::sync::Wait;
use std::thread::{Threads, join};

/// How many revokers are made: two for each thread with a client, of those that deliver, that read and that search at the end.
const REVOKERS: usize = 14;

/// What a client's revoker answers.
/// Leaves with what a thread came to.
fn left<T: Drop>(tally: &Tally, ended: T) -> T {
    tally.leave();
    ended
}

/// All writers deliver.
fn write_all<S: Served + Send, R: Threads + Wait + Sync>(
    rt: &R,
    alloc: Global,
    writers: &mut Writers<'_, S>,
    tally: &Tally,
) -> Result<(u32, u32, u32), MailFault>
where
    S::Stored: Drop + Send,
{
    let Writers {
        first,
        second,
        third,
    } = writers;
    let (first, (second, third)) = join(
        rt,
        || left(tally, deliver_all(rt, alloc, first, 1, tally)),
        || {
            join(
                rt,
                || left(tally, deliver_all(rt, alloc, second, 2, tally)),
                || left(tally, deliver_all(rt, alloc, third, 3, tally)),
            )
        },
    );
    Ok((first?, second?, third?))
}

/// Both readers read.
fn read_both<S: Served + Send, R: Threads + Wait + Sync>(
    rt: &R,
    alloc: Global,
    readers: &mut Readers<'_, S>,
    tally: &Tally,
) -> Result<(u32, u32), MailFault>
where
    S::Stored: Drop + Send,
{
    let Readers { first, second } = readers;
    let (first, second) = join(
        rt,
        || left(tally, read_all(rt, alloc, first)),
        || left(tally, read_all(rt, alloc, second)),
    );
    Ok((first?, second?))
}

/// The node fails and comes back, while another thread does what the nodes do.
fn fail_tended<S: Replicated + Failing + Send, R: Threads + Wait + Sync>(
    rt: &R,
    alloc: Global,
    operator: &mut Operator<'_, S>,
    nodes: &mut [NodeWorkers<'_, S>],
    tally: &Tally,
) -> Result<(), Refusal> {
    let (failed, ()) = join(
        rt,
        || operator.fail_and_return(rt, alloc, tally),
        || tend(rt, alloc, nodes, tally),
    );
    failed
}

/// All threads do what they have to.
fn run_threads<S: Served + Replicated + Failing + Send, R: Threads + Wait + Sync>(
    rt: &R,
    alloc: Global,
    crew: &mut Crew<'_, S>,
    tally: &Tally,
) -> Result<Report, MailFault>
where
    S::Stored: Drop + Send,
{
    let Crew {
        writers,
        readers,
        operator,
        nodes,
    } = crew;
    let nodes = nodes.as_mut_slice();
    let (writers, (readers, failed)) = join(
        rt,
        || write_all(rt, alloc, writers, tally),
        || {
            join(
                rt,
                || read_both(rt, alloc, readers, tally),
                || fail_tended(rt, alloc, operator, nodes, tally),
            )
        },
    );
    failed?;
    Ok(Report {
        writers: writers?,
        readers: readers?,
    })
}

/// Finds all messages, while another thread does what the nodes do.
fn find_tended<S: Served + Replicated + Send, R: Threads + Wait + Sync>(
    rt: &R,
    alloc: Global,
    searcher: &mut Mailer<'_, S>,
    nodes: &mut [NodeWorkers<'_, S>],
    tally: &Tally,
) -> Result<(), MailFault>
where
    S::Stored: Drop + Send,
{
    tally.enter();
    let (found, ()) = join(
        rt,
        || left(tally, find_all(rt, alloc, &mut searcher.files)),
        || tend(rt, alloc, nodes, tally),
    );
    found
}

/// Finds all messages at a node.
fn find_at<S: Served + Replicated + Send, R: Threads + Wait + Sync>(
    rt: &R,
    alloc: Global,
    keeper: &Keeper<S>,
    main: &mut Pass<S>,
    revokers: &mut Vec<S::Stored>,
    node: u32,
    nodes: &mut [NodeWorkers<'_, S>],
    tally: &Tally,
) -> Result<(), MailFault>
where
    S::Stored: Drop + Send,
    requires { IsPassOf keeper.now main.old × MayOpenClients (opens main.old) }
    ensures { IsPassOf keeper.now main.new × MayOpenClients (opens main.new) }
{
    let mut searcher = Mailer::new(rt, alloc, keeper, main, revokers, node)?;
    find_tended(rt, alloc, &mut searcher, nodes, tally)
}

/// Makes the directories, lets all threads run, and finds the messages at each node.
fn run_crew<S: Served + Replicated + Failing + Send, R: Threads + Wait + Sync>(
    rt: &R,
    alloc: Global,
    keeper: &Keeper<S>,
    main: &mut Pass<S>,
    revokers: &mut Vec<S::Stored>,
    crew: &mut Crew<'_, S>,
) -> Result<Report, MailFault>
where
    S::Stored: Drop + Send,
    requires { IsPassOf keeper.now main.old × MayOpenClients (opens main.old) }
{
    let tally = Tally::new();
    crew.make_directories(rt, alloc)?;
    let report = run_threads(rt, alloc, crew, &tally)?;
    let nodes = crew.nodes.as_mut_slice();
    find_at(rt, alloc, keeper, main, revokers, SURVIVOR, nodes, &tally)?;
    find_at(rt, alloc, keeper, main, revokers, FAILING, nodes, &tally)?;
    Ok(report)
}

/// Lets all threads run, each with what it needs.
fn with_main<S: Served + Replicated + Failing + Send, R: Threads + Wait + Sync>(
    rt: &R,
    alloc: Global,
    keeper: &Keeper<S>,
    main: &mut Pass<S>,
    revokers: &mut Vec<S::Stored>,
) -> Result<Report, MailFault>
where
    S::Stored: Drop + Send,
    requires { IsPassOf keeper.now main.old × MayOpenClients (opens main.old) }
{
    let mut crew = Crew::new(rt, alloc, keeper, main, revokers)?;
    run_crew(rt, alloc, keeper, main, revokers, &mut crew)
}

/// Runs all threads on a state.
fn run_on<S: Served + Replicated + Failing + Drop + Send, R: Threads + Wait + Sync>(
    rt: &R,
    alloc: Global,
    state: S,
    revokers: &mut Vec<S::Stored>,
) -> Result<Report, MailFault>
where
    S::Stored: Drop + Send,
{
    let Ok((keeper, mut main)) = Keeper::new(alloc, state) else {
        return Err(MailFault::Refused(Refusal::OutOfMemory));
    };
    let report = with_main(rt, alloc, &keeper, &mut main, revokers);
    keeper.close();
    report
}

/// Makes a cluster of two nodes, whose clients' logs have 64 records at most, and runs all threads on it. All of a client's log is safe
/// before a lease of it goes to another.
pub fn run_office<R: Threads + Wait + Sync>(rt: &R, alloc: Global) -> Result<Report, MailFault> {
    let mut revokers = Vec::with_capacity(alloc, REVOKERS)?;
    for _ in 0..REVOKERS {
        let cut: CutFn = Box::new(alloc, whole).map_err(AllocError::from)?;
        revokers.push(Revoker::new(cut))?;
    }
    let cluster = Cluster::new(alloc, SURVIVOR, 64, 16)?;
    run_on(rt, alloc, cluster, &mut revokers)
}
