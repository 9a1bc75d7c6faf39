//! A place in a caller's memory at which requests are served.
ghost use Rattle.std.specs.Prelude.{◌≡◌, IfErr, IfOk, None, Ok};
ghost use Rattle.std.specs.Option.{option_map};
ghost use Rattle.assise_link.specs.TestLinks.{kind_of_link};
ghost use Rattle.assise_files.specs.FilesSeen.{cluster_seen, links_seen, most_tries};
ghost use Rattle.assise_rounds.specs.Traces.{Told};
ghost use Rattle.assise_desk.specs.NamedKinds.{durability_named, kind_named, link_named};
ghost use Rattle.assise_desk.specs.DeskAnswers.{CallsAt, DoesAt, AnswersRequest, IsClusterMade, IsServedAt, IsServedTo, LeavesBytes, LeavesLinks, MakesCluster, MayNotMake, ServesHot, ServesLink, ServesOpen, ShowsLosses, TellsRedo, cluster_at, number_told, done_told, owned, redo_fault, replied_at, result_shown, RenewsAt};
ghost use Rattle.assise_desk.specs.Texts.{KeepsText, text_kept};

use crate::desk_call::{ClientCall, ClusterCall, DeskCall, DeskText};
use crate::desk_fault::DeskFault;
use crate::desk_request::{DESK_BYTES, DeskRequest};
use crate::listings::show_listed;
use crate::page::{place_loss, place_losses};
use crate::queries::tell;
use crate::reply_shown::show_reply;
use crate::texts::{place_text, print};
use assise_files::cut_kind::CutKind;
use assise_files::files::Files;
use assise_link::test_link::TestLink;
use assise_names::durability::Durability;
use assise_names::limits::MOST_NODES;
use assise_names::refusal::Refusal;
use assise_names::reply::Reply;
use assise_renewal::renewal::Sizes;
use std::alloc::Global;

/// How often a call is tried at most.
pub const MOST_TRIES: u32 = 100_000;

/// A request, its answer, and the cluster that serves it. It lies in its caller's memory, who writes all but the cluster.
#[repr(C)]
#[derive(Drop)]
pub struct CallerDesk {
    /// What is asked for.
    pub request: DeskRequest,
    /// What it is answered with: a number from 0 on, or the code of a fault, which is below 0.
    pub result: i64,
    /// Of a stat, what stands at the path: 1 is a file, 2 a directory. Of a listing, how many entries the directory has.
    pub stands: u64,
    /// A path, and then another path or what is written. Then what is read, a page of names or of a text, or who lost calls.
    pub bytes: [u8; DESK_BYTES],
    files: Option<Box<Files>>,
    text: Option<Box<String>>,
}

impl CallerDesk {
    /// A desk without a cluster.
    pub fn empty() -> CallerDesk
        ensures { cluster_at result ≡ None }
    {
        CallerDesk {
            request: DeskRequest {
                call: 0,
                client: 0,
                node: 0,
                path_bytes: 0,
                other_bytes: 0,
                kind: 0,
                first: 0,
                second: 0,
            },
            result: 0,
            stands: 0,
            bytes: [0; DESK_BYTES],
            files: None,
            text: None,
        }
    }
}

/// Serves the request of a desk. What is refused leaves its cluster as it was, but for what a call's tries did.
pub fn serve_desk(alloc: Global, desk: &mut CallerDesk)
    ensures { IsServedAt desk.old desk.new }
{
    desk.result = result_shown(answer_request(alloc, desk));
}

/// The number that a desk shows.
fn result_shown(answer: Result<u64, DeskFault>) -> i64
    ensures { result ≡ result_shown answer }
{
    match answer {
        Ok(number) => number.min(i64::MAX as u64) as i64,
        Err(fault) => fault.code(),
    }
}

/// The answer of the request of a desk.
fn answer_request(alloc: Global, desk: &mut CallerDesk) -> Result<u64, DeskFault>
    ensures answered { AnswersRequest desk.old result desk.new }
    ensures request { desk.new.request ≡ desk.old.request }
{
    let request = desk.request;
    match DeskCall::of_number(request.call) {
        None => Err(DeskFault::BadRequest),
        Some(DeskCall::Make) => make(alloc, &request, &mut desk.files),
        Some(DeskCall::Free) => free(&mut desk.files, &mut desk.text),
        Some(DeskCall::Cluster(call)) => match &mut desk.files {
            None => Err(DeskFault::NoCluster),
            Some(files) => manage(alloc, files, call, &request, &mut desk.bytes),
        },
        Some(DeskCall::Query(query)) => match &desk.files {
            None => Err(DeskFault::NoCluster),
            Some(files) => tell(alloc, files, query, &request),
        },
        Some(DeskCall::Client(call)) => match &mut desk.files {
            None => Err(DeskFault::NoCluster),
            Some(files) => {
                serve_client(
                    alloc,
                    files,
                    call,
                    &request,
                    &mut desk.bytes,
                    &mut desk.stands,
                )
            }
        },
        Some(DeskCall::Renew) => match &mut desk.files {
            None => Err(DeskFault::NoCluster),
            Some(files) => renew_cluster(alloc, files, &request),
        },
        Some(DeskCall::Listed) => match &desk.files {
            None => Err(DeskFault::NoCluster),
            Some(files) => {
                show_listed(files.history(), &request, &mut desk.bytes, &mut desk.stands)
            }
        },
        Some(DeskCall::Print(text)) => keep(alloc, &desk.files, text, &request, &mut desk.text),
        Some(DeskCall::Page) => Ok(place_text(&desk.text, request.first, &mut desk.bytes) as u64),
    }
}

/// The cluster that a request asks for comes in place of a desk's own.
fn make(
    alloc: Global,
    request: &DeskRequest,
    files: &mut Option<Box<Files>>,
) -> Result<u64, DeskFault>
    ensures { MakesCluster request.now (owned files.old) result (owned files.new) }
{
    *files = Some(make_cluster(alloc, request)?);
    Ok(0)
}

/// Lets a desk's cluster go, and its text.
fn free(files: &mut Option<Box<Files>>, text: &mut Option<Box<String>>) -> Result<u64, DeskFault>
    ensures files { files.new ≡ None }
    ensures text { text.new ≡ None }
    ensures ok { result ≡ Ok 0 }
{
    *files = None;
    *text = None;
    Ok(0)
}

/// Keeps a text of a desk's cluster in place of the text that it had, and answers how many bytes it has.
fn keep(
    alloc: Global,
    files: &Option<Box<Files>>,
    text: DeskText,
    request: &DeskRequest,
    kept: &mut Option<Box<String>>,
) -> Result<u64, DeskFault>
    ensures { KeepsText text request.now.node (owned files.now) (text_kept kept.old) result
        (text_kept kept.new) }
{
    let Some(files) = files else {
        return Err(DeskFault::NoCluster);
    };
    let printed = print(alloc, files, text, request.node)?;
    let length = printed.len() as u64;
    *kept = Some(printed);
    Ok(length)
}

/// The cluster that a request asks for.
fn make_cluster(alloc: Global, request: &DeskRequest) -> Result<Box<Files>, DeskFault>
    ensures made { IfOk result (λ owner. IsClusterMade request.now owner.value) }
    ensures fault { IfErr result (MayNotMake request.now) }
{
    let (nodes, log, hot) = (request.node, request.first, request.second);
    if nodes == 0 || nodes > MOST_NODES || log < 8 || log > 4096 || hot < 1 || hot > 4096 {
        return Err(DeskFault::BadRequest);
    }
    let files = Files::new(alloc, nodes, log as usize, hot as usize, MOST_TRIES)?;
    Ok(Box::new(alloc, files)?)
}

/// A new cluster with the same tree comes in place of this one, as a request asks for it.
fn renew_cluster(alloc: Global, files: &mut Files, request: &DeskRequest) -> Result<u64, DeskFault>
    ensures renews { RenewsAt request.now result files.old files.new }
    ensures turns { most_tries files.new ≡ most_tries files.old }
    ensures links { links_seen files.new ≡ links_seen files.old }
{
    let (nodes, log, hot) = (request.node, request.first, request.second);
    if nodes == 0 || nodes > MOST_NODES || log < 8 || log > 4096 || hot < 1 || hot > 4096 {
        return Err(DeskFault::BadRequest);
    }
    let Some(kind) = kind_named(request.kind) else {
        return Err(DeskFault::BadRequest);
    };
    let sizes = Sizes {
        nodes,
        log: log as usize,
        hot: hot as usize,
    };
    files.renew(alloc, sizes, kind)?;
    Ok(0)
}

/// What a cluster does that no client calls.
fn manage(
    alloc: Global,
    files: &mut Files,
    call: ClusterCall,
    request: &DeskRequest,
    out: &mut [u8; DESK_BYTES],
) -> Result<u64, DeskFault>
    ensures does { (es : Told) × DoesAt call request.now result out.old out.new
        files.old es files.new }
    ensures bytes { LeavesBytes call out.old out.new }
    ensures links { LeavesLinks call files.old files.new }
    ensures turns { most_tries files.new ≡ most_tries files.old }
{
    match call {
        ClusterCall::Open => open_client(alloc, files, request),
        ClusterCall::Crash => done_told(files.crash(request.client)),
        ClusterCall::Fail => show_losses(files.fail(alloc, request.node), out),
        ClusterCall::Back => done_told(files.back(alloc, request.node)),
        ClusterCall::Round => Ok(u64::from(files.round(alloc))),
        ClusterCall::SetHot => set_hot(files, request),
        ClusterCall::Raise => done_told(files.raise(request.node)),
        ClusterCall::SetLink => set_link(files, request),
        ClusterCall::Redo => redo(alloc, files, request, out),
    }
}

/// A client is opened as a request asks for it.
fn open_client(alloc: Global, files: &mut Files, request: &DeskRequest) -> Result<u64, DeskFault>
    ensures opens { (es : Told) × ServesOpen request.now result files.old es files.new }
    ensures turns { most_tries files.new ≡ most_tries files.old }
    ensures links { links_seen files.new ≡ links_seen files.old }
{
    let Some(kind) = kind_named(request.kind) else {
        return Err(DeskFault::BadRequest);
    };
    let Some(durability) = durability_named(request.second) else {
        return Err(DeskFault::BadRequest);
    };
    number_told(files.open(alloc, request.node, kind, durability))
}

/// Changes that a failure took are made again. The desk's bytes tell the first that isn't, as a lost call.
fn redo(
    alloc: Global,
    files: &mut Files,
    request: &DeskRequest,
    out: &mut [u8; DESK_BYTES],
) -> Result<u64, DeskFault>
    ensures tells { (es : Told) × TellsRedo request.now result out.old out.new
        files.old es files.new }
    ensures turns { most_tries files.new ≡ most_tries files.old }
    ensures links { links_seen files.new ≡ links_seen files.old }
{
    match files.redo(alloc, request.kind, request.first, request.client) {
        Ok(()) => Ok(0),
        Err(unmade) => {
            let _ = place_loss(request.kind, unmade.call, out, 0);
            Err(redo_fault(&unmade.came))
        }
    }
}

/// Why a change isn't made again.
fn redo_fault(came: &Result<Reply, Refusal>) -> DeskFault
    ensures { result ≡ redo_fault came.now }
{
    match came {
        Ok(Reply::Error(error)) => DeskFault::Tree(*error),
        Ok(_) => DeskFault::BadRequest,
        Err(refusal) => DeskFault::Refused(*refusal),
    }
}

/// How many inodes a node keeps hot is set as a request asks for it.
fn set_hot(files: &mut Files, request: &DeskRequest) -> Result<u64, DeskFault>
    ensures sets { (es : Told) × ServesHot request.now result
        (cluster_seen files.old) es (cluster_seen files.new) }
    ensures turns { most_tries files.new ≡ most_tries files.old }
    ensures links { links_seen files.new ≡ links_seen files.old }
{
    if request.first < 1 || request.first > 4096 {
        return Err(DeskFault::BadRequest);
    }
    done_told(files.set_hot(request.node, request.first as usize))
}

/// The number of a client, or why there is none.
fn number_told(client: Result<u32, Refusal>) -> Result<u64, DeskFault>
    ensures { result ≡ number_told client }
{
    Ok(u64::from(client?))
}

/// Zero for what is done, or why it isn't.
fn done_told(what: Result<(), Refusal>) -> Result<u64, DeskFault>
    ensures { result ≡ done_told what }
{
    what?;
    Ok(0)
}

/// Who lost calls, in a desk's bytes, and how many bytes these are.
fn show_losses(
    losses: Result<Vec<(u32, u64)>, Refusal>,
    out: &mut [u8; DESK_BYTES],
) -> Result<u64, DeskFault>
    ensures { ShowsLosses losses result out.old out.new }
{
    let losses = losses?;
    let count = place_losses(losses.as_slice(), out)?;
    Ok(count as u64)
}

/// What a node sends goes over a link that a request asks for.
fn set_link(files: &mut Files, request: &DeskRequest) -> Result<u64, DeskFault>
    ensures serves { ServesLink request.now result files.old files.new }
    ensures cluster { cluster_seen files.new ≡ cluster_seen files.old }
    ensures turns { most_tries files.new ≡ most_tries files.old }
{
    let Some(link) = link_named(request.kind, request.first) else {
        return Err(DeskFault::BadRequest);
    };
    done_told(files.set_link(request.node, link))
}

/// A new link of the kind that a number names, if it names one.
fn link_named(number: u32, most: u64) -> Option<TestLink>
    ensures { option_map kind_of_link result ≡ link_named number most }
{
    match number {
        0 => Some(TestLink::perfect()),
        1 => Some(TestLink::lose()),
        2 => Some(TestLink::repeat()),
        3 => Some(TestLink::delay()),
        4 => Some(TestLink::cut(most as usize)),
        5 => Some(TestLink::fault()),
        _ => None,
    }
}

/// The kind of revoker that a number names, if it names one.
fn kind_named(number: u32) -> Option<CutKind>
    ensures { result ≡ kind_named number }
{
    match number {
        0 => Some(CutKind::Least),
        1 => Some(CutKind::Whole),
        2 => Some(CutKind::Eights),
        _ => None,
    }
}

/// The durability of fsyncs that a number names, if it names one.
fn durability_named(number: u64) -> Option<Durability>
    ensures { result ≡ durability_named number }
{
    match number {
        0 => Some(Durability::Pessimistic),
        1 => Some(Durability::Optimistic),
        _ => None,
    }
}

/// A call of a client, with its path and the bytes behind it in a desk's.
fn make_call(
    alloc: Global,
    files: &mut Files,
    call: ClientCall,
    request: &DeskRequest,
    bytes: &[u8; DESK_BYTES],
) -> Result<Reply, DeskFault>
    ensures calls { (es : Told) × CallsAt (links_seen files.old) (most_tries files.old) call
        request.now bytes.now result
        (cluster_seen files.old) es (cluster_seen files.new) }
    ensures turns { most_tries files.new ≡ most_tries files.old }
    ensures links { links_seen files.new ≡ links_seen files.old }
{
    let op = request.op_at(alloc, call, bytes)?;
    replied_at(files.call(alloc, request.client, &op))
}

/// The reply of a call, or why there is none.
fn replied_at(reply: Result<Reply, Refusal>) -> Result<Reply, DeskFault>
    ensures { result ≡ replied_at reply }
{
    Ok(reply?)
}

/// A call of a client is served, and its reply shown.
fn serve_client(
    alloc: Global,
    files: &mut Files,
    call: ClientCall,
    request: &DeskRequest,
    bytes: &mut [u8; DESK_BYTES],
    stands: &mut u64,
) -> Result<u64, DeskFault>
    ensures served { IsServedTo call request.now bytes.old bytes.new stands.old stands.new
        files.old result files.new }
    ensures turns { most_tries files.new ≡ most_tries files.old }
{
    let reply = make_call(alloc, files, call, request, bytes)?;
    show_reply(&reply, request.first, bytes, stands)
}
