//! What a request's number asks for.
ghost use Rattle.std.specs.Prelude.{◌≡◌, ◌≢◌, MatchOption};
ghost use Rattle.assise_desk.specs.CallNumbers.{desk_call_number};
ghost use Rattle.assise_desk.specs.declared.desk_call.DeskCall.{DeskCall as AnyCall};

/// What a desk serves.
#[derive(Clone, Copy, PartialEq, Eq, Debug)]
pub enum DeskCall {
    /// A cluster is made, in place of the desk's own if it has one (1).
    Make,
    /// The desk's cluster goes (2).
    Free,
    /// A new cluster with the same tree comes in place of the desk's (36).
    Renew,
    /// What the desk's cluster does.
    Cluster(ClusterCall),
    /// What is asked of the desk's cluster.
    Query(ClusterQuery),
    /// What a client of the desk's cluster calls.
    Client(ClientCall),
    /// A text of the desk's cluster is printed, and kept in place of the desk's own if it has one.
    Print(DeskText),
    /// A page of the desk's text is shown (30).
    Page,
    /// A page of what a call of the history listed is shown (31).
    Listed,
}

/// What is printed of a cluster.
#[derive(Clone, Copy, PartialEq, Eq, Debug)]
pub enum DeskText {
    /// What was answered and what happened (28).
    History,
    /// The tree that a node gives (29).
    Tree,
}

/// What a cluster does that no client calls.
#[derive(Clone, Copy, PartialEq, Eq, Debug)]
pub enum ClusterCall {
    /// A client is opened on a node (3).
    Open,
    /// A client crashes (4).
    Crash,
    /// A node fails (5).
    Fail,
    /// A node comes back (6).
    Back,
    /// One round of all nodes (8).
    Round,
    /// How many inodes a node keeps hot is set (32).
    SetHot,
    /// A node reads and sends version 2 of frames from here on (33).
    Raise,
    /// What a node sends goes over another link from here on (34).
    SetLink,
    /// A client makes changes again that a failure took (35).
    Redo,
}

/// What is asked of a cluster, which changes nothing.
#[derive(Clone, Copy, PartialEq, Eq, Debug)]
pub enum ClusterQuery {
    /// Whether the history is legal, checked anew (7).
    Legal,
    /// How many entries the history has (9).
    Entries,
    /// How many bytes its calls wrote, read and listed (10).
    Payload,
    /// How a node stands (11).
    Phase,
    /// How a client stands (12).
    Standing,
    /// The node of a client (13).
    Home,
    /// How many of a client's calls were answered (14).
    Answered,
    /// How many of a client's calls no failure can take any more (15).
    Replicated,
}

/// What a client calls.
#[derive(Clone, Copy, PartialEq, Eq, Debug)]
pub enum ClientCall {
    /// A file is made (16).
    Create,
    /// A directory is made (17).
    Mkdir,
    /// Bytes of a file are read (18).
    Read,
    /// Bytes of a file are written (19).
    Write,
    /// A file gets another size (20).
    Truncate,
    /// What stands at a path is moved to another (21).
    Rename,
    /// A file is removed (22).
    Unlink,
    /// A directory without entries is removed (23).
    Rmdir,
    /// The names of a directory's entries are listed (24).
    List,
    /// What stands at a path is told (25).
    Stat,
    /// All calls so far are replicated (26), for a client whose fsyncs wait for that.
    Fsync,
    /// All calls so far are replicated (27).
    Dsync,
}

impl DeskCall {
    /// What a number asks for, if it asks for anything.
    pub fn of_number(number: u32) -> Option<DeskCall>
        ensures { MatchOption result ((call : AnyCall) → desk_call_number call ≢ number)
            (λ call. desk_call_number call ≡ number) }
    {
        match number {
            1 => Some(DeskCall::Make),
            2 => Some(DeskCall::Free),
            3 => Some(DeskCall::Cluster(ClusterCall::Open)),
            4 => Some(DeskCall::Cluster(ClusterCall::Crash)),
            5 => Some(DeskCall::Cluster(ClusterCall::Fail)),
            6 => Some(DeskCall::Cluster(ClusterCall::Back)),
            7 => Some(DeskCall::Query(ClusterQuery::Legal)),
            8 => Some(DeskCall::Cluster(ClusterCall::Round)),
            9 => Some(DeskCall::Query(ClusterQuery::Entries)),
            10 => Some(DeskCall::Query(ClusterQuery::Payload)),
            11 => Some(DeskCall::Query(ClusterQuery::Phase)),
            12 => Some(DeskCall::Query(ClusterQuery::Standing)),
            13 => Some(DeskCall::Query(ClusterQuery::Home)),
            14 => Some(DeskCall::Query(ClusterQuery::Answered)),
            15 => Some(DeskCall::Query(ClusterQuery::Replicated)),
            16 => Some(DeskCall::Client(ClientCall::Create)),
            17 => Some(DeskCall::Client(ClientCall::Mkdir)),
            18 => Some(DeskCall::Client(ClientCall::Read)),
            19 => Some(DeskCall::Client(ClientCall::Write)),
            20 => Some(DeskCall::Client(ClientCall::Truncate)),
            21 => Some(DeskCall::Client(ClientCall::Rename)),
            22 => Some(DeskCall::Client(ClientCall::Unlink)),
            23 => Some(DeskCall::Client(ClientCall::Rmdir)),
            24 => Some(DeskCall::Client(ClientCall::List)),
            25 => Some(DeskCall::Client(ClientCall::Stat)),
            26 => Some(DeskCall::Client(ClientCall::Fsync)),
            27 => Some(DeskCall::Client(ClientCall::Dsync)),
            28 => Some(DeskCall::Print(DeskText::History)),
            29 => Some(DeskCall::Print(DeskText::Tree)),
            30 => Some(DeskCall::Page),
            31 => Some(DeskCall::Listed),
            32 => Some(DeskCall::Cluster(ClusterCall::SetHot)),
            33 => Some(DeskCall::Cluster(ClusterCall::Raise)),
            34 => Some(DeskCall::Cluster(ClusterCall::SetLink)),
            35 => Some(DeskCall::Cluster(ClusterCall::Redo)),
            36 => Some(DeskCall::Renew),
            _ => None,
        }
    }
}
