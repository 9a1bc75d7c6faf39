//! A law of what is asked at a desk. The function does nothing: its contract is the law.
ghost use Rattle.std.specs.Prelude.{List, Result, ℕ};
ghost use Rattle.assise_names.specs.declared.reply.Reply.{Reply};
ghost use Rattle.assise_link.specs.Kinds.{Kind};
ghost use Rattle.assise_model_events.specs.Machine.{Machine};
ghost use Rattle.assise_rounds.specs.Traces.{IsEventTrace, Told};
ghost use Rattle.assise_files.specs.FilesSeen.{cluster_seen};
ghost use Rattle.assise_files.specs.declared.files.Files.{Files};
ghost use Rattle.assise_desk.specs.DeskAnswers.{CallsAt, DoesAt};
ghost use Rattle.assise_desk.specs.declared.desk_call.ClientCall.{ClientCall};
ghost use Rattle.assise_desk.specs.declared.desk_call.ClusterCall.{ClusterCall};
ghost use Rattle.assise_desk.specs.declared.desk_fault.DeskFault.{DeskFault};
ghost use Rattle.assise_desk.specs.declared.desk_request.DeskRequest.{DeskRequest};

/// What a request does to the cluster that it finds is a trace of events: so over it the history stays legal, and gets exactly their
/// entries (`a_trace_keeps_the_history_legal` of `assise_rounds`). A request that makes a cluster, renews it, or lets it go, is none.
pub fn a_request_is_a_trace_of_events()
    ensures cluster { (call : ClusterCall) (r : DeskRequest) (result : Result ℕ DeskFault)
        (before out : List ℕ) (files : Files) (es : Told) (left : Files) →
        DoesAt call r result before out files es left →
        IsEventTrace (cluster_seen files) es (cluster_seen left) }
    ensures client { (links : List Kind) (turns : ℕ) (call : ClientCall) (r : DeskRequest)
        (bytes : List ℕ) (result : Result Reply DeskFault) (m : Machine) (es : Told)
        (m' : Machine) →
        CallsAt links turns call r bytes result m es m' → IsEventTrace m es m' }
{}
