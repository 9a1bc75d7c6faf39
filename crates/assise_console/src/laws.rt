//! Laws of the commands. Each function does nothing: its contract is the law.
ghost use Rattle.std.specs.Prelude.{◌≡◌, ◌++◌, ◌<◌, List, [], false, ℕ};
ghost use Rattle.assise_history.specs.Legal.{IsLegal};
ghost use Rattle.assise_fault_script.specs.declared.command.Command as commands;
ghost use Rattle.assise_fault_script.specs.declared.parse.NumberedCommand.{NumberedCommand};
ghost use Rattle.assise_model_events.specs.Events.{all_entries};
ghost use Rattle.assise_console.specs.declared.response.Response.{Response};
ghost use Rattle.assise_console.specs.declared.response.Response.TheVariants.{Checked};
ghost use Rattle.assise_rounds.specs.Traces.{IsEventTrace, Told};
ghost use Rattle.assise_console.specs.Lines.{Prints};
ghost use Rattle.assise_console.specs.State.{ConsoleState, Stocks, begun_console};
ghost use Rattle.assise_console.specs.Steps.{IsVerdict, Serves};

/// What a command does to the cluster are the events by which it is run, and so of a whole run; the history gets exactly their
/// entries.
pub fn a_run_is_a_trace_of_events()
    ensures command { (s t : ConsoleState) (command : commands.Command) (es : Told) (a : Response) →
        Serves s command es a t → IsEventTrace s.machine es t.machine }
    ensures run { (s t : ConsoleState) (all : List NumberedCommand) (es : Told) (text : List ℕ) →
        Prints s all es text t → IsEventTrace s.machine es t.machine }
    ensures entries { (s t : ConsoleState) (all : List NumberedCommand) (es : Told)
        (text : List ℕ) → Prints s all es text t →
        t.machine.history ≡ s.machine.history ++ all_entries s.machine.history es }
{}

/// Wherever a run stands that began with a new cluster, its history is legal, and a check doesn't say otherwise.
pub fn a_run_stands_on_a_legal_history()
    ensures legal { (nodes log hot turns : ℕ) (stock : Stocks) (all : List NumberedCommand)
        (es : Told) (text : List ℕ) (t : ConsoleState) → 0 < nodes →
        Prints (begun_console nodes log hot stock turns) all es text t → IsLegal t.machine.history }
    ensures checked { (nodes log hot turns : ℕ) (stock : Stocks) (all : List NumberedCommand)
        (es : Told) (text : List ℕ) (t : ConsoleState) → 0 < nodes →
        Prints (begun_console nodes log hot stock turns) all es text t →
        IsVerdict (Checked false) t.machine → ⊥ }
{}
