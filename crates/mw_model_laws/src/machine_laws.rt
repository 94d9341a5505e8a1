//! What holds of the machine over all its runs. Each function is a law, and does nothing.

ghost use Rattle.std.specs.Prelude.{Contains, not, ◌≡◌, ◌<◌, ◌≤◌, ◌≢◌, ◌↔◌, ◌⊎◌, ◌++◌, ◌∷◌, [], ℕ, Bool, List, Option, Some, None, length, map, true, false};
ghost use Rattle.std.specs.List.{AllByRecursion};
ghost use Rattle.mw_model.specs.declared.names.Name.{Name};
ghost use Rattle.mw_model.specs.declared.shapes.Shape.{Shape};
ghost use Rattle.mw_model.specs.declared.operations.Op.{Op};
ghost use Rattle.mw_model.specs.declared.submissions.Command.TheVariants as command;
ghost use Rattle.mw_model.specs.declared.codes.Code.{Code};
ghost use Rattle.mw_model.specs.declared.codes.Code.TheVariants as code;
ghost use Rattle.mw_model.specs.declared.calls.Outcome.{Outcome};
ghost use Rattle.mw_model.specs.declared.calls.Outcome.TheVariants as outcome;
ghost use Rattle.mw_model.specs.declared.calls.Call.{Call};
ghost use Rattle.mw_model.specs.declared.calls.Call.TheVariants as call;
ghost use Rattle.mw_model.specs.declared.calls.Reply.TheVariants as reply;
ghost use Rattle.mw_model.specs.declared.calls.LogItem.{LogItem};
ghost use Rattle.mw_model.specs.declared.calls.LogItem.TheVariants as item;
ghost use Rattle.mw_model.specs.declared.limits.TheConstants.{ENTRY_LIMIT};
ghost use Rattle.mw_model.specs.Names.{same_name};
ghost use Rattle.mw_model.specs.Values.{Value, result_of, value_at};
ghost use Rattle.mw_model.specs.Refusals.{Table, first_of, input_case, inputs_wanted, is_dead, is_element, is_pending, is_released, is_there, op_cases, outcome_at, refusal, shape_at, submission_at, ticket_of, wanted_case, when};
ghost use Rattle.mw_model.specs.Machine.{CanDie, CanFinish, Machine, Run, Step, after, killed, reply_to, settled, start_state, values, with_table};
ghost use Rattle.mw_model_laws.specs.MachineLaws.{AreOfOneLength, CommandsAreBare, DoneFromDone, ElementsAreGiven, FailedByDead, GivenAreThere, GrowsTo, HangsOn, InputsStandBefore, IsKilled, IsSound, NamesLead, NoneAwaitsDead, SettlesNot, ValuesHaveShapes, ValuesWithinLimits, asks_offsets, inputs_at, name_at, new_name, old_name};

/// A log may be cut anywhere: it is a run exactly where its first part leads to a state from which the rest leads on.
pub fn runs_in_parts()
    ensures join { (first second : List LogItem) (a b c : Machine) → Run a first b → Run b second c → Run a (first ++ second) c }
    ensures split { (first second : List LogItem) (a c : Machine) → Run a (first ++ second) c → (b : Machine) × Run a first b × Run b second c }
{}

/// Each state that a run reaches is sound, since the start is and each step keeps it.
pub fn sound_states()
    ensures start { IsSound start_state }
    ensures step { (m : Machine) (i : LogItem) (n : Machine) → IsSound m → Step m i n → IsSound n }
    ensures reached { (log : List LogItem) (m : Machine) → Run start_state log m → IsSound m }
{}

/// In each state that a run reaches a name leads to the entry that has it, and no two entries have one name.
pub fn names_are_distinct()
    ensures lead { (log : List LogItem) (m : Machine) → Run start_state log m → NamesLead m.table }
    ensures differ { (log : List LogItem) (m : Machine) (t u : ℕ) → Run start_state log m → t < length m.table.names → u < length m.table.names
        → same_name (name_at m.table.names t) (name_at m.table.names u) ≡ true → t ≡ u }
{}

/// There is one submission, one outcome and one place for a payload with each name, at most 65,536 of each, and the
/// inputs of an entry have lower tickets.
pub fn entries_in_order()
    ensures lengths { (log : List LogItem) (m : Machine) → Run start_state log m → AreOfOneLength m }
    ensures small { (log : List LogItem) (m : Machine) → Run start_state log m → length m.table.names ≤ ENTRY_LIMIT }
    ensures inputs { (log : List LogItem) (m : Machine) → Run start_state log m → InputsStandBefore m.table }
{}

/// Steps and runs add entries. Of an entry that was there the name, the submission, the payload and the value stay, and
/// its outcome stays, or was pending, or was done and is released.
pub fn entries_stay()
    ensures step { (log : List LogItem) (m : Machine) (i : LogItem) (n : Machine) → Run start_state log m → Step m i n → GrowsTo m n }
    ensures run { (log more : List LogItem) (m n : Machine) → Run start_state log m → Run m more n → GrowsTo m n }
{}

/// An outcome changes once: what is settled stays so for the rest of a run, but that what is done may be released.
pub fn outcomes_change_once()
    ensures settled { (log more : List LogItem) (m n : Machine) (t : ℕ) → Run start_state log m → Run m more n → t < length m.table.names
        → outcome_at m.table.outcomes t ≢ outcome.Pending → outcome_at m.table.outcomes t ≢ outcome.Done
        → outcome_at n.table.outcomes t ≡ outcome_at m.table.outcomes t }
    ensures done { (log more : List LogItem) (m n : Machine) (t : ℕ) → Run start_state log m → Run m more n → t < length m.table.names
        → outcome_at m.table.outcomes t ≡ outcome.Done
        → ((outcome_at n.table.outcomes t ≡ outcome.Done) ⊎ (outcome_at n.table.outcomes t ≡ outcome.Released)) }
{}

/// A command is done, or released since, exactly where the log has that it was finished. What is settled is settled by
/// no later item of the log.
pub fn logs_settle_once()
    ensures finished { (log : List LogItem) (m : Machine) (t : ℕ) (o : Op) → Run start_state log m → t < length m.table.names
        → (submission_at m.table.submissions t).command ≡ command.Run o → is_there (outcome_at m.table.outcomes t) ≡ true
        → Contains log (item.Finished t) }
    ensures done { (log : List LogItem) (m : Machine) (t : ℕ) → Run start_state log m → Contains log (item.Finished t)
        → ((outcome_at m.table.outcomes t ≡ outcome.Done) ⊎ (outcome_at m.table.outcomes t ≡ outcome.Released)) }
    ensures once { (log more : List LogItem) (m n : Machine) (t : ℕ) → Run start_state log m → t < length m.table.names
        → outcome_at m.table.outcomes t ≢ outcome.Pending → Run m more n → AllByRecursion (SettlesNot t) more }
{}

/// No pending entry has a dead input. The inputs of an entry that is done or released are done or released. An entry
/// that failed by s has s among its inputs, and s is dead.
pub fn outcomes_follow_inputs()
    ensures pending { (log : List LogItem) (m : Machine) → Run start_state log m → NoneAwaitsDead m.table }
    ensures done { (log : List LogItem) (m : Machine) → Run start_state log m → DoneFromDone m.table }
    ensures failed { (log : List LogItem) (m : Machine) → Run start_state log m → FailedByDead m.table }
{}

/// No run is stuck: while an entry is pending, there is one that can finish.
pub fn runs_go_on()
    ensures { (log : List LogItem) (m : Machine) (t : ℕ) → Run start_state log m → t < length m.table.names → outcome_at m.table.outcomes t ≡ outcome.Pending
        → (u : ℕ) × CanFinish m.table u }
{}

/// What is given is done at once, and may be released. Elements are given, so that what a refusal reads of them is their
/// value; a command has no payload.
pub fn given_entries()
    ensures done { (log : List LogItem) (m : Machine) → Run start_state log m → GivenAreThere m.table }
    ensures elements { (log : List LogItem) (m : Machine) → Run start_state log m → ElementsAreGiven m.table }
    ensures read { (log : List LogItem) (m : Machine) (t : ℕ) → Run start_state log m → t < length m.table.names
        → is_element (shape_at m.table.submissions t) ≡ true → value_at m.payloads t ≡ value_at (values m) t }
    ensures bare { (log : List LogItem) (m : Machine) → Run start_state log m → CommandsAreBare m }
{}

/// The reply tells whether a call is refused, and why. A call that is refused, a STATUS and a FETCH change nothing.
pub fn refused_calls()
    ensures told { (m : Machine) (c : Call) (d : Code) → (reply_to m c ≡ reply.Refused d) ↔ (refusal m.table m.payloads c ≡ Some d) }
    ensures unchanged { (m : Machine) (c : Call) (p : Option Value) (d : Code) → refusal m.table m.payloads c ≡ Some d → after m c p ≡ m }
    ensures status { (m : Machine) (n : Name) (p : Option Value) → after m (call.Status n) p ≡ m }
    ensures fetch { (m : Machine) (n : Name) (p : Option Value) → after m (call.Fetch n) p ≡ m }
{}

/// Values look at no outcome, so that no kill and no settling changes one, and a ticket keeps its value in all later
/// states.
pub fn values_stay()
    ensures by { (a b : Machine) → a.table.submissions ≡ b.table.submissions → a.payloads ≡ b.payloads → values a ≡ values b }
    ensures kill { (m : Machine) (t : ℕ) (cause : Outcome) → values (with_table m (killed m.table t cause)) ≡ values m }
    ensures settle { (m : Machine) (t : ℕ) (o : Outcome) → values (with_table m (settled m.table t o)) ≡ values m }
    ensures later { (log more : List LogItem) (m n : Machine) (t : ℕ) → Run start_state log m → Run m more n → t < length m.table.names
        → value_at (values n) t ≡ value_at (values m) t }
{}

/// In each state that a run reaches the value of a given entry is its payload, and that of a command its operation on
/// the values of its inputs.
pub fn values_by_operations()
    ensures given { (log : List LogItem) (m : Machine) (t : ℕ) → Run start_state log m → t < length m.table.names
        → (submission_at m.table.submissions t).command ≡ command.Given → value_at (values m) t ≡ value_at m.payloads t }
    ensures run { (log : List LogItem) (m : Machine) (t : ℕ) (o : Op) → Run start_state log m → t < length m.table.names
        → (submission_at m.table.submissions t).command ≡ command.Run o
        → value_at (values m) t ≡ result_of o (map (value_at (values m)) (inputs_at m.table.submissions t)) }
{}

/// In each state that a run reaches each ticket has a value, of the shape that the table tells, and each image and
/// element is within its limits.
pub fn values_have_shapes()
    ensures shapes { (log : List LogItem) (m : Machine) → Run start_state log m → ValuesHaveShapes m }
    ensures limits { (log : List LogItem) (m : Machine) → Run start_state log m → ValuesWithinLimits m }
{}

/// A log replays to one table, whatever the payloads were, and tells the reply to each further call that looks at no
/// offsets. With the same payloads all replies are the same.
pub fn logs_replay()
    ensures table { (log : List LogItem) (m n : Machine) → Run start_state log m → Run start_state log n → m.table ≡ n.table }
    ensures reply { (log : List LogItem) (m n : Machine) (c : Call) → Run start_state log m → Run start_state log n → asks_offsets c ≡ false → reply_to m c ≡ reply_to n c }
    ensures replies { (log : List LogItem) (m n : Machine) (c : Call) → Run start_state log m → Run start_state log n → m.payloads ≡ n.payloads → reply_to m c ≡ reply_to n c }
{}

/// What is refused first. A taken name goes before want of room, and both before all else that is asked of a
/// submission; an unknown name goes before all else that is asked of any other call. Then the inputs follow in argument
/// order, each by its kind, whether it is dead, and whether it is released, and then what the operation asks.
pub fn refusals_in_order()
    ensures holds { (before after : List (Option Code)) (d : Code) → AllByRecursion (λ x. x ≡ None) before → first_of (before ++ Some d ∷ after) ≡ Some d }
    ensures none { (cases : List (Option Code)) → AllByRecursion (λ x. x ≡ None) cases → first_of cases ≡ None }
    ensures taken { (w : Table) (elements : List (Option Value)) (c : Call) (n : Name) (t : ℕ) → new_name c ≡ Some n → ticket_of w.names n ≡ Some t
        → refusal w elements c ≡ Some code.NameTaken }
    ensures full { (w : Table) (elements : List (Option Value)) (c : Call) (n : Name) → new_name c ≡ Some n → ticket_of w.names n ≡ None
        → ENTRY_LIMIT ≤ length w.names → refusal w elements c ≡ Some code.Full }
    ensures unknown { (w : Table) (elements : List (Option Value)) (c : Call) (n : Name) → old_name c ≡ Some n → ticket_of w.names n ≡ None
        → refusal w elements c ≡ Some code.Unknown }
    ensures run { (w : Table) (elements : List (Option Value)) (n : Name) (o : Op) → ticket_of w.names n ≡ None → length w.names < ENTRY_LIMIT
        → refusal w elements (call.Run n o) ≡ first_of (first_of (map (wanted_case w) (inputs_wanted o)) ∷ first_of (op_cases w elements o) ∷ []) }
    ensures input { (w : Table) (fits : Shape → Bool) (n : Name) (t : ℕ) → ticket_of w.names n ≡ Some t
        → input_case w fits n
        ≡ first_of (when (not (fits (shape_at w.submissions t))) code.Kind ∷ when (is_dead (outcome_at w.outcomes t)) code.Dead ∷ when (is_released (outcome_at w.outcomes t)) code.Released ∷ []) }
{}

/// What a kill does. The entry dies by the cause. An entry that was not pending is as before. Any other pending entry
/// fails by its first dead input, in argument order, exactly where it then has a dead input, and waits on where it has
/// none. No other table fits this.
pub fn kill_means()
    ensures is { (w : Table) (t : ℕ) (cause : Outcome) → length w.submissions ≡ length w.outcomes
        → ((u : ℕ) → u < length w.outcomes → AllByRecursion (λ i. i < u) (inputs_at w.submissions u))
        → t < length w.outcomes → is_pending cause ≡ false → IsKilled w (killed w t cause) t cause }
    ensures alone { (w v x : Table) (t : ℕ) (cause : Outcome) → ((u : ℕ) → u < length w.outcomes → AllByRecursion (λ i. i < u) (inputs_at w.submissions u))
        → IsKilled w v t cause → IsKilled w x t cause → v ≡ x }
{}

/// In each state that a run reaches the pending entries that a kill of t reaches are exactly those that hang on t.
pub fn kill_reaches_dependents()
    ensures { (log : List LogItem) (m : Machine) (t : ℕ) (cause : Outcome) (u : ℕ) → Run start_state log m → CanDie m.table t → is_dead cause ≡ true
        → u < length m.table.names → u ≢ t → outcome_at m.table.outcomes u ≡ outcome.Pending
        → (is_dead (outcome_at (killed m.table t cause).outcomes u) ≡ true) ↔ HangsOn m.table t u }
{}
