//! By how much a core is counted as more behind a call, and behind work.

ghost use Rattle.std.specs.Prelude.{◌≡◌, ◌≤◌, ◌+◌, ◌++◌, ℕ, List, Option};
ghost use Rattle.mw_model.specs.declared.calls.Call.{Call};
ghost use Rattle.mw_model.specs.declared.calls.LogItem.{LogItem};
ghost use Rattle.mw_model.specs.declared.calls.Reply.{Reply};
ghost use Rattle.mw_model.specs.Machine.{IsWith, Machine, Run};
ghost use Rattle.mw_model.specs.Stands.{CoreView, StandsFor};
ghost use Rattle.mw_model.specs.Values.{Value};
ghost use Rattle.mw_core.specs.mw_core_laws.Events.{FollowsMachine};
ghost use Rattle.mw_core.specs.Costs.{core_bytes};
ghost use Rattle.mw_core_bytes.specs.Growth.{call_bytes};
ghost use Rattle.mw_session_laws.specs.Marks.{OnlyWork};

/// A call takes no more than its item of the log and what it is accepted with. One that ends an entry takes nothing.
pub fn calls_take_what_they_ask()
    ensures { (c new : CoreView) (m : Machine) (q : Call) (p : Option Value) (r : Reply) → StandsFor c m → IsWith q p → FollowsMachine c q p new r → new.side ≡ c.side → core_bytes new ≤ core_bytes c + call_bytes c q p r }
{}

/// Work takes no more than is there: what a command is counted as holds its result, and the item of the log that tells its end.
pub fn work_takes_no_more()
    ensures { (c new : CoreView) (m n : Machine) (items : List LogItem) → StandsFor c m → StandsFor new n → OnlyWork items → Run m items n → new.log ≡ c.log ++ items → new.side ≡ c.side → core_bytes new ≤ core_bytes c }
{}
