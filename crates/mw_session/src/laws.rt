//! What a session leaves is a script of the model, or a front of one.

ghost use Rattle.std.specs.Prelude.{◌+◌, ◌*◌, ◌≤◌, ℕ, List, Option, IfSome, length};
ghost use Rattle.std.specs.Io.KnownBytes.{Appends, IsAtEnd};
ghost use Rattle.mw_model.specs.declared.calls.LogItem.{LogItem};
ghost use Rattle.mw_model.specs.declared.requests.End.{End};
ghost use Rattle.mw_model.specs.Machine.{Machine};
ghost use Rattle.mw_model.specs.Scripts.{Turn, IsScript, IsBroken};
ghost use Rattle.mw_model.specs.Stands.{CoreView};
ghost use Rattle.mw_core_waves.specs.mw_core.Costs.{core_bytes, told_bytes};
ghost use Rattle.mw_session_fetch.specs.mw_wire.Rooms.{LacksRoom};
ghost use Rattle.mw_session.specs.Budgets.{CoversCore, Within, kept_part};
ghost use Rattle.mw_session.specs.declared.budget.Budget.{Budget};
ghost use Rattle.mw_session.specs.declared.within.TheConstants.{ITEM};
ghost use Rattle.mw_session.specs.Runs.{Finished, ShowsKills, Stopped};
ghost use Rattle.mw_session_fetch.specs.mw_wire.declared.fault.SessionFault.{SessionFault};

/// A session that has ended wrote the script of its bytes, and the kills of its turns are those of the log.
pub fn finished_is_script()
    ensures { (left : Option (List ℕ)) (bytes : List ℕ) (m n : Machine) (old new : List LogItem) (before after : Option (List ℕ)) (e : End) → Finished (LacksRoom bytes) left bytes m n old new before after e
        → (turns : List Turn) × (text : List ℕ) × IsScript (IsAtEnd left) bytes turns m n text e × Appends before after text × ShowsKills turns old new }
{}

/// A session that a fault has stopped wrote a front of what belongs to its bytes.
pub fn stopped_is_broken()
    ensures { (left : Option (List ℕ)) (bytes : List ℕ) (m n : Machine) (old new : List LogItem) (before after : Option (List ℕ)) (f : SessionFault) → Stopped (LacksRoom bytes) left bytes m n old new before after f
        → (turns : List Turn) × (text : List ℕ) × IsBroken (IsAtEnd left) bytes turns m n text × Appends before after text × ShowsKills turns old new }
{}

/// Where the budget has taken what the core is counted as, and that is within the bound but for the items of the log, so is what the
/// core is counted as, with what is kept beside it.
pub fn covered_is_within()
    ensures { (b : Budget) (c : CoreView) → CoversCore b c → Within b c → IfSome b.most (λ most. told_bytes (core_bytes c + b.beside) ≤ kept_part most + length c.log * ITEM) }
{}
