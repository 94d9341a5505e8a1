//! Laws of scripts, over all logs and states.

ghost use Rattle.std.specs.Prelude.{◌≡◌, ◌≢◌, ◌⊎◌, ◌++◌, [], ℕ, List, Option, true};
ghost use Rattle.std.specs.Io.KnownBytes.{IsAtEnd};
ghost use Rattle.mw_model.specs.declared.calls.LogItem.{LogItem};
ghost use Rattle.mw_model.specs.declared.codes.Code.TheVariants as Code;
ghost use Rattle.mw_model.specs.declared.requests.End.{End};
ghost use Rattle.mw_model.specs.Machine.{Machine, Run};
ghost use Rattle.mw_model_laws.specs.MachineLaws.{IsSound};
ghost use Rattle.mw_model.specs.Scripts.{Turn, AreTurns, IsScript, IsBroken, Works};
ghost use Rattle.mw_session_laws.specs.Marks.{killed_in, kills_of, EndsInMemory, NoMarks, NoneSaysMemory, NothingWaits, OnlyWork};

/// Without marks of memory the bytes and the state tell all: the text, the end, and the state that is left.
pub fn one_output()
    ensures { (bytes : List ℕ) (ts us : List Turn) (m n k : Machine) (x y : List ℕ) (e f : End) → IsScript (Unit {0}) bytes ts m n x e → IsScript (Unit {0}) bytes us m k y f
        → NoMarks ts → NoMarks us → e ≢ End.Ended Code.Memory → f ≢ End.Ended Code.Memory → (x ≡ y) × (n ≡ k) × (e ≡ f) }
{}

/// The marks of memory can be seen: where no ticket was killed and no text is that of a 50, there are none.
pub fn marks_are_seen()
    ensures { (ts : List Turn) (m n : Machine) (x : List ℕ) → (turns : AreTurns m ts x n) → kills_of ts ≡ [] → NoneSaysMemory ts m n x turns → NoMarks ts }
{}

/// What was written when reading or writing failed is a front of the script of every input that begins with the bytes
/// that were read, and of those bytes alone where the end was read; or the session was ending by a 50.
pub fn written_is_a_front()
    ensures { (left : Option (List ℕ)) (bytes behind : List ℕ) (ts us : List Turn) (m n k : Machine) (x y : List ℕ) (e : End) → IsBroken (IsAtEnd left) bytes ts m n x → (IsAtEnd left → behind ≡ [])
        → IsScript (Unit {0}) (bytes ++ behind) (ts ++ us) m k y e → e ≢ End.Ended Code.Memory → EndsInMemory m ts n x ⊎ ((z : List ℕ) × (y ≡ x ++ z)) }
{}

/// What some turns write is a front of what they and further turns write.
pub fn written_text_stays()
    ensures { (ts us : List Turn) (m n k : Machine) (x y : List ℕ) → AreTurns m ts x n → AreTurns m (ts ++ us) y k → (z : List ℕ) × (y ≡ x ++ z) }
{}

/// Work that is done in any order until nothing is pending comes to this: first the tickets die that want of memory
/// killed, in the order of the log, and then every other pending entry is done, in ticket order.
pub fn work_in_any_order()
    ensures { (items : List LogItem) (m n : Machine) → IsSound m → OnlyWork items → Run m items n → NothingWaits n.table → Works true m (killed_in items) n }
{}

/// The work before a request, kills first and then everything done, is what a lawful log can tell: each kill and each
/// end is a step of the machine, and in the end nothing is pending.
pub fn work_is_lawful()
    ensures { (kills : List ℕ) (m n : Machine) → IsSound m → Works true m kills n
        → (items : List LogItem) × Run m items n × OnlyWork items × (killed_in items ≡ kills) × NothingWaits n.table }
{}
