//! Laws of the grammar, over every byte list and every cutting.

ghost use Rattle.std.specs.Prelude.{◌≡◌, ◌++◌, ◌≤◌, ◌↔◌, List, ℕ, length, Option};
ghost use Rattle.mw_model.specs.Lines.{Asked, Front, Found, Fault, IsFront, Begins, Says};
ghost use Rattle.mw_model.specs.declared.codes.Code.{Code};
ghost use Rattle.mw_model.specs.declared.requests.Head.{Head};
ghost use Rattle.mw_session_intake.specs.Reading.{head_of, front};

/// A line says exactly what is read of it.
pub fn lines_say_one_thing()
    ensures { (line : List ℕ) (said : Option Head) → Says line said ↔ (said ≡ head_of line) }
{}

/// What is read of the front of a byte list is what stands there, and nothing else does.
pub fn one_front_stands()
    ensures { (bytes : List ℕ) (f : Front) → IsFront bytes f ↔ (f ≡ front bytes) }
{}

/// What is cut off stays cut off, whatever bytes follow.
pub fn front_stays()
    ensures found { (xs ys rest : List ℕ) (r : Asked) → IsFront xs (Found r rest) → IsFront (xs ++ ys) (Found r (rest ++ ys)) }
    ensures fault { (xs ys : List ℕ) (c : Code) → IsFront xs (Fault c) → IsFront (xs ++ ys) (Fault c) }
{}

/// Two readings of one list agree as far as the shorter goes.
pub fn one_reading()
    ensures { (xs rest end : List ℕ) (rs qs : List Asked) → Begins xs rs rest → Begins xs qs end → length rs ≤ length qs → (more : List Asked) × (qs ≡ rs ++ more) × Begins rest more end }
{}
