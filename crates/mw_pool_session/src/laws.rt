//! What a served session leaves, in the words of receipts.

ghost use Rattle.std.specs.Prelude.{◌≡◌, ℕ, List, Option};
ghost use Rattle.std.specs.Io.KnownBytes.{IsAtEnd};
ghost use Rattle.mw_model.specs.declared.receipts.Receipt.{Receipt};
ghost use Rattle.mw_model.specs.declared.requests.End.{End};
ghost use Rattle.mw_session_fetch.specs.mw_wire.Rooms.{LacksRoom};
ghost use Rattle.mw_session_fetch.specs.mw_wire.Runs.{CameToEnd, Halted};
ghost use Rattle.mw_pool_session.specs.Serving.{RequestServed, WroteAll, WroteFront};
ghost use Rattle.mw_session_fetch.specs.mw_wire.declared.fault.SessionFault.{SessionFault};

/// A session that came to its end wrote the replies of the receipts that it added, and the text of the end.
pub fn ended_is_served()
    ensures { (left : Option (List ℕ)) (bytes : List ℕ) (old new : List Receipt) (before after : Option (List ℕ)) (e : End) → CameToEnd RequestServed (LacksRoom bytes) left bytes old new before after e
        → WroteAll (IsAtEnd left) bytes old new before after e }
{}

/// A session that a fault has stopped wrote a front of the replies of the receipts that it added, and of the text of an end.
pub fn stopped_is_served()
    ensures { (left : Option (List ℕ)) (bytes : List ℕ) (old new : List Receipt) (before after : Option (List ℕ)) (f : SessionFault) → Halted RequestServed (LacksRoom bytes) left bytes old new before after f
        → WroteFront (IsAtEnd left) bytes old new before after }
{}
