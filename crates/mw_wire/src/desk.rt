//! What answers the requests of a session.

ghost use Rattle.std.specs.Prelude.{◌≢◌, ℕ, List};
ghost use Rattle.mw_model.specs.declared.requests.Ask.TheVariants as Ask;
ghost use Rattle.mw_model.specs.Lines.{AskAlone};
ghost use Rattle.mw_session_intake.specs.Intake.{asked};
ghost use Rattle.mw_wire.specs.Failures.{RemembersFailure};
ghost use Rattle.mw_wire.specs.Writes.{Wrote};

use crate::fault::SessionFault;
use crate::sink::Sink;
use mw_model::Request;
use std::io::Write;

/// Answers requests one by one. What a request may read and change is kept beside it: a core, or the receipts of a pass.
pub trait Handler {
    ghost use Rattle.std.specs.Prelude.{ℕ, List, ⊤};
    ghost use Rattle.mw_model.specs.Lines.{Asked};

    /// What the answers read and change.
    type Kept;

    /// Which text may answer a request, from what is kept before to what is kept after.
    ghost Answer: { Self.Kept → Asked → List ℕ → Self.Kept → Type 0 };

    /// What the desk's own types must bring, as that a handle may be shared by threads.
    ghost ready: { Type 0 } = { ⊤ };

    /// Serves one request, which is not QUIT, and writes its answer. At `Err` the request is served, and a front of its
    /// answer was written.
    fn answer<W: Write>(
        &mut self,
        sink: &mut Sink<W>,
        kept: &mut Self::Kept,
        request: Request,
    ) -> Result<(), SessionFault>
        requires ready { ready }
        requires open_still { asked request ≢ AskAlone Ask.Quit }
        ensures answered { (text : List ℕ) × Answer kept.old (asked request) text kept.new × Wrote (W.contents sink.old.inner) (W.contents sink.new.inner) text result }
        ensures remembers { RemembersFailure sink.old.failed sink.new.failed result };

    /// Whether a payload that is gathered may have so many places. Any answer is right: where it is no, the session ends as
    /// where memory is refused.
    fn has_room(&mut self, kept: &Self::Kept, places: usize) -> bool;
}
