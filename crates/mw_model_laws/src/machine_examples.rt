//! Sessions worked by the definitions of the machine. Each function is an example, and does nothing.

ghost use Rattle.std.specs.Prelude.{◌≡◌, List, [], ◌∷◌, ◌++◌, Some};
ghost use Rattle.mw_model.specs.declared.shapes.Kind.TheVariants.{Grey};
ghost use Rattle.mw_model.specs.declared.shapes.Shape.TheVariants as shape;
ghost use Rattle.mw_model.specs.declared.codes.Code.TheVariants as code;
ghost use Rattle.mw_model.specs.declared.calls.Outcome.TheVariants as outcome;
ghost use Rattle.mw_model.specs.declared.calls.Call.TheVariants as call;
ghost use Rattle.mw_model.specs.declared.calls.Reply.TheVariants as reply;
ghost use Rattle.mw_model.specs.declared.calls.LogItem.TheVariants as item;
ghost use Rattle.mw_model.specs.Values.{ImageValue, value_at};
ghost use Rattle.mw_model.specs.Machine.{Machine, Run, reply_to, start_state, values};
ghost use Rattle.mw_model_laws.specs.MachineExamples.{AreWithPayloads, Arrival, cancelled_erosion, faulty_calls, finished_erosion, five_in_a_row, logged, named, released_image, replies, starved_erosion, state_after, two_runs};

/// Calls that come one after another, each with its payload, make a run.
pub fn calls_make_runs()
    ensures { (m : Machine) (arrivals : List Arrival) → AreWithPayloads arrivals → Run m (logged m arrivals) (state_after m arrivals) }
{}

/// An image and an element are given, two commands accepted, and the first is done: its value can be fetched, and the
/// second is pending.
pub fn erosion_is_done()
    ensures run { Run start_state (logged start_state two_runs ++ item.Finished 2 ∷ item.Call (call.Fetch (named "a")) (reply.Shown 2) ∷ item.Call (call.Status (named "c")) (reply.Pending 3) ∷ [])
        finished_erosion }
    ensures replies { replies start_state two_runs ≡ reply.Accepted 0 ∷ reply.Accepted 1 ∷ reply.Accepted 2 ∷ reply.Accepted 3 ∷ [] }
    ensures value { value_at (values finished_erosion) 2 ≡ Some (ImageValue (record five_in_a_row { samples = 1 ∷ 1 ∷ 1 ∷ 1 ∷ 1 ∷ [] })) }
{}

/// The first command dies for want of memory, and the second fails by it.
pub fn starving_fails_dependents()
    ensures run { Run start_state (logged start_state two_runs ++ item.Killed 2 ∷ []) starved_erosion }
    ensures outcomes { starved_erosion.table.outcomes ≡ outcome.Done ∷ outcome.Done ∷ outcome.Memory ∷ outcome.Input 2 ∷ [] }
    ensures first { reply_to starved_erosion (call.Status (named "a")) ≡ reply.OutOfMemory 2 }
    ensures second { reply_to starved_erosion (call.Fetch (named "c")) ≡ reply.BadInput 3 2 }
{}

/// The first command is cancelled, and the second fails by it.
pub fn cancel_fails_dependents()
    ensures replies { replies start_state cancelled_erosion
        ≡ reply.Accepted 0 ∷ reply.Accepted 1 ∷ reply.Accepted 2 ∷ reply.Accepted 3 ∷ reply.Accepted 2 ∷ reply.Cancelled 2 ∷ reply.BadInput 3 2
        ∷ reply.Refused code.Dead ∷ reply.Refused code.NameTaken ∷ reply.Refused code.Settled ∷ reply.Done 0 (shape.Image Grey 5 1 9)
        ∷ reply.Refused code.Kind ∷ reply.Refused code.Unknown ∷ [] }
    ensures outcomes { (state_after start_state cancelled_erosion).table.outcomes
        ≡ outcome.Done ∷ outcome.Done ∷ outcome.Cancelled ∷ outcome.Input 2 ∷ [] }
{}

/// A call with more than one fault is refused by the first.
pub fn first_fault_is_told()
    ensures { replies start_state faulty_calls
        ≡ reply.Accepted 0 ∷ reply.Accepted 1 ∷ reply.Accepted 2 ∷ reply.Refused code.NameTaken ∷ reply.Refused code.Unknown ∷ reply.Refused code.Kind
        ∷ reply.Refused code.NoOrigin ∷ reply.Refused code.Param ∷ reply.Refused code.Param ∷ reply.Refused code.Param ∷ reply.Refused code.Overlap
        ∷ reply.Refused code.Binary ∷ reply.Refused code.NameTaken ∷ reply.Refused code.Magic ∷ reply.Refused code.NotPlain ∷ reply.Accepted 3 ∷ [] }
{}

/// A pending entry cannot be released. An entry that is released is no input any more, and is not shown.
pub fn release_lets_go()
    ensures { replies start_state released_image
        ≡ reply.Accepted 0 ∷ reply.Accepted 1 ∷ reply.Accepted 2 ∷ reply.Accepted 3 ∷ reply.Refused code.Pending ∷ reply.Accepted 0
        ∷ reply.Released 0 ∷ reply.Released 0 ∷ reply.Refused code.Released ∷ reply.Refused code.Released ∷ reply.Pending 2 ∷ reply.Refused code.Unknown ∷ [] }
{}
