//! What holds of plans and their faults. Each function is a law, and does nothing.

ghost use Rattle.std.specs.Prelude.{◌≡◌, ◌<◌, ◌≤◌, ℕ, List, [], ◌∷◌, length, map, Option, Some, None, option_map, slice_index_or};
ghost use Rattle.std.specs.List.{AllByRecursion};
ghost use Rattle.mw_model.specs.declared.calls.Call.{Call};
ghost use Rattle.mw_model.specs.declared.calls.Call.TheVariants as call;
ghost use Rattle.mw_model.specs.declared.names.Name.{Name};
ghost use Rattle.mw_model.specs.declared.operations.Op.{Op};
ghost use Rattle.mw_model.specs.declared.offsets.Rect.{Rect};
ghost use Rattle.mw_model.specs.declared.limits.TheConstants.{SIDE_LIMIT};
ghost use Rattle.mw_model.specs.Machine.{Machine, inputs_from, shape_of_result, values};
ghost use Rattle.mw_model.specs.Pictures.{Picture};
ghost use Rattle.mw_model.specs.PlanSteps.{PlanStep};
ghost use Rattle.mw_model.specs.Plans.{IsSourceAt, Plan, no_picture, plane_of, planes};
ghost use Rattle.mw_model.specs.Refusals.{Table, inputs_wanted, name_taken, no_room, refusal};
ghost use Rattle.mw_model.specs.Tasks.{nothing_planned};
ghost use Rattle.mw_model.specs.Stands.{Agrees};
ghost use Rattle.mw_model.specs.Values.{Value, tickets, value_at};
ghost use Rattle.mw_model_laws.specs.MachineLaws.{IsSound};
ghost use Rattle.mw_step_task.specs.Sources.{AreCut};
ghost use Rattle.mw_step_task.specs.WindowTasks.{FitsStep};
ghost use Rattle.mw_step_task.specs.mw_tile.Windows.{SourceWindow};
ghost use Rattle.mw_plan.specs.declared.inputs.Input.{Input};
ghost use Rattle.mw_plan.specs.Asked.{fault_in, shape_made};
ghost use Rattle.mw_plan.specs.Faults.{plan_code};
ghost use Rattle.mw_plan.specs.PlansOf.{AreValuesOf, CanBeMade, inputs_taken, planes_read};
ghost use Rattle.mw_plan.specs.Tables.{AreEntries, AreInputsOf, AreValuesAt};

/// A plan has a plane for each step, and where a step reads earlier steps, its plane is what it makes of their planes.
pub fn planes_are_of_steps()
    ensures count { (plan : Plan) (images : List Picture) (width height : ℕ) → length (planes plan images width height) ≡ length plan }
    ensures each { (plan : Plan) (images : List Picture) (width height k inputs : ℕ) → k < length plan → AllByRecursion (IsSourceAt inputs k) (slice_index_or plan k nothing_planned).sources → slice_index_or (planes plan images width height) k no_picture ≡ plane_of (slice_index_or plan k nothing_planned).step (planes_read plan images width height k) width height }
{}

/// Where a step can be made of its planes, each of its tasks can be made of the windows that it reads.
pub fn tasks_of_plans_fit()
    ensures { (s : PlanStep) (sources : List Picture) (width height : ℕ) (tile : Rect) (windows : List SourceWindow) → AreCut s sources width height tile windows → width ≤ SIDE_LIMIT → height ≤ SIDE_LIMIT → 1 ≤ tile.width → 1 ≤ tile.height → CanBeMade s sources → FitsStep s tile windows }
{}

/// Where the inputs are entries that are neither dead nor released, the machine refuses a RUN by the first fault, and the
/// shape that it tells of an accepted one is the one made.
pub fn faults_are_refusals()
    ensures refusal { (w : Table) (values : List (Option Value)) (n : Name) (o : Op) (a b c : Input) → name_taken w n ≡ None → no_room w ≡ None → AreEntries w values (inputs_wanted o) (a ∷ b ∷ c ∷ []) → refusal w values (call.Run n o) ≡ option_map plan_code (fault_in o a b c) }
    ensures shape { (w : Table) (values : List (Option Value)) (o : Op) (a b c : Input) → AreEntries w values (inputs_wanted o) (a ∷ b ∷ c ∷ []) → fault_in o a b c ≡ None → shape_of_result w o ≡ shape_made o a }
{}

/// Where the machine does not refuse a RUN, the inputs at its tickets are entries that are neither dead nor released, the
/// operation has no fault on them, and the values of the tickets may come to stand in them. The values of a sound machine,
/// and what is kept of them, are such values.
pub fn accepted_runs_have_no_fault()
    ensures entries { (w : Table) (kept values : List (Option Value)) (n : Name) (o : Op) (a b c : Input) → refusal w kept (call.Run n o) ≡ None → AreValuesAt w kept values → AreInputsOf w kept (inputs_from w (inputs_wanted o)) a b c → AreEntries w kept (inputs_wanted o) (a ∷ b ∷ c ∷ []) }
    ensures faultless { (w : Table) (kept values : List (Option Value)) (n : Name) (o : Op) (a b c : Input) → refusal w kept (call.Run n o) ≡ None → AreValuesAt w kept values → AreInputsOf w kept (inputs_from w (inputs_wanted o)) a b c → fault_in o a b c ≡ None }
    ensures values { (w : Table) (kept values : List (Option Value)) (n : Name) (o : Op) (a b c : Input) → refusal w kept (call.Run n o) ≡ None → AreValuesAt w kept values → AreInputsOf w kept (inputs_from w (inputs_wanted o)) a b c → AreValuesOf (inputs_taken o a b c) (map (value_at values) (tickets (inputs_from w (inputs_wanted o)))) }
    ensures machine { (m : Machine) (kept : List (Option Value)) → IsSound m → Agrees kept m → AreValuesAt m.table kept (values m) }
{}
