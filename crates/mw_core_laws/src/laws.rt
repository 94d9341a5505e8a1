//! What holds of the work under a ticket. Each function is a law, and does nothing.

ghost use Rattle.std.specs.Prelude.{Contains, ℕ, ◌≡◌, ◌<◌, ◌≤◌, List, [], ◌∷◌, Some, false, length, slice_index_or, true};
ghost use Rattle.std.specs.List.{AllByRecursion};
ghost use Rattle.mw_model.specs.declared.operations.Op.{Op};
ghost use Rattle.mw_model.specs.declared.shapes.Kind.{Kind};
ghost use Rattle.mw_model.specs.declared.shapes.Shape.TheVariants as shape;
ghost use Rattle.mw_model.specs.Machine.{Machine, values};
ghost use Rattle.mw_model.specs.Pictures.{IsImage, Picture};
ghost use Rattle.mw_model.specs.Rectangles.{IsWithin};
ghost use Rattle.mw_model.specs.Plans.{FromStep, Plan, images_of, is_sum, no_picture};
ghost use Rattle.mw_model.specs.Refusals.{submission_at};
ghost use Rattle.mw_model.specs.Stands.{IsWork, input_values, inputs_there, true_cells, true_planes};
ghost use Rattle.mw_model.specs.Tasks.{is_running, nothing_planned, place_of_task, planned_of, remaining_tasks, step_number, task_count, tile_number};
ghost use Rattle.mw_model.specs.Values.{CurveValue, value_at};
ghost use Rattle.mw_core_progress.specs.mw_model_laws.MachineLaws.{GrowsTo, IsSound};
ghost use Rattle.mw_grid.specs.Grids.{Tiling};
ghost use Rattle.mw_core_progress.specs.mw_plan.declared.inputs.Input.{Input};
ghost use Rattle.mw_core_progress.specs.mw_core_planes.Levels.{Level, level_of};
ghost use Rattle.mw_core_progress.specs.mw_core_planes.MadeTiles.{cells_of_made};
ghost use Rattle.mw_core_progress.specs.ProgressView.{IsFinished, IsStarted, IsWhole, IsWorkable, ProgressView, ResultFits, fresh, numbers_of, plane_at};
ghost use Rattle.mw_core_progress.specs.mw_step_task.declared.tile_result.TileResult.{TileResult};
ghost use Rattle.mw_core_progress.specs.mw_step_task.Products.{IsMade};
ghost use Rattle.mw_core_progress.specs.mw_step_task.WindowTasks.{FitsStep, IsBounded};
ghost use Rattle.mw_core_progress.specs.mw_tile.Windows.{SourceWindow};
ghost use Rattle.mw_core_progress.specs.mw_tile_planes.Tiles.{HasAll, IsPlaneOf};
ghost use Rattle.mw_core_laws.specs.Works.{AreWindowsOfSources, Finishes, IsAccepted, IsReadyOrRuns, IsResultImage, IsTrueWork, IsUnder, task_of, true_task};

/// Of an accepted command nothing is started: its plan can be worked off on its one image, and stands under its ticket.
pub fn fresh_work()
    ensures work { (m : Machine) (t : ℕ) (o : Op) (a b c : Input) (plan : Plan) (input : Level) (g : Tiling) → IsAccepted m t o a b c plan g → IsWork m t (fresh plan input g) }
    ensures image { (m : Machine) (t : ℕ) (o : Op) (a b c : Input) (plan : Plan) (g : Tiling) → IsAccepted m t o a b c plan g → (f : Picture) × (images_of (input_values m t) ≡ f ∷ []) × IsImage f }
    ensures workable { (m : Machine) (t : ℕ) (o : Op) (a b c : Input) (plan : Plan) (g : Tiling) (f : Picture) → IsAccepted m t o a b c plan g → images_of (input_values m t) ≡ f ∷ [] → IsWorkable plan (level_of f) }
    ensures stands { (m : Machine) (t : ℕ) (o : Op) (a b c : Input) (plan : Plan) (f : Picture) (u : ProgressView) → IsAccepted m t o a b c plan u.tiling → images_of (input_values m t) ≡ f ∷ [] → u.input ≡ level_of f → u.progress ≡ fresh plan u.input u.tiling → IsWhole u → IsUnder m t u }
{}

/// Work under a ticket stays so while the machine goes on, and while its tasks are started and finished.
pub fn work_goes_on()
    ensures machine { (m n : Machine) (t : ℕ) (u : ProgressView) → IsSound m → GrowsTo m n → t < length m.table.names → IsUnder m t u → IsUnder n t u }
    ensures started { (m : Machine) (t : ℕ) (u v : ProgressView) (n : ℕ) → IsUnder m t u → inputs_there m.table t ≡ true → IsWhole v → IsStarted u v n → IsUnder m t v }
    ensures finished { (m : Machine) (t : ℕ) (old new : ProgressView) (n : ℕ) → IsUnder m t old → Finishes m t old new n → 1 ≤ remaining_tasks new.progress → IsUnder m t new }
{}

/// A ready or running task finds all tiles that it reads; what is kept of a step is part of its true plane; and a task on
/// windows of these is the true one, fits its step, and makes what fits its tile and has the cells of the definitions.
pub fn true_tasks()
    ensures placed { (u : ProgressView) (n k : ℕ) → IsWhole u → n < task_count u.progress → IsReadyOrRuns u.progress n → Contains (planned_of u.progress n).sources (FromStep k) → HasAll u.tiling (plane_at u k).tiles (place_of_task u.progress n) }
    ensures source { (u : ProgressView) (n k : ℕ) → IsWhole u → n < task_count u.progress → Contains (planned_of u.progress n).sources (FromStep k) → (k < length u.progress.plan) × (is_sum (slice_index_or u.progress.plan k nothing_planned).step ≡ false) }
    ensures within { (u : ProgressView) (n : ℕ) → IsWhole u → IsWithin (place_of_task u.progress n) u.tiling.width u.tiling.height }
    ensures planes { (m : Machine) (t : ℕ) (u : ProgressView) (k : ℕ) → IsTrueWork m t u → k < length u.progress.plan → is_sum (slice_index_or u.progress.plan k nothing_planned).step ≡ false → IsPlaneOf (plane_at u k) (slice_index_or (true_planes m t u.progress) k no_picture) }
    ensures task { (m : Machine) (t : ℕ) (u : ProgressView) (n : ℕ) (ws : List SourceWindow) → (w : IsTrueWork m t u) → n < task_count u.progress → AreWindowsOfSources u w.planned.image (place_of_task u.progress n) (planned_of u.progress n).sources ws → task_of t u.progress n ws ≡ true_task m t u.progress n }
    ensures fits { (m : Machine) (t : ℕ) (u : ProgressView) (n : ℕ) → IsTrueWork m t u → n < task_count u.progress → FitsStep (true_task m t u.progress n).step (true_task m t u.progress n).rect (true_task m t u.progress n).windows }
    ensures bounded { (m : Machine) (t : ℕ) (u : ProgressView) (n : ℕ) → IsTrueWork m t u → n < task_count u.progress → AllByRecursion IsBounded (true_task m t u.progress n).windows }
    ensures made { (m : Machine) (t : ℕ) (u : ProgressView) (n : ℕ) (x : TileResult) → IsTrueWork m t u → n < task_count u.progress → IsMade (true_task m t u.progress n) x → ResultFits u (step_number u.progress n) (tile_number u.progress n) x }
    ensures cells { (m : Machine) (t : ℕ) (u : ProgressView) (n : ℕ) (x : TileResult) → IsTrueWork m t u → n < task_count u.progress → IsMade (true_task m t u.progress n) x → cells_of_made x ≡ true_cells m t u.progress n }
{}

/// When the last task is finished, what is kept is the value under the ticket: of an image all tiles of the last step, of
/// a curve its numbers.
pub fn finished_work()
    ensures made { (m : Machine) (t : ℕ) (old new : ProgressView) (n : ℕ) (x : TileResult) → IsTrueWork m t old → n < task_count old.progress → is_running old.progress n ≡ true → IsMade (true_task m t old.progress n) x → IsFinished old new n (cells_of_made x) → IsWhole new → Finishes m t old new n }
    ensures stands { (m : Machine) (t : ℕ) (old new : ProgressView) (n : ℕ) → IsUnder m t old → Finishes m t old new n → IsTrueWork m t new }
    ensures image { (m : Machine) (t : ℕ) (u : ProgressView) (k : Kind) (w h x : ℕ) → IsTrueWork m t u → remaining_tasks u.progress ≡ 0 → (submission_at m.table.submissions t).shape ≡ shape.Image k w h x → IsResultImage m t u }
    ensures curve { (m : Machine) (t : ℕ) (u : ProgressView) (n : ℕ) → IsTrueWork m t u → remaining_tasks u.progress ≡ 0 → (submission_at m.table.submissions t).shape ≡ shape.Curve n → value_at (values m) t ≡ Some (CurveValue (numbers_of u.progress.plan u.planes)) }
{}
