//! Why a plane may be made tile by tile. Each function is a law, and does nothing.

ghost use Rattle.std.specs.Prelude.{◌≡◌, ℕ, ◌≤◌, List, [], ◌∷◌, length, All, false};
ghost use Rattle.std.specs.List.{AllByRecursion};
ghost use Rattle.mw_model.specs.declared.offsets.Offset.{Offset};
ghost use Rattle.mw_model.specs.declared.offsets.Rect.{Rect};
ghost use Rattle.mw_model.specs.declared.limits.TheConstants.{SIDE_LIMIT};
ghost use Rattle.mw_model.specs.Flat.{erosion, dilation, minus, threshold, complement, rank};
ghost use Rattle.mw_model.specs.Rectangles.{rect};
ghost use Rattle.mw_model.specs.Pictures.{Picture, IsPicture};
ghost use Rattle.mw_model.specs.Plans.{is_sum, plane_of};
ghost use Rattle.mw_model.specs.PlanSteps.{PlanStep};
ghost use Rattle.mw_model.specs.PlanSteps as plan;
ghost use Rattle.mw_model.specs.Tasks.{made_of_planes};
ghost use Rattle.mw_step_task.specs.WindowTasks.{made_of_windows, WindowTask, FitsStep, KindsFit, IsBounded, source_count, tile_made};
ghost use Rattle.mw_tile_pieces.specs.mw_tile.Windows.{SourceWindow};
ghost use Rattle.mw_step_task.specs.Sources.{AreCut};

/// What a task makes of windows of whole planes is what its step makes there of the planes.
pub fn tile_of_windows_is_tile_of_planes()
    ensures { (s : PlanStep) (sources : List Picture) (width height : ℕ) (tile : Rect) (windows : List SourceWindow) → AreCut s sources width height tile windows → made_of_windows s windows tile ≡ made_of_planes s sources tile }
{}

/// What a step makes in the whole frame is its plane.
pub fn whole_tile_is_plane()
    ensures { (s : PlanStep) (sources : List Picture) (width height : ℕ) → is_sum s ≡ false → made_of_planes s sources (rect 0 0 width height) ≡ (plane_of s sources width height).samples }
{}

/// The planes of steps are the operators.
pub fn planes_are_operators()
    ensures erosion { (e : List Offset) (f : Picture) → plane_of (plan.Erode e) (f ∷ []) f.width f.height ≡ erosion e f }
    ensures dilation { (e : List Offset) (f : Picture) → plane_of (plan.Dilate e) (f ∷ []) f.width f.height ≡ dilation e f }
    ensures rank { (e : List Offset) (k : ℕ) (f : Picture) → plane_of (plan.Rank e k) (f ∷ []) f.width f.height ≡ rank e k f }
    ensures minus { (f g : Picture) → g.width ≡ f.width → g.height ≡ f.height → plane_of plan.Minus (f ∷ g ∷ []) f.width f.height ≡ minus f g }
    ensures threshold { (k : ℕ) (f : Picture) → plane_of (plan.AtLeast k) (f ∷ []) f.width f.height ≡ threshold k f }
    ensures complement { (f : Picture) → plane_of plan.Invert (f ∷ []) f.width f.height ≡ complement f }
{}

/// Windows that were cut from images of the frame are those that the step reads, if they are as many as its sources and
/// of such kinds.
pub fn cut_windows_fit()
    ensures { (s : PlanStep) (sources : List Picture) (width height : ℕ) (tile : Rect) (windows : List SourceWindow) → AreCut s sources width height tile windows → width ≤ SIDE_LIMIT → height ≤ SIDE_LIMIT → 1 ≤ tile.width → 1 ≤ tile.height → length sources ≡ source_count s → KindsFit s windows → FitsStep s tile windows }
{}

/// No sample of a window that was cut from an image is over the image's maxval.
pub fn cut_windows_are_bounded()
    ensures { (s : PlanStep) (sources : List Picture) (width height : ℕ) (tile : Rect) (windows : List SourceWindow) → AreCut s sources width height tile windows → AllByRecursion IsPicture sources → AllByRecursion IsBounded windows }
{}

/// No sample that a task makes is over the maxval of its step.
pub fn made_is_bounded()
    ensures { (t : WindowTask) → FitsStep t.step t.rect t.windows → AllByRecursion IsBounded t.windows → is_sum t.step ≡ false → All (λ n. n ≤ (tile_made t).maxval) (tile_made t).samples }
{}
