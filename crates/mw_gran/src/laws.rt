//! What holds of openings, volumes, thresholds and restorations, over the definitions alone, and why a spectrum by a full
//! rectangle may go by boxes. Each function is a law, and does nothing.

ghost use Rattle.std.specs.Prelude.{◌≡◌, ℕ, List};
ghost use Rattle.mw_plan.specs.mw_element.Figures.{FillsBox};
ghost use Rattle.mw_model.specs.declared.offsets.Offset.{Offset};
ghost use Rattle.mw_model.specs.declared.offsets.OffsetBox.{OffsetBox};
ghost use Rattle.mw_model.specs.Flat.{erosion, dilation, reflected};
ghost use Rattle.mw_model.specs.Iterates.{times};
ghost use Rattle.mw_model.specs.Laws.{HoldsOrigin};
ghost use Rattle.mw_model.specs.Pictures.{Picture, IsPicture};
ghost use Rattle.mw_model.specs.Rectangles.{box_offsets};
ghost use Rattle.mw_plan.specs.Steps.{turned_box};
ghost use Rattle.mw_gran.specs.Boxes.{multiplied};

pub use mw_plan::{opening_laws, restorations, skeletons, thresholds, volumes};

/// Erosions by a full rectangle that holds its origin are one erosion by its box with all four bounds multiplied; the same
/// of dilations, also by the rectangle turned round.
pub fn boxes_are_iterates()
    ensures eroded { (box : OffsetBox) (b : List Offset) (n : ℕ) (f : Picture) → FillsBox box b → HoldsOrigin b → IsPicture f → erosion (box_offsets (multiplied n box)) f ≡ times n (erosion b) f }
    ensures dilated { (box : OffsetBox) (b : List Offset) (n : ℕ) (f : Picture) → FillsBox box b → HoldsOrigin b → IsPicture f → dilation (box_offsets (multiplied n box)) f ≡ times n (dilation b) f }
    ensures dilated_back { (box : OffsetBox) (b : List Offset) (n : ℕ) (f : Picture) → FillsBox box b → HoldsOrigin b → IsPicture f → dilation (box_offsets (multiplied n (turned_box box))) f ≡ times n (dilation (reflected b)) f }
{}
