//! A sliding extremum of samples is what the operators say.
ghost use Rattle.std.specs.Prelude.{◌≡◌, ℕ, ℤ, ◌+◌, ◌*◌, ◌<◌, List, Some, min, max, fold, slice_get};
ghost use Rattle.mw_model.specs.declared.offsets.Offset.{Offset};
ghost use Rattle.mw_model.specs.declared.offsets.Rect.{Rect};
ghost use Rattle.mw_model.specs.Flat.{least, greatest, erosion, dilation};
ghost use Rattle.mw_model.specs.Pictures.{Picture, IsPicture, sample};
ghost use Rattle.mw_model.specs.Rectangles.{IsWithin};
ghost use Rattle.mw_model.specs.Rasters.{Raster, cell_at};
ghost use Rattle.mw_tile.specs.mw_pixel.Images.{raster_of};
ghost use Rattle.mw_line.specs.Extrema.{IsSlidingExtremum};
ghost use Rattle.mw_line.specs.Line.{line_at, segment, row_samples};

/// A sliding minimum with the maxval as the neutral sample is the erosion.
pub fn sliding_minimum_is_erosion()
    ensures fold { (top : ℕ) (ns : List ℕ) → fold min top ns ≡ least top ns }
    ensures tile { (f : Picture) (element : List Offset) (tile : Rect) (r : Raster ℕ) → IsPicture f → IsWithin tile f.width f.height → IsSlidingExtremum min f.maxval (cell_at (raster_of f)) element tile r → (x y : ℕ) → x < tile.width → y < tile.height → slice_get r.cells (y * tile.width + x) ≡ Some (sample (erosion element f) (tile.x + x) (tile.y + y)) }
{}

/// A sliding maximum with 0 as the neutral sample is the dilation.
pub fn sliding_maximum_is_dilation()
    ensures fold { (ns : List ℕ) → fold max 0 ns ≡ greatest ns }
    ensures tile { (f : Picture) (element : List Offset) (tile : Rect) (r : Raster ℕ) → IsPicture f → IsWithin tile f.width f.height → IsSlidingExtremum max 0 (cell_at (raster_of f)) element tile r → (x y : ℕ) → x < tile.width → y < tile.height → slice_get r.cells (y * tile.width + x) ≡ Some (sample (dilation element f) (tile.x + x) (tile.y + y)) }
{}

/// In each row of an image the extremum of each window is the operator by the element of the offsets from (a, 0) to (b, 0).
pub fn windows_of_a_row_are_operators()
    ensures erosion { (f : Picture) (a b : ℤ) → IsPicture f → (x y : ℕ) → x < f.width → y < f.height → sample (erosion (segment a b) f) x y ≡ line_at min f.maxval (row_samples f y) a b x }
    ensures dilation { (f : Picture) (a b : ℤ) → IsPicture f → (x y : ℕ) → x < f.width → y < f.height → sample (dilation (segment a b) f) x y ≡ line_at max 0 (row_samples f y) a b x }
{}
