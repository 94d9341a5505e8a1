//! A rank of what is seen is what the operator says.
ghost use Rattle.std.specs.Prelude.{◌≡◌, ℕ, ◌+◌, ◌*◌, ◌<◌, List, Some, slice_get};
ghost use Rattle.mw_model.specs.declared.offsets.Offset.{Offset};
ghost use Rattle.mw_model.specs.declared.offsets.Rect.{Rect};
ghost use Rattle.mw_model.specs.Flat.{rank};
ghost use Rattle.mw_model.specs.Pictures.{Picture, IsPicture, sample};
ghost use Rattle.mw_model.specs.Rectangles.{IsWithin};
ghost use Rattle.mw_model.specs.Rasters.{Raster, cell_at};
ghost use Rattle.mw_tile.specs.mw_pixel.Images.{raster_of};
ghost use Rattle.mw_rank.specs.Ranks.{IsRank};

/// The ranks of the levels of an image are those of the rank filter.
pub fn ranks_are_rank_filter()
    ensures { (f : Picture) (element : List Offset) (k : ℕ) (tile : Rect) (r : Raster ℕ) → IsPicture f → IsWithin tile f.width f.height → IsRank (λ p. p) k (cell_at (raster_of f)) element tile r → (x y : ℕ) → x < tile.width → y < tile.height → slice_get r.cells (y * tile.width + x) ≡ Some (sample (rank element k f) (tile.x + x) (tile.y + y)) }
{}
