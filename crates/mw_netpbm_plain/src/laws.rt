//! What holds of plain bitmaps: each law is the contract of an empty function.

ghost use Rattle.std.specs.Prelude.{◌≡◌, ◌<◌, ◌^◌, ℕ, List};
ghost use Rattle.mw_model.specs.declared.codes.Code.{Code};
ghost use Rattle.mw_model.specs.Bitmaps.{BitmapRefuses, IsBitmap};
ghost use Rattle.mw_model.specs.Rasters.{Raster};

/// No bytes are two plain bitmaps, and those that are none have one refusal at most.
pub fn one_bitmap()
    ensures bitmap { (bytes : List ℕ) (side : ℕ) (f g : Raster ℕ) → side < 2 ^ 32 → IsBitmap bytes side f → IsBitmap bytes side g → f ≡ g }
    ensures refusal { (bytes : List ℕ) (side : ℕ) (c d : Code) → side < 2 ^ 32 → BitmapRefuses bytes side c → BitmapRefuses bytes side d → c ≡ d }
    ensures either { (bytes : List ℕ) (side : ℕ) (c : Code) (f : Raster ℕ) → side < 2 ^ 32 → BitmapRefuses bytes side c → IsBitmap bytes side f → ⊥ }
{}
