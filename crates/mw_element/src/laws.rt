//! What holds of elements: each law is the contract of an empty function.

ghost use Rattle.std.specs.Prelude.{◌≡◌, ◌↔◌, ℕ, List};
ghost use Rattle.mw_model.specs.declared.codes.Code.{Code};
ghost use Rattle.mw_model.specs.Rasters.{Raster};
ghost use Rattle.mw_model.specs.Bitmaps.{IsBitmap};
ghost use Rattle.mw_model.specs.Elements.{ElementRefuses, Figure, IsElement, IsFigure, element_side};
ghost use Rattle.mw_element.specs.BitmapElements.{IsElementOf, IsNoElement};

/// No bytes with an origin are two elements; those that are none have one refusal at most, and an element has none.
pub fn one_element()
    ensures element { (bytes : List ℕ) (ox oy : ℕ) (first second : Figure) → IsElement bytes ox oy first → IsElement bytes ox oy second → first ≡ second }
    ensures refusal { (bytes : List ℕ) (ox oy : ℕ) (c d : Code) → ElementRefuses bytes ox oy c → ElementRefuses bytes ox oy d → c ≡ d }
    ensures either { (bytes : List ℕ) (ox oy : ℕ) (c : Code) (figure : Figure) → ElementRefuses bytes ox oy c → IsElement bytes ox oy figure → ⊥ }
{}

/// The offsets of an element are distinct, there is one, and they stay within the limit of the sides.
pub fn elements_are_figures()
    ensures { (bytes : List ℕ) (ox oy : ℕ) (figure : Figure) → IsElement bytes ox oy figure → IsFigure figure }
{}

/// Bytes that are a bitmap are the element that the bitmap is, and are refused as it is.
pub fn elements_of_bitmaps()
    ensures elements { (bytes : List ℕ) (f : Raster ℕ) (ox oy : ℕ) (figure : Figure) → IsBitmap bytes element_side f → IsElement bytes ox oy figure ↔ IsElementOf f ox oy figure }
    ensures refusals { (bytes : List ℕ) (f : Raster ℕ) (ox oy : ℕ) (c : Code) → IsBitmap bytes element_side f → ElementRefuses bytes ox oy c ↔ IsNoElement f ox oy c }
{}
