//! What operators make at one place, in words of one pixel: each law is the contract of an empty function.

ghost use Rattle.std.specs.Prelude.{◌≡◌, ℕ, ◌+◌, ◌-◌, ◌*◌, ◌<◌, List, length, min, nat_le, if◌then◌else◌, slice_index};
ghost use Rattle.mw_model.specs.declared.offsets.Offset.{Offset};
ghost use Rattle.mw_model.specs.Flat.{dilation, erosion, greatest, in_rising_order, least, rank, threshold, under};
ghost use Rattle.mw_model.specs.Pictures.{Picture, sample};

/// The sample number `y * width + x` is that of column x and row y: of an erosion the least sample under the element or the
/// maxval, of a dilation the greatest or 0, of a rank the k-th in rising order, of a threshold whether the sample is k or more.
pub fn one_pixel()
    ensures erosion { (e : List Offset) (f : Picture) (x y : ℕ) → x < f.width → y < f.height → slice_index (erosion e f).samples (y * f.width + x) ≡ least f.maxval (under f e x y) }
    ensures dilation { (e : List Offset) (f : Picture) (x y : ℕ) → x < f.width → y < f.height → slice_index (dilation e f).samples (y * f.width + x) ≡ greatest (under f e x y) }
    ensures rank { (e : List Offset) (k : ℕ) (f : Picture) (x y : ℕ) → x < f.width → y < f.height → slice_index (rank e k f).samples (y * f.width + x) ≡ slice_index (in_rising_order (under f e x y)) (min k (length (under f e x y)) - 1) }
    ensures threshold { (k : ℕ) (f : Picture) (x y : ℕ) → x < f.width → y < f.height → slice_index (threshold k f).samples (y * f.width + x) ≡ (if nat_le k (sample f x y) then 1 else 0) }
{}
