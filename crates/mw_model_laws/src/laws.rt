//! What holds of the operators. Each function is a law, and does nothing.

ghost use Rattle.std.specs.Prelude.{fold, min, max, ◌≡◌, [], ◌∷◌, ◌++◌, ◌↔◌, ◌⊎◌, ◌+◌, ◌-◌, ◌*◌, ℕ, ◌<◌, ◌≤◌, List, length, All, Contains, count_by, nat_le, nat_lt, slice_index, flat_map, IsTrue, codes, decimal};
ghost use Rattle.std.specs.List.{range_with_len};
ghost use Rattle.std.specs.List.Sorted.{IsNonDecreasing, IsPermutation};
ghost use Rattle.mw_model.specs.declared.offsets.Offset.{Offset};
ghost use Rattle.mw_model.specs.Pictures.{Picture, sample, IsPicture, IsSet};
ghost use Rattle.mw_model.specs.Flat.{under, minus, rank, in_rising_order, least, greatest, erosion, dilation, opening, closing, reflected, gradient, white_top_hat, black_top_hat, threshold, complement, hit_or_miss, set_hit_or_miss};
ghost use Rattle.mw_model.specs.Iterates.{times, rectangle, volume, spectrum, is_residue, level_set, skeleton, restoration};
ghost use Rattle.mw_model.specs.Curves.{line, volume_lines, fall_lines, rest_line};
ghost use Rattle.mw_model.specs.Laws.{Below, SameShape, HoldsOrigin};

/// Dilation by the reflected element and erosion are adjoint, on images of one shape.
pub fn adjoint()
    ensures { (f g : Picture) (b : List Offset) → IsPicture g → SameShape g f → (Below (dilation (reflected b) g) f ↔ Below g (erosion b f)) }
{}

/// An opening is anti-extensive (never above its image) and idempotent (opening twice is opening once).
pub fn opening_laws()
    ensures anti_extensive { (b : List Offset) (f : Picture) → Below (opening b f) f }
    ensures idempotent { (b : List Offset) (f : Picture) → opening b (opening b f) ≡ opening b f }
{}

/// A closing is extensive (never below its image) and idempotent (closing twice is closing once).
pub fn closing_laws()
    ensures extensive { (b : List Offset) (f : Picture) → IsPicture f → Below f (closing b f) }
    ensures idempotent { (b : List Offset) (f : Picture) → IsPicture f → closing b (closing b f) ≡ closing b f }
{}

/// Erosion and dilation are increasing: they keep the order of images.
pub fn increasing()
    ensures erosion { (b : List Offset) (f g : Picture) → SameShape f g → Below f g → Below (erosion b f) (erosion b g) }
    ensures dilation { (b : List Offset) (f g : Picture) → SameShape f g → Below f g → Below (dilation b f) (dilation b g) }
{}

/// The least and the greatest bound the numbers, and are among them or the neutral.
pub fn extrema()
    ensures below { (top : ℕ) (ns : List ℕ) → All (λ n. least top ns ≤ n) ns }
    ensures least { (top : ℕ) (ns : List ℕ) → ((least top ns ≡ top) ⊎ Contains ns (least top ns)) }
    ensures among { (top n : ℕ) (ns : List ℕ) → All (λ m. m ≤ top) (n ∷ ns) → Contains (n ∷ ns) (least top (n ∷ ns)) }
    ensures folded { (top : ℕ) (ns : List ℕ) → fold (λ a n. min a n) top ns ≡ least top ns }
    ensures above { (ns : List ℕ) → All (λ n. n ≤ greatest ns) ns }
    ensures folded_up { (ns : List ℕ) → fold (λ a n. max a n) 0 ns ≡ greatest ns }
    ensures greatest { (ns : List ℕ) → ((greatest ns ≡ 0) ⊎ Contains ns (greatest ns)) }
{}

/// Thresholds commute with flat operators.
pub fn thresholds()
    ensures eroded { (k : ℕ) (b : List Offset) (f : Picture) → 1 ≤ k → k ≤ f.maxval → threshold k (erosion b f) ≡ erosion b (threshold k f) }
    ensures dilated { (k : ℕ) (b : List Offset) (f : Picture) → 1 ≤ k → k ≤ f.maxval → threshold k (dilation b f) ≡ dilation b (threshold k f) }
    ensures opened { (k : ℕ) (b : List Offset) (f : Picture) → 1 ≤ k → k ≤ f.maxval → threshold k (opening b f) ≡ opening b (threshold k f) }
    ensures closed { (k : ℕ) (b : List Offset) (f : Picture) → 1 ≤ k → k ≤ f.maxval → threshold k (closing b f) ≡ closing b (threshold k f) }
{}

/// On sets the hit-or-miss transform is the set formula.
pub fn hits_of_sets()
    ensures { (hit miss : List Offset) (f : Picture) → IsSet f → hit_or_miss hit miss f ≡ set_hit_or_miss hit miss f }
{}

/// The volumes of a spectrum never rise.
pub fn volumes()
    ensures { (b : List Offset) (n : ℕ) (f : Picture) → IsPicture f → volume b (n + 1) f ≤ volume b n f }
{}

/// Erosions by a full rectangle that holds its origin are one erosion by the multiplied rectangle.
pub fn boxes()
    ensures eroded { (left right up down n : ℕ) (f : Picture) → IsPicture f → times n (erosion (rectangle left right up down)) f ≡ erosion (rectangle (n * left) (n * right) (n * up) (n * down)) f }
    ensures dilated { (left right up down n : ℕ) (f : Picture) → IsPicture f → times n (dilation (rectangle left right up down)) f ≡ dilation (rectangle (n * left) (n * right) (n * up) (n * down)) f }
    ensures turned { (left right up down n : ℕ) (f : Picture) → IsPicture f → times n (dilation (reflected (rectangle left right up down))) f ≡ dilation (rectangle (n * right) (n * left) (n * down) (n * up)) f }
{}

/// A full rectangle is a column of rows.
pub fn columns_of_rows()
    ensures eroded { (left right up down : ℕ) (f : Picture) → erosion (rectangle 0 0 up down) (erosion (rectangle left right 0 0) f) ≡ erosion (rectangle left right up down) f }
    ensures dilated { (left right up down : ℕ) (f : Picture) → dilation (rectangle 0 0 up down) (dilation (rectangle left right 0 0) f) ≡ dilation (rectangle left right up down) f }
{}

/// A skeleton is enough to restore its set.
pub fn skeletons()
    ensures { (b : List Offset) (depth : ℕ) (f : Picture) → HoldsOrigin b → IsSet f → restoration b depth (skeleton b depth f) ≡ f }
{}

/// Numbers in rising order are the same numbers, with as many repeats.
pub fn rising_order()
    ensures sorted { (ns : List ℕ) → IsNonDecreasing (in_rising_order ns) }
    ensures permutation { (ns : List ℕ) → IsPermutation ns (in_rising_order ns) }
{}

/// The rank filter gives one of the samples under the element: fewer than k of them are below it, and k or more are not
/// above it. Where fewer than k samples are under the element, their number stands for k.
pub fn ranks()
    ensures among { (b : List Offset) (k : ℕ) (f : Picture) (x y : ℕ) → x < f.width → y < f.height → 1 ≤ k → 1 ≤ length (under f b x y) → Contains (under f b x y) (sample (rank b k f) x y) }
    ensures few_below { (b : List Offset) (k : ℕ) (f : Picture) (x y : ℕ) → x < f.width → y < f.height → 1 ≤ k → 1 ≤ length (under f b x y) → count_by (λ s. nat_lt s (sample (rank b k f) x y)) (under f b x y) < min k (length (under f b x y)) }
    ensures enough_up_to { (b : List Offset) (k : ℕ) (f : Picture) (x y : ℕ) → x < f.width → y < f.height → 1 ≤ k → 1 ≤ length (under f b x y) → min k (length (under f b x y)) ≤ count_by (λ s. nat_le s (sample (rank b k f) x y)) (under f b x y) }
{}

/// A spectrum has one volume for each number of erosions up to the depth.
pub fn spectra()
    ensures count { (b : List Offset) (depth : ℕ) (f : Picture) → length (spectrum b depth f) ≡ depth + 1 }
    ensures volume { (b : List Offset) (depth n : ℕ) (f : Picture) → n ≤ depth → slice_index (spectrum b depth f) n ≡ volume b n f }
{}

/// The text of a curve has a line for each volume, a line for each fall from a volume to the next, and a line with the
/// last volume.
pub fn curves()
    ensures volumes { (vs : List ℕ) → volume_lines 0 vs ≡ flat_map (λ n. line (codes "V ") n (slice_index vs n)) (range_with_len 0 (length vs)) }
    ensures falls { (vs : List ℕ) → fall_lines 0 vs ≡ flat_map (λ n. line (codes "S ") n (slice_index vs n - slice_index vs (n + 1))) (range_with_len 0 (length vs - 1)) }
    ensures rest { (vs : List ℕ) (v : ℕ) → rest_line (vs ++ v ∷ []) ≡ codes "R " ++ decimal v ++ 10 ∷ [] }
{}

/// An operator done n times is done once more for n + 1, and m + n times are n times and then m times.
pub fn iterates()
    ensures none { (operator : Picture → Picture) (f : Picture) → times 0 operator f ≡ f }
    ensures one_more { (operator : Picture → Picture) (n : ℕ) (f : Picture) → times (n + 1) operator f ≡ operator (times n operator f) }
    ensures sum { (operator : Picture → Picture) (m n : ℕ) (f : Picture) → times (m + n) operator f ≡ times m operator (times n operator f) }
{}

/// For an element that holds its origin, no place is in two residues, or in a residue and in what the last erosion
/// leaves; and the skeleton marks each residue, and what is left, by its number of erosions and 1.
pub fn residues()
    ensures disjoint { (b : List Offset) (depth : ℕ) (f : Picture) (x y : ℕ) → HoldsOrigin b → IsSet f → x < f.width → y < f.height → (n m : ℕ) → IsTrue (is_residue b (times n (erosion b) f) x y) → IsTrue (is_residue b (times m (erosion b) f) x y) → n ≡ m }
    ensures not_last { (b : List Offset) (depth : ℕ) (f : Picture) (x y : ℕ) → HoldsOrigin b → IsSet f → x < f.width → y < f.height → (n : ℕ) → n < depth → IsTrue (is_residue b (times n (erosion b) f) x y) → sample (times depth (erosion b) f) x y ≡ 0 }
    ensures marked { (b : List Offset) (depth : ℕ) (f : Picture) (x y : ℕ) → HoldsOrigin b → IsSet f → x < f.width → y < f.height → (n : ℕ) → n < depth → ((sample (skeleton b depth f) x y ≡ n + 1) ↔ IsTrue (is_residue b (times n (erosion b) f) x y)) }
    ensures last_marked { (b : List Offset) (depth : ℕ) (f : Picture) (x y : ℕ) → HoldsOrigin b → IsSet f → x < f.width → y < f.height → ((sample (skeleton b depth f) x y ≡ depth + 1) ↔ (sample (times depth (erosion b) f) x y ≡ 1)) }
{}

/// A place is restored if it is in the n-fold dilation of the places marked n + 1, for some n up to the depth.
pub fn restorations()
    ensures { (b : List Offset) (depth : ℕ) (g : Picture) (x y : ℕ) → x < g.width → y < g.height → ((sample (restoration b depth g) x y ≡ 1) ↔ ((n : ℕ) × (n ≤ depth) × (sample (times n (dilation (reflected b)) (level_set (n + 1) g)) x y ≡ 1))) }
{}

/// Erosion and dilation are dual by the complement, and the complement taken twice is the image.
pub fn duality()
    ensures eroded { (b : List Offset) (f : Picture) → erosion b (complement f) ≡ complement (dilation b f) }
    ensures dilated { (b : List Offset) (f : Picture) → IsPicture f → dilation b (complement f) ≡ complement (erosion b f) }
    ensures twice { (f : Picture) → IsPicture f → complement (complement f) ≡ f }
{}

/// The operators give images, whose samples are up to the maxval.
pub fn images()
    ensures eroded { (b : List Offset) (f : Picture) → IsPicture (erosion b f) }
    ensures dilated { (b : List Offset) (f : Picture) → IsPicture f → IsPicture (dilation b f) }
    ensures opened { (b : List Offset) (f : Picture) → IsPicture (opening b f) }
    ensures closed { (b : List Offset) (f : Picture) → IsPicture (closing b f) }
    ensures less { (f g : Picture) → IsPicture f → IsPicture (minus f g) }
    ensures gradient { (b : List Offset) (f : Picture) → IsPicture f → IsPicture (gradient b f) }
    ensures white { (b : List Offset) (f : Picture) → IsPicture f → IsPicture (white_top_hat b f) }
    ensures black { (b : List Offset) (f : Picture) → IsPicture (black_top_hat b f) }
    ensures cut { (k : ℕ) (f : Picture) → IsPicture (threshold k f) }
    ensures complemented { (f : Picture) → IsPicture (complement f) }
    ensures hit { (hit miss : List Offset) (f : Picture) → IsPicture (hit_or_miss hit miss f) }
    ensures ranked { (b : List Offset) (k : ℕ) (f : Picture) → IsPicture f → IsPicture (rank b k f) }
    ensures marked { (b : List Offset) (depth : ℕ) (f : Picture) → IsPicture (skeleton b depth f) }
    ensures restored { (b : List Offset) (depth : ℕ) (g : Picture) → IsPicture (restoration b depth g) }
{}

/// Of a set the operators give sets.
pub fn sets()
    ensures eroded { (b : List Offset) (f : Picture) → IsSet f → IsSet (erosion b f) }
    ensures dilated { (b : List Offset) (f : Picture) → IsSet f → IsSet (dilation b f) }
    ensures opened { (b : List Offset) (f : Picture) → IsSet f → IsSet (opening b f) }
    ensures closed { (b : List Offset) (f : Picture) → IsSet f → IsSet (closing b f) }
    ensures complemented { (f : Picture) → IsSet f → IsSet (complement f) }
    ensures hit { (hit miss : List Offset) (f : Picture) → IsSet f → IsSet (hit_or_miss hit miss f) }
    ensures hit_by_sets { (hit miss : List Offset) (f : Picture) → IsSet f → IsSet (set_hit_or_miss hit miss f) }
    ensures cut { (k : ℕ) (f : Picture) → IsSet (threshold k f) }
    ensures restored { (b : List Offset) (depth : ℕ) (g : Picture) → IsSet (restoration b depth g) }
{}
