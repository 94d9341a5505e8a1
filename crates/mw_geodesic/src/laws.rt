//! What holds of the operators. Each function is a law, and does nothing.

ghost use Rattle.std.specs.Prelude.{◌≡◌, ◌↔◌, ◌⊎◌, ℕ, ◌<◌, ◌≤◌, List, true};
ghost use Rattle.mw_model.specs.declared.offsets.Offset.{Offset};
ghost use Rattle.mw_model.specs.Pictures.{Picture, sample, IsPicture, IsSet};
ghost use Rattle.mw_model.specs.Flat.{complement, reflected, erosion, dilation};
ghost use Rattle.mw_model.specs.Iterates.{times};
ghost use Rattle.mw_model.specs.Laws.{Below, SameShape, HoldsOrigin};
ghost use Rattle.mw_geodesic.specs.Neighbours.{ElementCovers, IsSymmetric, four_neighbours, eight_neighbours};
ghost use Rattle.mw_geodesic.specs.Geodesics.{meet, geodesic_dilation, reconstruction, reconstruction_by_erosion};
ghost use Rattle.mw_geodesic.specs.Paths.{Joined};
ghost use Rattle.mw_geodesic.specs.Reconstructions.{opening_by_reconstruction, closing_by_reconstruction, at_border, holes_filled, border_cleared};
ghost use Rattle.mw_geodesic.specs.Extrema.{lowered_by, regional_maxima};
ghost use Rattle.mw_geodesic.specs.Components.{component, area, area_opening};
ghost use Rattle.mw_geodesic.specs.Labels.{IsLabelling};

/// The four and the eight neighbours are symmetric.
pub fn neighbours()
    ensures four { IsSymmetric four_neighbours }
    ensures eight { IsSymmetric eight_neighbours }
{}

/// A reconstruction is the least image above the marker, cut to the mask, that geodesic dilation leaves as it is.
pub fn fixed_points()
    ensures above { (b : List Offset) (mask marker : Picture) → Below (meet marker mask) (reconstruction b mask marker) }
    ensures within { (b : List Offset) (mask marker : Picture) → Below (reconstruction b mask marker) mask }
    ensures fixed { (b : List Offset) (mask marker : Picture) → geodesic_dilation b mask (reconstruction b mask marker) ≡ reconstruction b mask marker }
    ensures least { (b : List Offset) (mask marker h : Picture) → SameShape h marker → Below (meet marker mask) h → Below (geodesic_dilation b mask h) h → Below (reconstruction b mask marker) h }
{}

/// It is at a level exactly where a path leads within that level of the mask to that level of the marker.
pub fn paths()
    ensures { (b : List Offset) (mask marker : Picture) (k x y : ℕ) → x < marker.width → y < marker.height → 1 ≤ k → ((k ≤ sample (reconstruction b mask marker) x y) ↔ Joined b mask marker k x y) }
{}

/// Reconstruction is increasing: it keeps the order of masks and of markers.
pub fn increasing()
    ensures { (b : List Offset) (f g m n : Picture) → SameShape f m → SameShape m n → Below f g → Below m n → Below (reconstruction b f m) (reconstruction b g n) }
{}

/// Reconstruction is idempotent: from its result, and within its result, the same is reconstructed.
pub fn idempotent()
    ensures marker { (b : List Offset) (mask marker : Picture) → reconstruction b mask (reconstruction b mask marker) ≡ reconstruction b mask marker }
    ensures mask { (b : List Offset) (mask marker : Picture) → reconstruction b (reconstruction b mask marker) marker ≡ reconstruction b mask marker }
{}

/// Reconstruction and closing by reconstruction are dual to reconstruction by erosion and opening by reconstruction.
pub fn duality()
    ensures reconstruction { (b : List Offset) (mask marker : Picture) → IsPicture marker → IsPicture mask → SameShape mask marker → reconstruction_by_erosion b mask marker ≡ complement (reconstruction b (complement mask) (complement marker)) }
    ensures opening { (around b : List Offset) (n : ℕ) (f : Picture) → IsPicture f → closing_by_reconstruction around b n f ≡ complement (opening_by_reconstruction around b n (complement f)) }
{}

/// An opening by reconstruction is anti-extensive and increasing. It is idempotent where the opening by as many
/// erosions and dilations is below it; so it is by an element that holds its origin and otherwise covers neighbours
/// alone.
pub fn openings_by_reconstruction()
    ensures anti_extensive { (around b : List Offset) (n : ℕ) (f : Picture) → Below (opening_by_reconstruction around b n f) f }
    ensures increasing { (around b : List Offset) (n : ℕ) (f g : Picture) → SameShape f g → Below f g → Below (opening_by_reconstruction around b n f) (opening_by_reconstruction around b n g) }
    ensures idempotent { (around b : List Offset) (n : ℕ) (f : Picture) → IsPicture f → Below (times n (dilation (reflected b)) (times n (erosion b) f)) (opening_by_reconstruction around b n f) → opening_by_reconstruction around b n (opening_by_reconstruction around b n f) ≡ opening_by_reconstruction around b n f }
    ensures by_neighbours { (around b : List Offset) (n : ℕ) (f : Picture) → IsSymmetric around → HoldsOrigin b → ((x y u v : ℕ) → ElementCovers b x y u v → (ElementCovers around x y u v ⊎ ((x ≡ u) × (y ≡ v)))) → IsPicture f → opening_by_reconstruction around b n (opening_by_reconstruction around b n f) ≡ opening_by_reconstruction around b n f }
{}

/// Filling is extensive, changes nothing at the border, and is idempotent.
pub fn fillings()
    ensures extensive { (b : List Offset) (f : Picture) → IsPicture f → Below f (holes_filled b f) }
    ensures border { (b : List Offset) (f : Picture) → IsPicture f → (x y : ℕ) → x < f.width → y < f.height → at_border f x y ≡ true → sample (holes_filled b f) x y ≡ sample f x y }
    ensures idempotent { (b : List Offset) (f : Picture) → IsPicture f → holes_filled b (holes_filled b f) ≡ holes_filled b f }
{}

/// Clearing is anti-extensive, leaves nothing at the border, and is idempotent.
pub fn clearings()
    ensures anti_extensive { (b : List Offset) (f : Picture) → Below (border_cleared b f) f }
    ensures border { (b : List Offset) (f : Picture) (x y : ℕ) → x < f.width → y < f.height → at_border f x y ≡ true → sample (border_cleared b f) x y ≡ 0 }
    ensures idempotent { (b : List Offset) (f : Picture) → border_cleared b (border_cleared b f) ≡ border_cleared b f }
{}

/// A place is in a regional maximum exactly where it is over 0 and no path at its level leads to a higher place.
pub fn maxima()
    ensures { (b : List Offset) (f : Picture) (x y : ℕ) → x < f.width → y < f.height → ((sample (regional_maxima b f) x y ≡ 1) ↔ ((1 ≤ sample f x y) × (Joined b f (lowered_by 1 f) (sample f x y) x y → ⊥))) }
{}

/// Under a symmetric element each place of a set is in its own component, and a component is that of each of its
/// places: so two of them are one, or have no place in common.
pub fn components()
    ensures own { (b : List Offset) (f : Picture) (x y : ℕ) → IsSet f → x < f.width → y < f.height → sample f x y ≡ 1 → sample (component b f x y) x y ≡ 1 }
    ensures one { (b : List Offset) (f : Picture) (x y u v : ℕ) → IsSymmetric b → IsSet f → x < f.width → y < f.height → sample (component b f u v) x y ≡ 1 → component b f x y ≡ component b f u v }
{}

/// A set has one labelling.
pub fn labellings()
    ensures { (b : List Offset) (f : Picture) (count : ℕ) (labels : List ℕ) (count' : ℕ) (labels' : List ℕ) → IsSet f → IsLabelling b f count labels → IsLabelling b f count' labels' → labels ≡ labels' }
{}

/// The area opening of a set is the union of its components that are large enough, and is an opening.
pub fn area_openings_of_sets()
    ensures union { (b : List Offset) (a : ℕ) (f : Picture) (x y : ℕ) → IsSet f → x < f.width → y < f.height → ((sample (area_opening b a f) x y ≡ 1) ↔ ((sample f x y ≡ 1) × (a ≤ area (component b f x y)))) }
    ensures anti_extensive { (b : List Offset) (a : ℕ) (f : Picture) → IsSet f → Below (area_opening b a f) f }
    ensures increasing { (b : List Offset) (a : ℕ) (f g : Picture) → IsSet f → IsSet g → SameShape f g → Below f g → Below (area_opening b a f) (area_opening b a g) }
    ensures idempotent { (b : List Offset) (a : ℕ) (f : Picture) → IsSymmetric b → IsSet f → area_opening b a (area_opening b a f) ≡ area_opening b a f }
{}
