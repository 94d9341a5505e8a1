//! Whether an element covers what the four or the eight neighbours do.

ghost use Rattle.std.specs.Prelude.{◌≡◌, ◌⊎◌, ℕ, true, IfSome};
ghost use Rattle.mw_geodesic.specs.Neighbours.{ElementCovers, Joins, eight_neighbours, four_neighbours, neighbours_of};
ghost use Rattle.mw_c_geodesic.specs.Alike.{CoverAlike, CoversOthers};

use mw_geodesic::Neighbours;
use mw_model::Offset;

/// Whether one offset leads where the other does.
fn is_same(b: Offset, c: Offset) -> bool
    ensures { result ≡ true → (x y u v : ℕ) → Joins b x y u v → Joins c x y u v }
{
    if b.dx != c.dx {
        return false;
    }
    if b.dy != c.dy {
        return false;
    }
    true
}

/// Whether the offset leads to no other place.
fn is_origin(b: Offset) -> bool
    ensures { result ≡ true → (x y u v : ℕ) → Joins b x y u v → (x ≡ u) × (y ≡ v) }
{
    if b.dx != 0 {
        return false;
    }
    if b.dy != 0 {
        return false;
    }
    true
}

/// Whether the element has an offset.
fn has(element: &[Offset], b: Offset) -> bool
    ensures { result ≡ true → (x y u v : ℕ) → Joins b x y u v → ElementCovers element.now x y u v }
{
    for i in 0..element.len() {
        if is_same(b, element[i]) {
            return true;
        }
    }
    false
}

/// Whether the offset leads to no other place, or the element has it.
fn covers_other(element: &[Offset], b: Offset) -> bool
    ensures { result ≡ true → (x y u v : ℕ) → Joins b x y u v → ElementCovers element.now x y u v ⊎ ((x ≡ u) × (y ≡ v)) }
{
    if is_origin(b) {
        return true;
    }
    has(element, b)
}

/// Whether the element covers from each place what the other one does, but for the place itself.
fn covers_others(element: &[Offset], other: &[Offset]) -> bool
    ensures { result ≡ true → CoversOthers element.now other.now }
{
    for i in 0..other.len() {
        if !covers_other(element, other[i]) {
            return false;
        }
    }
    true
}

/// Whether both elements cover the same from each place, but for the place itself.
fn are_alike(element: &[Offset], other: &[Offset]) -> bool
    ensures { result ≡ true → CoverAlike element.now other.now }
{
    if !covers_others(other, element) {
        return false;
    }
    covers_others(element, other)
}

/// Whether the element covers the four neighbours, and nothing else but the place itself.
fn are_four(element: &[Offset]) -> bool
    ensures { result ≡ true → CoverAlike element.now four_neighbours }
{
    let four = [
        Offset { dx: 0, dy: -1 },
        Offset { dx: -1, dy: 0 },
        Offset { dx: 1, dy: 0 },
        Offset { dx: 0, dy: 1 },
    ];
    are_alike(element, &four)
}

/// Whether the element covers the eight neighbours, and nothing else but the place itself.
fn are_eight(element: &[Offset]) -> bool
    ensures { result ≡ true → CoverAlike element.now eight_neighbours }
{
    let eight = [
        Offset { dx: -1, dy: -1 },
        Offset { dx: 0, dy: -1 },
        Offset { dx: 1, dy: -1 },
        Offset { dx: -1, dy: 0 },
        Offset { dx: 1, dy: 0 },
        Offset { dx: -1, dy: 1 },
        Offset { dx: 0, dy: 1 },
        Offset { dx: 1, dy: 1 },
    ];
    are_alike(element, &eight)
}

/// The neighbours that the element covers, and nothing else but the place itself, if there are such.
pub fn neighbours_in(element: &[Offset]) -> Option<Neighbours>
    ensures { IfSome result (λ n. CoverAlike element.now (neighbours_of n)) }
{
    if are_four(element) {
        return Some(Neighbours::Four);
    }
    if are_eight(element) {
        return Some(Neighbours::Eight);
    }
    None
}
