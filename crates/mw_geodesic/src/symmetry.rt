//! Whether an element shows each place what that place shows to it.

ghost use Rattle.std.specs.Prelude.{◌≡◌, ℕ, true, false};
ghost use Rattle.mw_geodesic.specs.Neighbours.{ElementCovers, IsSymmetric, Joins};

use mw_model::Offset;

/// Whether one offset leads back where the other came from.
fn is_opposite(b: Offset, c: Offset) -> bool
    ensures opposite { result ≡ true → (x y u v : ℕ) → Joins b x y u v → Joins c u v x y }
    ensures other { result ≡ false → (x y u v : ℕ) → Joins b x y u v → Joins c u v x y → ⊥ }
{
    let dx = i32::from(b.dx) + i32::from(c.dx);
    let dy = i32::from(b.dy) + i32::from(c.dy);
    if dx != 0 {
        return false;
    }
    if dy != 0 {
        return false;
    }
    true
}

/// Whether an offset of the element leads back where this one came from.
fn leads_back(element: &[Offset], b: Offset) -> bool
    ensures back { result ≡ true → (x y u v : ℕ) → Joins b x y u v → ElementCovers element.now u v x y }
    ensures nowhere { result ≡ false → (x y u v : ℕ) → Joins b x y u v → ElementCovers element.now u v x y → ⊥ }
{
    for i in 0..element.len() {
        if is_opposite(b, element[i]) {
            return true;
        }
    }
    false
}

/// Whether each offset of the element has its opposite there.
pub fn is_symmetric(element: &[Offset]) -> bool
    ensures symmetric { result ≡ true → IsSymmetric element.now }
    ensures one_way { result ≡ false → IsSymmetric element.now → ⊥ }
{
    for i in 0..element.len() {
        if !leads_back(element, element[i]) {
            return false;
        }
    }
    true
}
