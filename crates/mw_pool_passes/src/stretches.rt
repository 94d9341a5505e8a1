//! The receipts of one pass over a stretch of the log.

ghost use Rattle.std.specs.Prelude.{◌≡◌, ◌<◌, ◌≤◌, ◌+◌, ℕ, length, slice_index, slice_index_or, min};
ghost use Rattle.mw_model.specs.declared.receipts.Receipt.{Receipt};
ghost use Rattle.mw_model.specs.Receipts.{Rises};
ghost use Rattle.mw_pool_passes.specs.Blocks.{of_place};

use mw_model::Receipt;

/// How many places a stretch has.
pub(crate) const BLOCK: usize = 4096;

/// The first of the receipts that is of this place or one behind it, by halves.
fn first_from(receipts: &[Receipt], place: usize) -> usize
    requires { Rises receipts.now }
    ensures within { result ≤ length receipts.now }
    ensures before { (k : ℕ) (d : Receipt) → k < result → (slice_index_or receipts.now k d).place < place }
    ensures behind { (k : ℕ) (d : Receipt) → result ≤ k → k < length receipts.now → place ≤ (slice_index_or receipts.now k d).place }
{
    let (mut low, mut high) = (0, receipts.len());
    'halving: while low < high {
        let middle = low + (high - low) / 2;
        if receipts[middle].place < place {
            low = middle + 1;
        } else {
            high = middle;
        }
    }
    low
}

/// Adds the receipts of each place of the stretch that begins here. A count stops at 255.
pub(crate) fn tally(receipts: &[Receipt], base: usize, counts: &mut [u8])
    requires rising { Rises receipts.now }
    requires size { length counts.old ≡ 4096 }
    ensures { (k : ℕ) → k < 4096 → slice_index counts.new k ≡ min 255 (slice_index counts.old k + of_place receipts.now (base + k)) }
{
    for i in first_from(receipts, base)..receipts.len() {
        let offset = receipts[i].place - base;
        if offset >= BLOCK {
            return;
        }
        counts[offset] = counts[offset].saturating_add(1);
    }
}
