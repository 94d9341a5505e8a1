//! Reading elements from plain bitmaps.

use crate::bitmaps::offsets;
use crate::{Element, ElementFault};
use mw_model::ELEMENT_SIDE_LIMIT;
use mw_netpbm_plain::{read_plain_bitmap, scan_plain_bitmap};
use std::alloc::Global;

impl Element {
    ghost use Rattle.std.specs.Prelude.{◌≡◌, ◌≢◌, IfOk, IfErr, MatchResult, Err};
    ghost use Rattle.mw_model.specs.Elements.{ElementRefuses, Figure, IsElement};
    ghost use Rattle.mw_element.specs.Faults.{element_code_of};

    /// The element that the bytes are, with its origin in column `ox` and row `oy` of the bitmap, or the first case by which
    /// they are none.
    pub fn parse(alloc: Global, bytes: &[u8], ox: u32, oy: u32) -> Result<Element, ElementFault>
        ensures found { IfOk result (λ e. IsElement bytes.now ox oy e) }
        // An element is found, unless memory runs out.
        ensures only { (figure : Figure) → IsElement bytes.now ox oy figure → MatchResult result (λ e. e ≡ figure) (λ f. f ≡ ElementFault.NoMemory) }
        ensures refused { IfErr result (λ f. f ≢ ElementFault.NoMemory → ElementRefuses bytes.now ox oy (element_code_of f)) }
        // Memory is wanting only where the bytes are an element.
        ensures memory { result ≡ Err ElementFault.NoMemory → (figure : Figure) × IsElement bytes.now ox oy figure }
    {
        let facts = scan_plain_bitmap(bytes, ELEMENT_SIDE_LIMIT)?;
        if ox >= facts.width || oy >= facts.height {
            return Err(ElementFault::Origin);
        }
        if facts.ones == 0 {
            return Err(ElementFault::Empty);
        }
        let Ok(bitmap) = read_plain_bitmap(alloc, bytes, ELEMENT_SIDE_LIMIT) else {
            return Err(ElementFault::NoMemory);
        };
        let found = offsets(alloc, &bitmap, ox, oy, facts.ones as usize)?;
        let made = Element::new(alloc, facts.width, facts.height, found)?;
        Ok(made)
    }
}
