//! The limits in digits. Code and definitions cite the same constants, so an edit of one would move both; this law stays.

ghost use Rattle.std.specs.Prelude.{◌≡◌};
ghost use Rattle.mw_model.specs.declared.limits.TheConstants.{ENTRY_LIMIT, SIDE_LIMIT, PIXEL_LIMIT, LEVEL_LIMIT, ELEMENT_SIDE_LIMIT, OFFSET_LIMIT, TURN_LIMIT, SIZE_LIMIT, STEP_LIMIT, TASK_LIMIT, READ_LIMIT, TILE_SIDE_UNIT, TILE_SIDE_LIMIT};

/// What a session takes at most: entries, columns or rows of an image, its pixels and its maxval, columns or rows of an
/// element and its offsets, turns, sizes, steps of a plan, tasks under one ticket, and reads; and the sides of a tile, from
/// the least to the greatest.
pub fn limits()
    ensures entries { ENTRY_LIMIT ≡ 65536 }
    ensures image_side { SIDE_LIMIT ≡ 8192 }
    ensures image_pixels { PIXEL_LIMIT ≡ 16777216 }
    ensures levels { LEVEL_LIMIT ≡ 65535 }
    ensures element_side { ELEMENT_SIDE_LIMIT ≡ 255 }
    ensures element_offsets { OFFSET_LIMIT ≡ 65025 }
    ensures turns { TURN_LIMIT ≡ 254 }
    ensures sizes { SIZE_LIMIT ≡ 32 }
    ensures plan_steps { STEP_LIMIT ≡ 896 }
    ensures ticket_tasks { TASK_LIMIT ≡ 4194304 }
    ensures reads { READ_LIMIT ≡ 4294967295 }
    ensures least_tile { TILE_SIDE_UNIT ≡ 64 }
    ensures greatest_tile { TILE_SIDE_LIMIT ≡ 1024 }
{}
