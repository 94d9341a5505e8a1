//! Worked examples: what the operators give on small images. Each function is a computed row, and does nothing.

ghost use Rattle.std.specs.Prelude.{◌-◌, map, min, ◌≡◌, ◌+◌, ◌∷◌, ◌++◌, [], codes};
ghost use Rattle.std.specs.List.{range_with_len};
ghost use Rattle.mw_model_laws.specs.Examples.{grey_row, bit_row, five_samples, centred_bar, left_pixel, origin_pixel, right_pixel, two_ends, two_ends_doubled};
ghost use Rattle.mw_model.specs.Flat.{erosion, dilation, opening, closing, gradient, white_top_hat, black_top_hat, threshold, complement, rank, hit_or_miss, set_hit_or_miss};
ghost use Rattle.mw_model.specs.Iterates.{skeleton, restoration, spectrum, rectangle};
ghost use Rattle.mw_model.specs.Curves.{curve_text};

/// The least of each sample and its neighbours; by the pixel to the right, each sample's right neighbour, and the
/// maxval where there is none.
pub fn erosion_of_five_samples()
    ensures centred { erosion centred_bar five_samples ≡ grey_row 9 (1 ∷ 1 ∷ 1 ∷ 1 ∷ 1 ∷ []) }
    ensures off_centre { erosion right_pixel five_samples ≡ grey_row 9 (1 ∷ 4 ∷ 1 ∷ 5 ∷ 9 ∷ []) }
{}

/// The greatest of each sample and its neighbours; by the pixel to the right, each sample's right neighbour, and 0
/// where there is none.
pub fn dilation_of_five_samples()
    ensures centred { dilation centred_bar five_samples ≡ grey_row 9 (3 ∷ 4 ∷ 4 ∷ 5 ∷ 5 ∷ []) }
    ensures off_centre { dilation right_pixel five_samples ≡ grey_row 9 (1 ∷ 4 ∷ 1 ∷ 5 ∷ 0 ∷ []) }
{}

/// An opening turns the element round for its dilation.
pub fn opening_of_five_samples()
    ensures centred { opening centred_bar five_samples ≡ grey_row 9 (1 ∷ 1 ∷ 1 ∷ 1 ∷ 1 ∷ []) }
    ensures off_centre { opening right_pixel five_samples ≡ grey_row 9 (0 ∷ 1 ∷ 4 ∷ 1 ∷ 5 ∷ []) }
{}

/// A closing turns the element round for its erosion.
pub fn closing_of_five_samples()
    ensures centred { closing centred_bar five_samples ≡ grey_row 9 (3 ∷ 3 ∷ 4 ∷ 4 ∷ 5 ∷ []) }
    ensures off_centre { closing right_pixel five_samples ≡ grey_row 9 (9 ∷ 1 ∷ 4 ∷ 1 ∷ 5 ∷ []) }
{}

/// The height of each sample's surroundings; by one pixel alone it is 0, also outside, where a difference stops at 0.
pub fn gradient_of_five_samples()
    ensures centred { gradient centred_bar five_samples ≡ grey_row 9 (2 ∷ 3 ∷ 3 ∷ 4 ∷ 4 ∷ []) }
    ensures off_centre { gradient right_pixel five_samples ≡ grey_row 9 (0 ∷ 0 ∷ 0 ∷ 0 ∷ 0 ∷ []) }
{}

/// What the opening takes away, and what the closing adds.
pub fn top_hats_of_five_samples()
    ensures white { white_top_hat centred_bar five_samples ≡ grey_row 9 (2 ∷ 0 ∷ 3 ∷ 0 ∷ 4 ∷ []) }
    ensures black { black_top_hat centred_bar five_samples ≡ grey_row 9 (0 ∷ 2 ∷ 0 ∷ 3 ∷ 0 ∷ []) }
    ensures white_off_centre { white_top_hat right_pixel five_samples ≡ grey_row 9 (3 ∷ 0 ∷ 0 ∷ 0 ∷ 0 ∷ []) }
    ensures black_off_centre { black_top_hat right_pixel five_samples ≡ grey_row 9 (6 ∷ 0 ∷ 0 ∷ 0 ∷ 0 ∷ []) }
{}

/// The places with a sample of 4 or more, and all places; and how far each sample is below the maxval.
pub fn threshold_of_five_samples()
    ensures of_four { threshold 4 five_samples ≡ bit_row (0 ∷ 0 ∷ 1 ∷ 0 ∷ 1 ∷ []) }
    ensures of_zero { threshold 0 five_samples ≡ bit_row (1 ∷ 1 ∷ 1 ∷ 1 ∷ 1 ∷ []) }
    ensures complemented { complement five_samples ≡ grey_row 9 (6 ∷ 8 ∷ 5 ∷ 8 ∷ 4 ∷ []) }
{}

/// The least, the middle and the greatest of three samples. At the edge two samples lie under the bar, and the third
/// of them is the second.
pub fn rank_of_five_samples()
    ensures first { rank centred_bar 1 five_samples ≡ grey_row 9 (1 ∷ 1 ∷ 1 ∷ 1 ∷ 1 ∷ []) }
    ensures second { rank centred_bar 2 five_samples ≡ grey_row 9 (3 ∷ 3 ∷ 1 ∷ 4 ∷ 5 ∷ []) }
    ensures third { rank centred_bar 3 five_samples ≡ grey_row 9 (3 ∷ 4 ∷ 4 ∷ 5 ∷ 5 ∷ []) }
{}

/// Pixels of a set whose left neighbour is not in it. Outside of the frame nothing is missed.
pub fn hit_or_miss_of_sets()
    ensures of_five { hit_or_miss origin_pixel left_pixel (bit_row (0 ∷ 1 ∷ 1 ∷ 0 ∷ 1 ∷ [])) ≡ bit_row (0 ∷ 1 ∷ 0 ∷ 0 ∷ 1 ∷ []) }
    ensures of_five_as_sets { set_hit_or_miss origin_pixel left_pixel (bit_row (0 ∷ 1 ∷ 1 ∷ 0 ∷ 1 ∷ [])) ≡ bit_row (0 ∷ 1 ∷ 0 ∷ 0 ∷ 1 ∷ []) }
    ensures at_the_edge { hit_or_miss origin_pixel left_pixel (bit_row (1 ∷ 1 ∷ 0 ∷ [])) ≡ bit_row (1 ∷ 0 ∷ 0 ∷ []) }
    ensures at_the_edge_as_sets { set_hit_or_miss origin_pixel left_pixel (bit_row (1 ∷ 1 ∷ 0 ∷ [])) ≡ bit_row (1 ∷ 0 ∷ 0 ∷ []) }
{}

/// How far each sample is above its left neighbour, and the left neighbour above the sample; the neighbour that the
/// first sample lacks is the maxval under the element that hits.
pub fn hit_or_miss_of_grey_samples()
    ensures rises { hit_or_miss origin_pixel left_pixel five_samples ≡ grey_row 9 (3 ∷ 0 ∷ 3 ∷ 0 ∷ 4 ∷ []) }
    ensures falls { hit_or_miss left_pixel origin_pixel five_samples ≡ grey_row 9 (6 ∷ 2 ∷ 0 ∷ 3 ∷ 0 ∷ []) }
{}

/// The skeleton of a line of five is its middle, marked by the number of erosions that reach it and 1. A set that fills
/// its frame is never eroded, and is its own last residue.
pub fn skeleton_of_a_line()
    ensures depth_two { skeleton centred_bar 2 (bit_row (0 ∷ 1 ∷ 1 ∷ 1 ∷ 1 ∷ 1 ∷ 0 ∷ [])) ≡ grey_row 3 (0 ∷ 0 ∷ 0 ∷ 3 ∷ 0 ∷ 0 ∷ 0 ∷ []) }
    ensures depth_three { skeleton centred_bar 3 (bit_row (0 ∷ 1 ∷ 1 ∷ 1 ∷ 1 ∷ 1 ∷ 0 ∷ [])) ≡ grey_row 4 (0 ∷ 0 ∷ 0 ∷ 3 ∷ 0 ∷ 0 ∷ 0 ∷ []) }
    ensures full_frame { skeleton centred_bar 1 (bit_row (1 ∷ 1 ∷ 1 ∷ [])) ≡ grey_row 2 (2 ∷ 2 ∷ 2 ∷ []) }
{}

/// A residue of no erosion stays as it is: the single pixel beside a line.
pub fn residue_of_a_single_pixel()
    ensures skeleton { skeleton centred_bar 2 (bit_row (1 ∷ 1 ∷ 1 ∷ 0 ∷ 1 ∷ 0 ∷ [])) ≡ grey_row 3 (3 ∷ 0 ∷ 0 ∷ 0 ∷ 1 ∷ 0 ∷ []) }
    ensures restored { restoration centred_bar 2 (grey_row 3 (3 ∷ 0 ∷ 0 ∷ 0 ∷ 1 ∷ 0 ∷ [])) ≡ bit_row (1 ∷ 1 ∷ 1 ∷ 0 ∷ 1 ∷ 0 ∷ []) }
{}

/// Skeletons give their sets again; other images are restored too, and marks beyond the depth count for nothing.
pub fn restoration_of_a_line()
    ensures depth_two { restoration centred_bar 2 (grey_row 3 (0 ∷ 0 ∷ 0 ∷ 3 ∷ 0 ∷ 0 ∷ 0 ∷ [])) ≡ bit_row (0 ∷ 1 ∷ 1 ∷ 1 ∷ 1 ∷ 1 ∷ 0 ∷ []) }
    ensures depth_three { restoration centred_bar 3 (grey_row 4 (0 ∷ 0 ∷ 0 ∷ 3 ∷ 0 ∷ 0 ∷ 0 ∷ [])) ≡ bit_row (0 ∷ 1 ∷ 1 ∷ 1 ∷ 1 ∷ 1 ∷ 0 ∷ []) }
    ensures other_marks { restoration centred_bar 1 (grey_row 7 (0 ∷ 2 ∷ 7 ∷ 0 ∷ 1 ∷ [])) ≡ bit_row (1 ∷ 1 ∷ 1 ∷ 0 ∷ 1 ∷ []) }
{}

/// A line of three and a single pixel: one opening takes the pixel away, two take the line.
pub fn spectrum_of_a_set()
    ensures volumes { spectrum centred_bar 2 (bit_row (0 ∷ 1 ∷ 1 ∷ 1 ∷ 0 ∷ 1 ∷ 0 ∷ [])) ≡ 4 ∷ 3 ∷ 0 ∷ [] }
    ensures text { curve_text (4 ∷ 3 ∷ 0 ∷ []) ≡ codes "V 0 4\nV 1 3\nV 2 0\nS 0 1\nS 1 3\nR 0\n" }
{}

/// Two pixels of a line: what is left over is the rest of the curve.
pub fn spectrum_with_a_rest()
    ensures volumes { spectrum (rectangle 1 0 0 0) 2 (bit_row (0 ∷ 1 ∷ 1 ∷ 1 ∷ 0 ∷ 1 ∷ 0 ∷ [])) ≡ 4 ∷ 3 ∷ 3 ∷ [] }
    ensures text { curve_text (4 ∷ 3 ∷ 3 ∷ []) ≡ codes "V 0 4\nV 1 3\nV 2 3\nS 0 1\nS 1 0\nR 3\n" }
{}

/// An element without its origin erodes a single pixel to nothing, and no single larger element does what two such
/// erosions do: that of twice the reach holds its origin, and keeps the pixel.
pub fn spectrum_of_no_single_element()
    ensures volumes { spectrum two_ends 2 (grey_row 9 (5 ∷ [])) ≡ 5 ∷ 0 ∷ 0 ∷ [] }
    ensures text { curve_text (5 ∷ 0 ∷ 0 ∷ []) ≡ codes "V 0 5\nV 1 0\nV 2 0\nS 0 5\nS 1 0\nR 0\n" }
    ensures doubled { spectrum two_ends_doubled 1 (grey_row 9 (5 ∷ [])) ≡ 5 ∷ 5 ∷ [] }
{}

/// A great element on one pixel sees that pixel alone.
pub fn great_element_on_one_pixel()
    ensures eroded { erosion (rectangle 127 127 127 127) (grey_row 9 (7 ∷ [])) ≡ grey_row 9 (7 ∷ []) }
    ensures dilated { dilation (rectangle 127 127 127 127) (grey_row 9 (7 ∷ [])) ≡ grey_row 9 (7 ∷ []) }
{}

/// A long row that rises by 1 from pixel to pixel, under a long line.
pub fn long_row_under_a_long_line()
    ensures eroded { erosion (rectangle 127 127 0 0) (grey_row 255 (range_with_len 0 200)) ≡ grey_row 255 (map (λ x. x - 127) (range_with_len 0 200)) }
    ensures dilated { dilation (rectangle 127 127 0 0) (grey_row 255 (range_with_len 0 200)) ≡ grey_row 255 (map (λ x. min 199 (x + 127)) (range_with_len 0 200)) }
{}
