//! What is told of components, written into an array, and how calls that write it are answered.

ghost use Rattle.std.specs.Prelude.{◌≡◌, ◌*◌, ◌<◌, ◌≤◌, ◌++◌, ◌^◌, pos, drop, length, IfErr, IfOk};
ghost use Rattle.mw_geodesic_labels.specs.Regions.{region_rows};
ghost use Rattle.mw_c_calls.specs.Answers.{refusal_number};
ghost use Rattle.mw_c_geodesic.specs.Told.{number_told};

use crate::refusals::{Refusal, number};
use mw_geodesic_labels::{NUMBERS, Region, put_row};
use mw_model::Code;

/// Writes the numbers of each component.
fn put_rows(out: &mut [u32], regions: &[Region])
    requires few { length regions.now < 2 ^ 32 }
    requires room { 7 * length regions.now ≤ length out.old }
    ensures { out.new ≡ region_rows regions.now ++ drop (7 * length regions.now) out.old }
{
    for k in 0..regions.len() {
        put_row(out, NUMBERS * k, regions[k]);
    }
}

/// Writes the numbers of each component, where there is room for all.
pub(crate) fn put_regions(out: &mut [u32], regions: &[Region])
    requires { length regions.now < 2 ^ 32 }
    ensures written { 7 * length regions.now ≤ length out.old → out.new ≡ region_rows regions.now ++ drop (7 * length regions.now) out.old }
    ensures short { length out.old < 7 * length regions.now → out.new ≡ out.old }
{
    if NUMBERS * regions.len() <= out.len() {
        put_rows(out, regions);
    }
}

/// Writes them, and labels into an array of as many places, where there is room for the numbers of all.
pub(crate) fn put_regions_and_labels(
    rows: &mut [u32],
    regions: &[Region],
    out: &mut [u32],
    labels: &[u32],
)
    requires few { length regions.now < 2 ^ 32 }
    requires size { length labels.now ≡ length out.old }
    ensures written { 7 * length regions.now ≤ length rows.old → rows.new ≡ region_rows regions.now ++ drop (7 * length regions.now) rows.old }
    ensures short { length rows.old < 7 * length regions.now → rows.new ≡ rows.old }
    ensures labels { 7 * length regions.now ≤ length rows.old → out.new ≡ labels.now }
    ensures unlabelled { length rows.old < 7 * length regions.now → out.new ≡ out.old }
{
    if NUMBERS * regions.len() <= rows.len() {
        put_rows(rows, regions);
        out.copy_from_slice(labels);
    }
}

/// Tells how many components there are, and whether there was room for their numbers.
pub(crate) fn answer_regions(made: Result<u32, Refusal>, room: usize, components: &mut u32) -> i32
    ensures written { IfOk made (λ n. 7 * n ≤ room → result ≡ pos 0) }
    ensures short { IfOk made (λ n. room < 7 * n → result ≡ refusal_number Code.Length) }
    ensures counted { IfOk made (λ n. components.new ≡ n) }
    ensures refused { IfErr made (λ c. (result ≡ number_told c) × (components.new ≡ components.old)) }
{
    match made {
        Ok(count) => {
            *components = count;
            if room < NUMBERS * count as usize {
                return number(Refusal::Of(Code::Length));
            }
            0
        }
        Err(refusal) => number(refusal),
    }
}
