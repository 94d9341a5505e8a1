//! The squares of distances along a row, by the lower envelope of parabolas.

ghost use Rattle.std.specs.Prelude.{◌≡◌, ◌↔◌, ℕ, ◌+◌, ◌-◌, ◌*◌, ◌<◌, ◌≤◌, ◌^◌, length, min, IsTrue};
ghost use Rattle.mw_geodesic_distances.specs.Rows.{distance_at, IsRewritten};
ghost use Rattle.mw_geodesic_distances.specs.Columns.{gap_between};
ghost use Rattle.mw_geodesic_distances.specs.Envelopes.{height_at, parabola, IsNearest, IsEnvelope, IsEnvelopeCut, IsMeeting};

use crate::columns::FAR;
use crate::sweeps::fill;

/// How far two columns are apart.
#[inline(always)]
fn distance(a: u32, b: u32) -> u64
    ensures { result ≡ gap_between a b }
{
    if a < b {
        u64::from(b - a)
    } else {
        u64::from(a - b)
    }
}

/// The height at a column of the parabola that stands at another on the square of its gap.
#[inline(always)]
fn height(x: u32, u: u32, gap: u32) -> u64
    requires here { x < 2 ^ 32 - 1 }
    requires there { u < 2 ^ 32 - 1 }
    requires gap { gap ≤ FAR }
    ensures { result ≡ height_at x u gap }
{
    let apart = distance(x, u);
    let gap = u64::from(gap);
    apart * apart + gap * gap
}

/// Whether at a column one parabola is below another.
#[inline(always)]
fn is_below(gaps: &[u32], x: u32, u: u32, i: u32) -> bool
    requires few { length gaps.now < 2 ^ 32 }
    requires column { x < length gaps.now }
    requires first { u < length gaps.now }
    requires second { i < length gaps.now }
    requires gap { distance_at gaps.now u < FAR }
    requires other_gap { distance_at gaps.now i < FAR }
    ensures { IsTrue result ↔ (parabola (distance_at gaps.now) x u < parabola (distance_at gaps.now) x i) }
{
    height(x, u, gaps[u as usize]) < height(x, i, gaps[i as usize])
}

/// The first column at which the second parabola, which stands further right, is below the first one.
#[inline(always)]
fn meeting(i: u32, u: u32, gap_i: u32, gap_u: u32) -> u64
    requires order { i < u }
    requires near { u < 2 ^ 32 - 1 }
    requires gap_i { gap_i ≤ FAR }
    requires gap_u { gap_u ≤ FAR }
    requires below { height_at 0 i gap_i ≤ height_at 0 u gap_u }
    ensures { IsMeeting (λ x. height_at x i gap_i) (λ x. height_at x u gap_u) result }
{
    let more = height(0, u, gap_u) - height(0, i, gap_i);
    let twice = 2 * u64::from(u - i);
    more / twice + 1
}

/// How many parts of an envelope are left before the parabola of the next column is below all others.
fn kept(gaps: &[u32], sites: &[u32], starts: &[u32], count: usize, u: u32) -> usize
    requires few { length gaps.now < 2 ^ 32 }
    requires sites { length sites.now ≡ length gaps.now }
    requires starts { length starts.now ≡ length gaps.now }
    requires within { u < length gaps.now }
    requires gap { distance_at gaps.now u < FAR }
    requires envelope { IsEnvelope (distance_at gaps.now) (length gaps.now) u count (distance_at sites.now) (distance_at starts.now) }
    ensures cut { IsEnvelopeCut (distance_at gaps.now) (length gaps.now) u count result (distance_at sites.now) (distance_at starts.now) }
    ensures stays { (j : ℕ) → j + 1 ≡ result → parabola (distance_at gaps.now) (distance_at starts.now j) (distance_at sites.now j) ≤ parabola (distance_at gaps.now) (distance_at starts.now j) u }
{
    let mut k = count;
    'parts: while k > 0 {
        if !is_below(gaps, starts[k - 1], u, sites[k - 1]) {
            return k;
        }
        k -= 1;
    }
    0
}

/// The envelope with the parabola of the next column, if that is not far. The answer is how many parts there are then.
fn add(gaps: &[u32], sites: &mut [u32], starts: &mut [u32], count: usize, u: u32) -> usize
    requires few { length gaps.now < 2 ^ 32 }
    requires sites { length sites.old ≡ length gaps.now }
    requires starts { length starts.old ≡ length gaps.now }
    requires within { u < length gaps.now }
    requires envelope { IsEnvelope (distance_at gaps.now) (length gaps.now) u count (distance_at sites.old) (distance_at starts.old) }
    ensures { IsEnvelope (distance_at gaps.now) (length gaps.now) (u + 1) result (distance_at sites.new) (distance_at starts.new) }
{
    if gaps[u as usize] >= FAR {
        return count;
    }
    let k = kept(gaps, sites, starts, count, u);
    if k == 0 {
        sites[0] = u;
        starts[0] = 0;
        return 1;
    }
    let site = sites[k - 1];
    let start = meeting(site, u, gaps[site as usize], gaps[u as usize]);
    if start >= gaps.len() as u64 {
        return k;
    }
    sites[k] = u;
    starts[k] = start as u32;
    k + 1
}

/// Makes the envelope of the parabolas of a row. The answer is how many parts it has.
fn build(gaps: &[u32], sites: &mut [u32], starts: &mut [u32]) -> usize
    requires few { length gaps.now < 2 ^ 32 }
    requires sites { length sites.old ≡ length gaps.now }
    requires starts { length starts.old ≡ length gaps.now }
    ensures { IsEnvelope (distance_at gaps.now) (length gaps.now) (length gaps.now) result (distance_at sites.new) (distance_at starts.new) }
{
    let mut count = 0;
    for u in 0..gaps.len() {
        count = add(gaps, sites, starts, count, u as u32);
    }
    count
}

/// A height, cut at the top.
#[inline(always)]
fn cut(height: u64, top: u32) -> u32
    ensures { result ≡ min height top }
{
    if height < u64::from(top) {
        height as u32
    } else {
        top
    }
}

/// Writes the heights of a parabola, cut at the top, from a column on up to an end.
fn draw_part(row: &mut [u32], start: u32, end: u32, site: u32, gap: u32, top: u32)
    requires order { start ≤ end }
    requires room { end ≤ length row.old }
    requires few { length row.old < 2 ^ 32 }
    requires site { site < 2 ^ 32 - 1 }
    requires gap { gap ≤ FAR }
    ensures { IsRewritten start end (λ x. min (height_at x site gap) top) (distance_at row.old) (distance_at row.new) }
{
    for x in start..end {
        row[x as usize] = cut(height(x, site, gap), top);
    }
}

/// Where part k of an envelope ends.
#[inline(always)]
fn end_of(starts: &[u32], count: usize, k: usize) -> u32
    requires few { length starts.now < 2 ^ 32 }
    requires count { count ≤ length starts.now }
    requires part { k < count }
    ensures next { (j : ℕ) → k + 1 ≡ j → j < count → result ≡ distance_at starts.now j }
    ensures last { count ≤ k + 1 → result ≡ length starts.now }
{
    if k + 1 < count {
        starts[k + 1]
    } else {
        starts.len() as u32
    }
}

/// Writes the heights of an envelope, cut at the top.
fn draw(row: &mut [u32], gaps: &[u32], sites: &[u32], starts: &[u32], count: usize, top: u32)
    requires few { length gaps.now < 2 ^ 32 }
    requires row { length row.old ≡ length gaps.now }
    requires sites { length sites.now ≡ length gaps.now }
    requires starts { length starts.now ≡ length gaps.now }
    requires envelope { IsEnvelope (distance_at gaps.now) (length gaps.now) (length gaps.now) count (distance_at sites.now) (distance_at starts.now) }
    ensures { (x : ℕ) → x < length row.old → IsNearest (distance_at gaps.now) (length gaps.now) top x (distance_at row.new x) }
{
    if count == 0 {
        fill(row, top);
        return;
    }
    for k in 0..count {
        let site = sites[k];
        let end = end_of(starts, count, k);
        draw_part(row, starts[k], end, site, gaps[site as usize], top);
    }
}

/// Makes the squares of distances of the gaps of a row. The other rows are for the gaps, and for the envelope.
pub(crate) fn nearest(
    row: &mut [u32],
    gaps: &mut [u32],
    sites: &mut [u32],
    starts: &mut [u32],
    top: u32,
)
    requires few { length row.old < 2 ^ 32 }
    requires gaps { length gaps.old ≡ length row.old }
    requires sites { length sites.old ≡ length row.old }
    requires starts { length starts.old ≡ length row.old }
    ensures { (x : ℕ) → x < length row.old → IsNearest (distance_at row.old) (length row.old) top x (distance_at row.new x) }
{
    gaps.copy_from_slice(row);
    let count = build(gaps, sites, starts);
    draw(row, gaps, sites, starts, count, top);
}
