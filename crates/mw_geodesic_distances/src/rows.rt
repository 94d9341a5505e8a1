//! One row, lowered by the row before it and then along itself.

ghost use Rattle.std.specs.Prelude.{◌≡◌, ◌+◌, ◌≤◌, length, min};
ghost use Rattle.mw_geodesic_distances.specs.Rows.{distance_at, IsLoweredStraight, IsLoweredFromLeft, IsLoweredFromRight, IsPulled, IsRunRight, IsRunLeft, IsStepRight, IsStepLeft};

/// The lesser of a number and one more than another, where no sum can be too large.
#[inline(always)]
fn lesser(a: u32, b: u32) -> u32
    ensures { result ≡ min a (b + 1) }
{
    if b < a { b + 1 } else { a }
}

/// Lowers each number to one more than that of its column.
fn lower(row: &mut [u32], other: &[u32])
    requires { length row.old ≡ length other.now }
    ensures { IsLoweredStraight (length row.old) (distance_at other.now) (distance_at row.old) (distance_at row.new) }
{
    for x in 0..row.len() {
        row[x] = lesser(row[x], other[x]);
    }
}

/// Lowers each number to one more than that of the column before.
fn lower_from_left(row: &mut [u32], other: &[u32])
    requires { length row.old ≡ length other.now }
    ensures { IsLoweredFromLeft (length row.old) (distance_at other.now) (distance_at row.old) (distance_at row.new) }
{
    for x in 1..row.len() {
        row[x] = lesser(row[x], other[x - 1]);
    }
}

/// Lowers each number to one more than that of the column behind.
fn lower_from_right(row: &mut [u32], other: &[u32])
    requires { length row.old ≡ length other.now }
    ensures { IsLoweredFromRight (length row.old) (distance_at other.now) (distance_at row.old) (distance_at row.new) }
{
    for u in 1..row.len() {
        row[u - 1] = lesser(row[u - 1], other[u]);
    }
}

/// Lowers each number to one more than those near it in the other row.
fn pull(row: &mut [u32], other: &[u32], reach: u32)
    requires size { length row.old ≡ length other.now }
    requires small { reach ≤ 1 }
    ensures { IsPulled reach (length row.old) (distance_at other.now) (distance_at row.old) (distance_at row.new) }
{
    lower(row, other);
    if reach > 0 {
        lower_from_left(row, other);
        lower_from_right(row, other);
    }
}

/// Lowers each number, from the left on, to one more than the one before it.
fn run_right(row: &mut [u32])
    ensures { IsRunRight (length row.old) (distance_at row.old) (distance_at row.new) }
{
    if row.len() == 0 {
        return;
    }
    let mut last = row[0];
    for x in 1..row.len() {
        last = lesser(row[x], last);
        row[x] = last;
    }
}

/// Lowers each number, from the right on, to one more than the one behind it.
fn run_left(row: &mut [u32])
    ensures { IsRunLeft (length row.old) (distance_at row.old) (distance_at row.new) }
{
    let n = row.len();
    if n == 0 {
        return;
    }
    let mut last = row[n - 1];
    for done in 1..n {
        let x = n - 1 - done;
        last = lesser(row[x], last);
        row[x] = last;
    }
}

/// Lowers a row by the other one, and then from its left. The other row becomes a copy of it.
pub(crate) fn step_right(row: &mut [u32], other: &mut [u32], reach: u32)
    requires size { length row.old ≡ length other.old }
    requires small { reach ≤ 1 }
    ensures step { IsStepRight reach (length row.old) (distance_at other.old) (distance_at row.old) (distance_at row.new) }
    ensures copy { other.new ≡ row.new }
{
    pull(row, other, reach);
    run_right(row);
    other.copy_from_slice(row);
}

/// Lowers a row by the other one, and then from its right. The other row becomes a copy of it.
pub(crate) fn step_left(row: &mut [u32], other: &mut [u32], reach: u32)
    requires size { length row.old ≡ length other.old }
    requires small { reach ≤ 1 }
    ensures step { IsStepLeft reach (length row.old) (distance_at other.old) (distance_at row.old) (distance_at row.new) }
    ensures copy { other.new ≡ row.new }
{
    pull(row, other, reach);
    run_left(row);
    other.copy_from_slice(row);
}

/// Lowers a row straight by the other one. The other row becomes a copy of it.
pub(crate) fn step_straight(row: &mut [u32], other: &mut [u32])
    requires { length row.old ≡ length other.old }
    ensures step { IsLoweredStraight (length row.old) (distance_at other.old) (distance_at row.old) (distance_at row.new) }
    ensures copy { other.new ≡ row.new }
{
    lower(row, other);
    other.copy_from_slice(row);
}
