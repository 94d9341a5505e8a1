//! A binary tree of sums in a slice: the root stands at 1, below node q stand 2q and 2q + 1, and the leaves stand last.

ghost use Rattle.std.specs.Prelude.{◌≡◌, ◌≢◌, ℕ, ◌+◌, ◌*◌, ◌/◌, ◌<◌, ◌≤◌, ◌^◌, length, slice_index, IfOk, IfErr};
ghost use Rattle.mw_core_sums.specs.Trees.{span_sum, leaves, IsSum, IsPower, IsTree, Uses};

use mw_model::NoMemory;
use std::alloc::Global;

/// Makes the sums above a node right.
fn mend(tree: &mut [u64], room: usize, from: usize)
    requires size { length tree.old ≡ 2 * room }
    requires few { room ≤ 131072 }
    requires from { from < 2 * room }
    requires sums { (q : ℕ) → 1 ≤ q → q < room → q ≢ from / 2 → IsSum tree.old q }
    requires small { (j : ℕ) → j < room → slice_index tree.old (room + j) < 2 ^ 32 }
    ensures sums { (q : ℕ) → 1 ≤ q → q < room → IsSum tree.new q }
    ensures leaves { (j : ℕ) → slice_index tree.new (room + j) ≡ slice_index tree.old (room + j) }
{
    let mut node = from / 2;
    while node > 0 {
        tree[node] = tree[2 * node] + tree[2 * node + 1];
        node /= 2;
    }
}

/// Writes a leaf.
pub(crate) fn write(tree: &mut [u64], room: usize, place: usize, number: u32)
    requires tree { IsTree tree.old room }
    requires place { place < room }
    ensures tree { IsTree tree.new room }
    ensures here { slice_index tree.new (room + place) ≡ number }
    ensures others { (j : ℕ) → j ≢ place → slice_index tree.new (room + j) ≡ slice_index tree.old (room + j) }
{
    tree[room + place] = u64::from(number);
    mend(tree, room, room + place);
}

/// A tree with more room and the same leaves first; the others are 0.
pub(crate) fn wider(
    alloc: Global,
    tree: &[u64],
    room: usize,
    more: usize,
) -> Result<Vec<u64>, NoMemory>
    requires tree { IsTree tree.now room }
    requires more { (room ≤ more) × (1 ≤ more) × (more ≤ 131072) }
    requires power { IsPower more }
    ensures tree { IfOk result (λ v. IsTree v.items more) }
    ensures same { IfOk result (λ v. (j : ℕ) → j < room → slice_index v.items (more + j) ≡ slice_index tree.now (room + j)) }
    ensures rest { IfOk result (λ v. (j : ℕ) → room ≤ j → j < more → slice_index v.items (more + j) ≡ 0) }
{
    let mut made = vec![in alloc; 0; 2 * more]?;
    for place in 0..room {
        write(&mut made, more, place, tree[room + place] as u32);
    }
    Ok(made)
}

/// Makes room for one leaf more: for how many there is room then.
pub(crate) fn make_room(
    alloc: Global,
    tree: &mut Vec<u64>,
    room: usize,
    len: u32,
) -> Result<usize, NoMemory>
    requires uses { Uses tree.old.items room len }
    requires few { len < 65536 }
    ensures uses { IfOk result (λ more. Uses tree.new.items more len) }
    ensures room { IfOk result (λ more. len < more) }
    ensures same { IfOk result (λ more. leaves tree.new.items more len ≡ leaves tree.old.items room len) }
    ensures failed { IfErr result (λ _. tree.new ≡ tree.old) }
{
    if (len as usize) < room {
        return Ok(room);
    }
    let more = (2 * room).max(1);
    *tree = wider(alloc, tree, room, more)?;
    Ok(more)
}

/// The leaf that a position falls to, and what is left of the position there.
pub(crate) fn descend(tree: &[u64], room: usize, position: u64) -> (usize, u64)
    requires tree { IsTree tree.now room }
    requires some { 1 ≤ room }
    requires inside { position < slice_index tree.now 1 }
    ensures place { result.0 < room }
    ensures here { result.1 < slice_index tree.now (room + result.0) }
    ensures before { span_sum tree.now room result.0 + result.1 ≡ position }
{
    let mut node = 1;
    let mut rest = position;
    while node < room {
        node *= 2;
        let left = tree[node];
        if rest >= left {
            rest -= left;
            node += 1;
        }
    }
    (node - room, rest)
}
