//! Classes numbered by their least numbers.

ghost use Rattle.std.specs.Prelude.{◌<◌, ◌^◌, length};
ghost use Rattle.mw_geodesic_runs.specs.Forests.{IsForest, NumbersClasses};

/// Writes over each number the number of its class, from 1 up by the roots. The answer is how many there are.
pub(crate) fn number_classes(parent: &mut [u32]) -> u32
    requires forest { IsForest parent.old }
    requires few { length parent.old < 2 ^ 32 }
    ensures { NumbersClasses parent.old (length parent.old) parent.new result }
{
    let mut count = 0;
    for i in 0..parent.len() {
        let above = parent[i] as usize;
        if above == i {
            count += 1;
            parent[i] = count;
        } else {
            parent[i] = parent[above];
        }
    }
    count
}
