//! Places of offsets, as kernels look them up in a window.
ghost use Rattle.std.specs.Prelude.{◌≡◌, ◌+◌, ◌≤◌, pos, negsuc, ◌+ℤ◌, ◌-ℤ◌, ◌≤ℤ◌};
ghost use Rattle.mw_model.specs.declared.limits.TheConstants.{FAR_LIMIT};

/// The place of a step from `from`, counted from `first`.
#[inline(always)]
pub fn place_of(from: u64, step: i16, first: u32) -> i64
    requires { from ≤ FAR_LIMIT }
    ensures value { result ≡ pos from +ℤ step -ℤ pos first }
    ensures low { negsuc FAR_LIMIT ≤ℤ result }
    ensures high { result ≤ℤ pos (from + 32768) }
{
    (from as i64) + i64::from(step) - i64::from(first)
}
