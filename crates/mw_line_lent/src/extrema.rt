//! The extremum of two vectors, lane by lane.
ghost use Rattle.std.specs.Prelude.{◌≡◌, ℕ, ◌<◌};

use crate::lanes::Laned;
use crate::lanes_8::Lanes8;
use crate::lanes_16::Lanes16;
use mw_line::pixel::{Extremum, Max, Min};
use std::simd::prelude::*;

/// An extremum that is taken of whole vectors.
pub trait LanedExtremum<P: Laned>: Extremum<P> {
    /// The extremum of each pair of lanes.
    fn merged(a: P::Vector, b: P::Vector) -> P::Vector
        ensures { (i : ℕ) → i < P.WIDTH → P.lane result i ≡ Self.merge (P.lane a i) (P.lane b i) };
}

impl LanedExtremum<u8> for Min {
    #[inline(always)]
    fn merged(a: Lanes8, b: Lanes8) -> Lanes8 {
        Lanes8 {
            lanes: a.lanes.simd_min(b.lanes),
        }
    }
}

impl LanedExtremum<u8> for Max {
    #[inline(always)]
    fn merged(a: Lanes8, b: Lanes8) -> Lanes8 {
        Lanes8 {
            lanes: a.lanes.simd_max(b.lanes),
        }
    }
}

impl LanedExtremum<u16> for Min {
    #[inline(always)]
    fn merged(a: Lanes16, b: Lanes16) -> Lanes16 {
        Lanes16 {
            lanes: a.lanes.simd_min(b.lanes),
        }
    }
}

impl LanedExtremum<u16> for Max {
    #[inline(always)]
    fn merged(a: Lanes16, b: Lanes16) -> Lanes16 {
        Lanes16 {
            lanes: a.lanes.simd_max(b.lanes),
        }
    }
}
