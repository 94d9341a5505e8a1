//! Refusals: the first that holds is told, and elements that an operation does not take are not looked at.

use crate::direct_given::{GREY, SET, element, name, picture};
use mw_c_direct::apply;
use mw_element::Element;
use mw_model::{FlatOp, GranOp, Op};
use std::alloc::Global;
use std::process::Abort;
use std::sync::Arc;

/// The number of the refusal, or 0.
fn refusal(
    rt: &impl Abort,
    alloc: Global,
    op: Op,
    bytes: &[u8],
    b: Option<&Arc<Element>>,
    c: Option<&Arc<Element>>,
) -> u16 {
    let image = picture(rt, alloc, bytes);
    match apply(alloc, &op, &image, b, c) {
        Ok(_made) => 0,
        Err(fault) => fault.code().number(),
    }
}

fn bar(rt: &impl Abort, alloc: Global) -> Arc<Element> {
    element(rt, alloc, b"P1\n3 1\n111\n", 1, 0)
}

fn right(rt: &impl Abort, alloc: Global) -> Arc<Element> {
    element(rt, alloc, b"P1\n2 1\n01\n", 0, 0)
}

#[test]
fn refused_flat_operations(rt: HostRuntime) {
    let (alloc, n) = (rt.alloc(), name(&rt));
    let (bar, right) = (bar(&rt, alloc), right(&rt, alloc));
    let erosion = Op::Flat(FlatOp::Erode(n, n));
    assert!(rt; refusal(&rt, alloc, erosion, GREY, None, Some(&bar)) == 42);
    assert!(rt; refusal(&rt, alloc, erosion, GREY, Some(&bar), None) == 0);
    let rank = Op::Flat(FlatOp::Rank(n, n, 4));
    assert!(rt; refusal(&rt, alloc, rank, GREY, Some(&right), None) == 45);
    assert!(rt; refusal(&rt, alloc, rank, GREY, Some(&bar), None) == 47);
    let hit_or_miss = Op::Flat(FlatOp::HitMiss(n, n, n));
    assert!(rt; refusal(&rt, alloc, hit_or_miss, SET, Some(&bar), None) == 42);
    assert!(rt; refusal(&rt, alloc, hit_or_miss, SET, Some(&bar), Some(&right)) == 46);
}

#[test]
fn refused_iterations(rt: HostRuntime) {
    let (alloc, n) = (rt.alloc(), name(&rt));
    let (bar, right) = (bar(&rt, alloc), right(&rt, alloc));
    let skeleton = Op::Gran(GranOp::Skeleton(n, n, 255));
    assert!(rt; refusal(&rt, alloc, skeleton, GREY, Some(&right), None) == 44);
    assert!(rt; refusal(&rt, alloc, skeleton, SET, Some(&right), None) == 45);
    assert!(rt; refusal(&rt, alloc, skeleton, SET, Some(&bar), None) == 47);
    let spectrum = Op::Gran(GranOp::Spectrum(n, n, 33));
    assert!(rt; refusal(&rt, alloc, spectrum, SET, None, None) == 42);
    assert!(rt; refusal(&rt, alloc, spectrum, SET, Some(&bar), None) == 47);
}
