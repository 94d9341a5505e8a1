//! In which order the steps of plans stand: what is made early is kept long, and contracts say of the steps how many there are and
//! what they make.

use mw_gran::{GranOp, Input, Plan, plan_of};
use mw_model::{Kind, Name, Shape};
use mw_step_task::{Element, Step};
use std::alloc::Global;
use std::process::Abort;
use std::sync::Arc;

const SET: Input<'static> = Input::Image(Shape::Image(Kind::Bit, 5, 1, 1));

/// The plan of an operation on a set by an element of one row, from its second pixel.
fn planned(rt: &impl Abort, alloc: Global, op: GranOp, bitmap: &[u8]) -> Plan {
    let element = Element::parse(alloc, bitmap, 1, 0).expect(rt, "an element");
    let b = Arc::new(alloc, element).ok().expect(rt, "memory");
    let plan = plan_of(alloc, &op, SET, Input::Element(&b), Input::Absent);
    plan.expect(rt, "a plan")
}

const BAR: &[u8] = b"P1\n3 1\n111\n";

const SIDES: &[u8] = b"P1\n3 1\n101\n";

/// Stops where not so many erosions are the first steps of the plan, or one comes later.
fn begins_with_erosions(rt: &impl Abort, plan: &Plan, count: u32) {
    for (place, planned) in plan.steps().iter().enumerate() {
        let erodes = matches!(&planned.step, Step::Erode(_) | Step::ErodeBox(_));
        assert!(rt; erodes == (place < count as usize), "step {place}");
    }
}

/// The level that the step marks.
fn level_of(step: &Step) -> Option<u16> {
    match step {
        Step::Equal(level) => Some(*level),
        _ => None,
    }
}

/// Stops where a step is another one than the set of the next level, up to one behind all levels, or such a step comes later.
fn begins_with_levels(rt: &impl Abort, plan: &Plan, levels: u32) {
    for (place, planned) in plan.steps().iter().enumerate() {
        let next = if place <= levels as usize {
            u16::try_from(place + 1).ok()
        } else {
            None
        };
        assert!(rt; level_of(&planned.step) == next, "step {place}");
    }
}

/// Stops where the blank step does not stand in this place alone.
fn is_blank_at(rt: &impl Abort, plan: &Plan, wanted: u32) {
    for (place, planned) in plan.steps().iter().enumerate() {
        let blank = matches!(&planned.step, Step::Blank(_));
        assert!(rt; blank == (place == wanted as usize), "step {place}");
    }
}

/// Erosions stand before the turns, and the empty marks before the first marks.
fn skeleton_is_in_order(rt: &impl Abort, alloc: Global, name: Name, levels: u32) {
    let plan = planned(rt, alloc, GranOp::Skeleton(name, name, levels), BAR);
    begins_with_erosions(rt, &plan, levels);
    is_blank_at(rt, &plan, levels.saturating_add(1));
}

/// Erosions stand before the turns of a spectrum, and the sets of all levels before those of a restoration.
#[test]
fn steps_stand_in_order(rt: HostRuntime) {
    let name = Name::parse(b"n").expect(&rt, "a name");
    for levels in [1u32, 2, 10] {
        skeleton_is_in_order(&rt, rt.alloc(), name, levels);
        let spectrum = GranOp::Spectrum(name, name, levels);
        begins_with_erosions(&rt, &planned(&rt, rt.alloc(), spectrum, SIDES), levels);
        let restoration = GranOp::Restore(name, name, levels);
        begins_with_levels(&rt, &planned(&rt, rt.alloc(), restoration, BAR), levels);
    }
}
