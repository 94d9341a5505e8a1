//! Plans of over 300 and over 600 steps: no contract can say that there is memory for them.

use mw_element::Element;
use mw_gran::{Input, plan_of};
use mw_model::{GranOp, Kind, Name, Shape};
use mw_plan::{Plan, PlannedStep, Source, Sources};
use mw_step_task::Step;
use std::alloc::Global;
use std::process::Abort;
use std::sync::Arc;

/// Three pixels in a row.
const BAR: &[u8] = b"P1\n3 1\n111\n";

/// The bar without its middle, which the origin stands in.
const NEIGHBOURS: &[u8] = b"P1\n3 1\n101\n";

fn name(rt: &impl Abort) -> Name {
    Name::parse(b"n").expect(rt, "a name")
}

/// The element of a bitmap of three columns, from its middle.
fn element(rt: &impl Abort, alloc: Global, bitmap: &[u8]) -> Arc<Element> {
    let element = Element::parse(alloc, bitmap, 1, 0);
    let element = element.ok().expect(rt, "an element");
    Arc::new(alloc, element).ok().expect(rt, "memory")
}

/// How many steps the plan of the operation on a set has.
fn steps_of(rt: &impl Abort, alloc: Global, op: GranOp, bitmap: &[u8]) -> usize {
    let element = element(rt, alloc, bitmap);
    let set = Input::Image(Shape::Image(Kind::Bit, 5, 1, 1));
    let plan = plan_of(alloc, &op, set, Input::Element(&element), Input::Absent);
    plan.ok().expect(rt, "a plan").len()
}

/// Each level of a skeleton or a restoration takes three steps, and a spectrum by turns as many as it has sizes.
#[test]
fn plans_of_operations(rt: HostRuntime) {
    let (alloc, n) = (rt.alloc(), name(&rt));
    assert_eq!(rt; steps_of(&rt, alloc, GranOp::Skeleton(n, n, 254), BAR), 764);
    assert_eq!(rt; steps_of(&rt, alloc, GranOp::Restore(n, n, 254), BAR), 763);
    assert_eq!(rt;
        steps_of(&rt, alloc, GranOp::Restore(n, n, 254), NEIGHBOURS),
        763
    );
    assert_eq!(rt; steps_of(&rt, alloc, GranOp::Skeleton(n, n, 100), BAR), 302);
    assert_eq!(rt;
        steps_of(&rt, alloc, GranOp::Spectrum(n, n, 32), NEIGHBOURS),
        593
    );
}

fn push(rt: &impl Abort, plan: &mut Plan, level: u16) {
    let step = PlannedStep {
        step: Step::Equal(level),
        sources: Sources::One(Source::Input(0)),
    };
    plan.push(step).ok().expect(rt, "memory");
}

fn level_of(step: &PlannedStep) -> Option<u16> {
    match &step.step {
        Step::Equal(level) => Some(*level),
        _ => None,
    }
}

/// Stops where a plan with room for so many steps does not take so many more.
fn takes(rt: &impl Abort, alloc: Global, room: usize, count: u16) {
    let mut plan = Plan::with_capacity(alloc, room).ok().expect(rt, "memory");
    for level in 0..count {
        push(rt, &mut plan, level);
    }
    assert_eq!(rt; plan.len(), count as usize);
    let mut level = 0u16;
    for step in plan.steps() {
        assert_eq!(rt; level_of(step), Some(level));
        level = level.saturating_add(1);
    }
}

#[test]
fn plans_by_steps(rt: HostRuntime) {
    for (room, count) in [(301, 301), (601, 601), (896, 896), (0, 700), (2, 896)] {
        takes(&rt, rt.alloc(), room, count);
    }
}
