//! The work that an accepted command gets.

ghost use Rattle.std.specs.Prelude.{◌≡◌, ◌<◌, IfOk, None, length};
ghost use Rattle.std.specs.List.{AllByRecursion};
ghost use Rattle.mw_model.specs.Values.{tickets};
ghost use Rattle.mw_model.specs.Refusals.{refusal};
ghost use Rattle.mw_model.specs.Machine.{run_submission};
ghost use Rattle.mw_core_laws.specs.mw_plan.Asked.{fault_in};
ghost use Rattle.mw_core_laws.specs.Limits.{ShapesFit};
ghost use Rattle.mw_core_tasks.specs.Planning.{IsLookedUp, IsPlannedBy};

use crate::sides::side_for;
use mw_core_laws::gran::plan_of_legal;
use mw_core_laws::plan::Input;
use mw_core_laws::{PlanProgress, ResolvedRun, Store};
use mw_grid::Grid;
use mw_model::{Call, FlatOp, Name, NoMemory, Op, Shape};
use std::alloc::Global;

/// How far an input's element reaches to any side.
fn farthest(input: Input<'_>) -> u32 {
    match input {
        Input::Element(element) => {
            let reach = element.reach();
            reach.up.max(reach.down).max(reach.left).max(reach.right)
        }
        _ => 0,
    }
}

/// Up to this maxval ranks count the levels as they are.
const COUNTED: u16 = 4095;

/// Under rectangles that reach up to this ranks are networks of comparisons.
const SMALL: u32 = 2;

/// Whether ranks under an element may go over numbers of levels, as `mw_rank_rows` does under rectangles.
fn is_numbered(op: &Op, maxval: u16, element: Input<'_>) -> bool {
    match (op, element) {
        (Op::Flat(FlatOp::Rank(_, _, _)), Input::Element(element)) => {
            maxval > COUNTED
                && farthest(Input::Element(element)) > SMALL
                && element.as_rectangle().is_some()
        }
        _ => false,
    }
}

/// The work of a command that is accepted, on tiles of this side, or of one that suits its elements where tiles may not have
/// it. Only memory can be wanting, since no fault was found.
pub fn planned(
    alloc: Global,
    store: &Store,
    side: u32,
    name: Name,
    op: Op,
    run: ResolvedRun<'_>,
) -> Result<PlanProgress, NoMemory>
    requires submission { run.submission ≡ run_submission store.now.table op }
    requires below { AllByRecursion (λ i. i < length store.now.table.names) (tickets run.submission.inputs) }
    requires first { IsLookedUp store.now.table store.now.kept run.submission.inputs.a run.a }
    requires second { IsLookedUp store.now.table store.now.kept run.submission.inputs.b run.b }
    requires third { IsLookedUp store.now.table store.now.kept run.submission.inputs.c run.c }
    requires faultless { fault_in op run.a run.b run.c ≡ None }
    requires accepted { refusal store.now.table store.now.kept (Call.Run name op) ≡ None }
    requires fits { ShapesFit store.now.table }
    ensures planned { IfOk result (IsPlannedBy store.now.table store.now.kept op run.entry.submission side) }
{
    let Input::Image(shape) = run.a else {
        unreachable!()
    };
    let Shape::Image(kind, width, height, maxval) = shape else {
        unreachable!()
    };
    let plan = plan_of_legal(alloc, &op, run.a, run.b, run.c)?;
    let tiles = side_for(
        side,
        farthest(run.b).max(farthest(run.c)),
        is_numbered(&op, maxval, run.b),
    );
    let grid = Grid::new(width, height, tiles);
    PlanProgress::new(alloc, plan, grid, kind, maxval)
}
