//! Plans: an operation as a list of steps, each of which reads inputs or earlier steps.
//!
//! ```text
//! let shape = shape_of(&op, a, b, c)?;                // the shape of the result, or why there is none; takes no memory
//! let plan = plan_of(alloc, &flat, a, b, c)?;         // the planes of its steps are the operator
//! for planned in plan.steps() { .. }
//! ```
#![tactic(auto)]

mod building;
mod extremum;
mod faults;
mod flat;
mod inputs;
mod laws;
mod plans;
mod shapes;
mod sliding;

pub use extremum::ExtremumKind;
pub use faults::PlanFault;
pub use flat::{plan_of, plan_of_legal};
pub use inputs::Input;
pub use laws::{
    accepted_runs_have_no_fault, faults_are_refusals, planes_are_of_steps, tasks_of_plans_fit,
};
pub use mw_model::{FlatOp, GranOp, NoMemory, OffsetBox, Op, Shape};
pub use mw_model_laws::laws::{
    hits_of_sets, opening_laws, restorations, skeletons, thresholds, volumes,
};
pub use mw_step_task::{Element, Step};
pub use plans::{Plan, PlannedStep, Source, Sources};
pub use shapes::shape_of;
pub use sliding::{slide, slide_turned, turned};

// What lower crates offer, for the crates above.
pub mod element {
    pub use mw_step_task::element::Element;
}

pub mod task {
    pub use mw_step_task::{SharedWindow, Step, TileResult};
}
