//! Skeletons, restorations and spectra: operators that are done again and again, as plans of steps.
//!
//! ```text
//! let plan = plan_of(alloc, &gran, a, b, c)?;       // the planes of its steps are the operator
//! let curve = Curve::of(volumes);
//! let text = curve.text(alloc)?;
//! ```
#![tactic(auto)]

mod boxes;
mod curves;
mod eroding;
mod growing;
pub mod laws;
mod plans;
mod restorations;
mod skeletons;
mod sliding;
mod spectra;
mod texts;

pub use curves::Curve;
pub use mw_plan::{GranOp, Input, NoMemory, OffsetBox, Plan, PlanFault};
pub use plans::{plan_of, plan_of_any, plan_of_legal};

// What lower crates offer, for the crates above.
pub mod plan {
    pub use mw_plan::{Input, Plan, PlanFault, Source, Sources, plan_of, shape_of};
}
