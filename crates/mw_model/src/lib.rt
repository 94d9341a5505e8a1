//! What morphd means: the words that contracts share, and in `specs/` the definitions that every crate above is
//! proved against. Read `specs/Lib.antt` from top to bottom.
#![tactic(auto)]

mod calls;
mod codes;
mod formats;
mod limits;
mod memory;
mod names;
mod offsets;
mod operations;
mod receipts;
mod requests;
mod shapes;
mod submissions;
mod tasks;

pub use calls::{Call, Given, LogItem, Outcome, Reply};
pub use codes::Code;
pub use formats::{Format, Header};
pub use limits::{
    ELEMENT_SIDE_LIMIT, ENTRY_LIMIT, FAR_LIMIT, LEVEL_LIMIT, OFFSET_LIMIT, PIXEL_LIMIT, READ_LIMIT,
    SIDE_LIMIT, SIZE_LIMIT, STEP_LIMIT, TASK_LIMIT, TILE_SIDE_LIMIT, TILE_SIDE_UNIT, TURN_LIMIT,
};
pub use memory::NoMemory;
pub use names::Name;
pub use offsets::{Offset, OffsetBox, Reach, Rect};
pub use operations::{FlatOp, GranOp, Op};
pub use receipts::Receipt;
pub use requests::{Ask, Awaited, End, Head, Next, Request};
pub use shapes::{Kind, Shape};
pub use submissions::{Command, Inputs, Submission};
pub use tasks::TaskId;
