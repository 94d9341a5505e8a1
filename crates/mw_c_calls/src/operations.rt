//! Operations by their numbers.

ghost use Rattle.std.specs.Prelude.{◌≡◌, ◌<◌, List, true};
ghost use Rattle.mw_model.specs.declared.offsets.Offset.{Offset};
ghost use Rattle.mw_model.specs.declared.operations.Op.{Op};
ghost use Rattle.mw_model.specs.Pictures.{Picture};
ghost use Rattle.mw_plan.specs.Forms.{has_rows};
ghost use Rattle.mw_plan.specs.Steps.{operator_of};
ghost use Rattle.mw_c_calls.specs.Calls.{flat_asks, flat_of, operation_fault, takes_one};
ghost use Rattle.mw_c_calls.specs.Rows.{has_one_step};

use mw_model::{FlatOp, Name};

/// A name for the inputs of an operation, at which nobody looks here.
pub(crate) fn name() -> Name {
    match Name::parse(b"f") {
        Some(name) => name,
        None => unreachable!(),
    }
}

/// The flat operator of a number.
pub(crate) fn operation_of(operation: u32, k: u32) -> FlatOp
    requires { operation < 8 }
    ensures one { takes_one (Op.Flat result) ≡ true }
    ensures value { (e d : List Offset) (f : Picture) → operator_of result e d f ≡ flat_of operation k e f }
    ensures rows { has_rows result ≡ has_one_step operation }
    ensures asks { (e : List Offset) (f : Picture) → operation_fault (Op.Flat result) f e ≡ flat_asks operation k e }
{
    match operation {
        0 => FlatOp::Erode(name(), name()),
        1 => FlatOp::Dilate(name(), name()),
        2 => FlatOp::Opening(name(), name()),
        3 => FlatOp::Closing(name(), name()),
        4 => FlatOp::Gradient(name(), name()),
        5 => FlatOp::WhiteTopHat(name(), name()),
        6 => FlatOp::BlackTopHat(name(), name()),
        7 => FlatOp::Rank(name(), name(), k),
        _ => unreachable!(),
    }
}
