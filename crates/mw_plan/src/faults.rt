//! Why there is no plan.

ghost use Rattle.std.specs.Prelude.{◌≡◌};
ghost use Rattle.mw_plan.specs.Faults.{plan_code};

use mw_model::{Code, NoMemory};

/// Why an operation is refused on its inputs: the first case that holds, from top to bottom. Memory stands apart.
#[derive(Clone, Copy, PartialEq, Eq, Debug)]
pub enum PlanFault {
    /// What stands in this place, counted from 0, is not what the operation takes there.
    Kind(u8),
    /// A set is wanted and the image is none.
    Binary,
    /// The element does not hold its origin.
    NoOrigin,
    /// The two elements share an offset.
    Overlap,
    /// A number outside its limits.
    Param,
    NoMemory,
}

impl PlanFault {
    /// The refusal that this is.
    pub fn code(self) -> Code
        ensures { result ≡ plan_code self }
    {
        match self {
            PlanFault::Kind(_) => Code::Kind,
            PlanFault::Binary => Code::Binary,
            PlanFault::NoOrigin => Code::NoOrigin,
            PlanFault::Overlap => Code::Overlap,
            PlanFault::Param => Code::Param,
            PlanFault::NoMemory => Code::Memory,
        }
    }
}

impl From<NoMemory> for PlanFault {
    ghost use Rattle.std.specs.Prelude.{◌≡◌};
    ghost use Rattle.mw_plan.specs.declared.faults.PlanFault.TheVariants as fault;

    ghost from_gives = { λ _ e. e ≡ fault.NoMemory };

    fn from(_error: NoMemory) -> PlanFault {
        PlanFault::NoMemory
    }
}
