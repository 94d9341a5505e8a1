//! Whether the value of a name is still to come.

ghost use Rattle.std.specs.Prelude.{◌≡◌, ◌↔◌, IfSome, IsSome, Some};
ghost use Rattle.mw_model.specs.Machine.{Machine};
ghost use Rattle.mw_model.specs.Refusals.{ticket_of};
ghost use Rattle.mw_model.specs.Stands.{StandsFor};
ghost use Rattle.mw_pool.specs.Tickets.{IsAwaited};

use mw_model::Name;
use mw_pool_passes::Core;

/// The ticket of the name, if its entry is pending.
pub(crate) fn awaited_ticket(core: &Core, name: Name) -> Option<u32>
    ensures ticket { (m : Machine) → StandsFor core.now m → IfSome result (λ t. ticket_of m.table.names name ≡ Some t) }
    ensures awaited { (m : Machine) → StandsFor core.now m → IsSome result ↔ IsAwaited m.table name }
{
    let t = core.ticket_of(name)?;
    if core.remaining(t).is_some() {
        Some(t)
    } else {
        None
    }
}
