//! Whether two calls or two replies are the same.

ghost use Rattle.std.specs.Prelude.{◌≡◌, ◌↔◌, IsTrue};

use mw_model::{Call, Given, Name, Op, Reply};

fn same_name(a: Name, b: Name) -> bool
    ensures { IsTrue result ↔ (a ≡ b) }
{
    a == b
}

fn same_given(a: Given, b: Given) -> bool
    ensures { IsTrue result ↔ (a ≡ b) }
{
    a == b
}

fn same_op(a: Op, b: Op) -> bool
    ensures { IsTrue result ↔ (a ≡ b) }
{
    a == b
}

pub(crate) fn same_reply(a: Reply, b: Reply) -> bool
    ensures { IsTrue result ↔ (a ≡ b) }
{
    a == b
}

/// Part by part, since the check finds no proof of `==` on calls at once.
pub(crate) fn same_call(a: Call, b: Call) -> bool
    ensures { IsTrue result ↔ (a ≡ b) }
{
    match (a, b) {
        (Call::Load(n, g), Call::Load(m, h)) => same_name(n, m) && same_given(g, h),
        (Call::Element(n, g), Call::Element(m, h)) => same_name(n, m) && same_given(g, h),
        (Call::Run(n, o), Call::Run(m, p)) => same_name(n, m) && same_op(o, p),
        (Call::Cancel(n), Call::Cancel(m)) => same_name(n, m),
        (Call::Status(n), Call::Status(m)) => same_name(n, m),
        (Call::Fetch(n), Call::Fetch(m)) => same_name(n, m),
        (Call::Release(n), Call::Release(m)) => same_name(n, m),
        _ => false,
    }
}
