//! Payloads that come in pieces, and the room that they take.

use mw_model::{Next, Request};
use mw_session_intake::Intake;
use std::alloc::Global;
use std::process::Abort;

fn image_in(next: Next) -> Option<Vec<u8>> {
    match next {
        Next::Request(Request::Load(_, payload)) => Some(payload),
        _ => None,
    }
}

fn feed(rt: &impl Abort, intake: &mut Intake, bytes: &[u8]) {
    intake.feed(bytes).ok().expect(rt, "memory");
}

fn next(rt: &impl Abort, intake: &mut Intake) -> Next {
    intake.next().ok().expect(rt, "memory")
}

/// A payload of so many bytes, of which `step` come at a time.
fn loaded(rt: &impl Abort, alloc: Global, len: usize, step: usize) -> Vec<u8> {
    let mut intake = Intake::new(alloc);
    let line = format!(in alloc; "LOAD x {len}\n")
        .ok()
        .expect(rt, "memory");
    let bytes = vec![in alloc; 7u8; len].ok().expect(rt, "memory");
    feed(rt, &mut intake, line.as_bytes());
    let mut last = next(rt, &mut intake);
    for piece in bytes.chunks(step.max(1)) {
        feed(rt, &mut intake, piece);
        last = next(rt, &mut intake);
    }
    image_in(last).expect(rt, "an image")
}

/// Lengths of payloads, and how many bytes of them come at a time.
const STEPS: &[(usize, usize)] = &[
    (8, 8),
    (100, 7),
    (1000, 1),
    (5000, 4096),
    (65_537, 65_536),
    (1_000_000, 65_536),
];

#[test]
fn a_payload_has_no_place_to_spare(rt: HostRuntime) {
    for (len, step) in STEPS {
        let payload = loaded(&rt, rt.alloc(), *len, *step);
        assert_eq!(rt; [payload.len(), payload.capacity()], [*len, *len]);
    }
}
