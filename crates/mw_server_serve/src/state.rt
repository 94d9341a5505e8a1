//! How a service is: one line of JSON, for whoever asks at the port for it.

use crate::counts::Counts;
use crate::resident::resident;
use std::alloc::Global;
use std::fs::File;
use std::sync::atomic::{AtomicU64, Ordering};

/// The number of turned away clients.
const BUSY: usize = 60;

fn of(counter: &AtomicU64) -> u64 {
    counter.load(Ordering::SeqCst)
}

/// The numbers of the refusals that there were, in their order, and how many clients were turned away. None where there is no
/// memory for them.
fn refusals(alloc: Global, counts: &Counts) -> Option<String<Global>> {
    let mut text = String::new(alloc);
    for (number, counter) in counts.refused.iter().enumerate() {
        let count = of(counter);
        if count > 0 && number != BUSY {
            let one = format!(in alloc; "\"{number}\":{count},").ok()?;
            text.push_str(one.as_str()).ok()?;
        }
    }
    let turned_away = of(&counts.turned_away);
    let last = format!(in alloc; "\"{BUSY}\":{turned_away}").ok()?;
    text.push_str(last.as_str()).ok()?;
    Some(text)
}

/// How many bytes are resident, by the file that tells; `null` where the system does not. None where there is no memory for them.
fn resident_text(alloc: Global, sizes: &Option<File>) -> Option<String<Global>> {
    let told = match sizes {
        Some(sizes) => resident(sizes),
        None => None,
    };
    match told {
        Some(bytes) => format!(in alloc; "{bytes}").ok(),
        None => format!(in alloc; "null").ok(),
    }
}

/// The line. None where there is no memory for it.
pub(crate) fn state_line(
    alloc: Global,
    counts: &Counts,
    sizes: &Option<File>,
    version: &str,
) -> Option<String<Global>> {
    let ended = of(&counts.ended);
    let begun = of(&counts.begun);
    let now = begun.saturating_sub(ended);
    let refusals = refusals(alloc, counts)?;
    let resident = resident_text(alloc, sizes)?;
    let read = of(&counts.read);
    let written = of(&counts.written);
    let answered = of(&counts.answered);
    let milliseconds = of(&counts.computed) / 1_000_000;
    let (seconds, rest) = (milliseconds / 1000, milliseconds % 1000);
    format!(in alloc;
        "{{\"version\":\"{version}\",\"sessions\":{{\"now\":{now},\"begun\":{begun}}},\"requests\":{answered},\"refusals\":{{{refusals}}},\"bytes\":{{\"read\":{read},\"written\":{written},\"resident\":{resident}}},\"seconds\":{{\"computing\":{seconds}.{rest:03}}}}}\n"
    ).ok()
}
