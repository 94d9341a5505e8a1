//! For each step, which steps read it: lists that run through the steps.
//!
//! A step stands in the list of each step that it reads, in at most three. So the next one of each of these lists stands
//! beside it, and one pass from the last step to the first makes all lists.

ghost use Rattle.std.specs.Prelude.{◌≡◌, ◌≢◌, ℕ, ◌+◌, ◌<◌, ◌≤◌, IfOk, None, length, true, cond, slice_index, slice_index_or};
ghost use Rattle.mw_ready.specs.Boards.{is_source, step_reads};
ghost use Rattle.mw_ready.specs.Links.{Linked, Skips, link_at};

use crate::need::Need;
use mw_model::NoMemory;
use std::alloc::Global;

/// The first step that reads a step, and for each of its own sources the next step that reads that one too.
#[derive(Clone, Copy)]
pub(crate) struct Link {
    first: u32,
    next: [u32; 3],
}

/// The first reader of a source, if that is a step.
pub(crate) fn first_reader(links: &[Link], source: Option<u32>) -> u32
    ensures { (s : ℕ) → s < length links.now → is_source s source ≡ true → result ≡ (link_at links.now s).first }
{
    match source {
        Some(step) if (step as usize) < links.len() => links[step as usize].first,
        _ => 0,
    }
}

/// From now on this is the first reader of a source, if that is a step.
fn read_first(links: &mut [Link], source: Option<u32>, reader: u32)
    ensures size { length links.new ≡ length links.old }
    ensures next { (k : ℕ) → (link_at links.new k).next ≡ (link_at links.old k).next }
    ensures first { (s : ℕ) → s < length links.old → (link_at links.new s).first ≡ cond (is_source s source) reader (link_at links.old s).first }
{
    if let Some(step) = source {
        if (step as usize) < links.len() {
            links[step as usize].first = reader;
        }
    }
}

/// A step with this need joins the lists of all that it reads, before the later steps.
fn join(links: &mut [Link], need: Need, step: u32)
    requires { step < length links.old }
    ensures size { length links.new ≡ length links.old }
    ensures first { (s : ℕ) → s < length links.old → (link_at links.new s).first ≡ cond (step_reads need s) step (link_at links.old s).first }
    ensures next { (i s : ℕ) → i < 3 → s < length links.old → is_source s (slice_index_or need.steps i None) ≡ true → slice_index (link_at links.new step).next i ≡ (link_at links.old s).first }
    ensures others { (k : ℕ) → k ≢ step → (link_at links.new k).next ≡ (link_at links.old k).next }
{
    let [first, second, third] = need.steps;
    links[step as usize].next = [
        first_reader(links, first),
        first_reader(links, second),
        first_reader(links, third),
    ];
    read_first(links, first, step);
    read_first(links, second, step);
    read_first(links, third, step);
}

/// Who reads each step of a plan with these needs.
pub(crate) fn links_of(alloc: Global, needs: &[Need]) -> Result<Vec<Link>, NoMemory>
    requires { length needs.now ≤ 65535 }
    ensures { IfOk result (λ v. Linked needs.now v.items 0) }
{
    let none = Link {
        first: needs.len() as u32,
        next: [0; 3],
    };
    let mut links = vec![in alloc; none; needs.len()]?;
    let mut step = needs.len();
    while step > 0 {
        step -= 1;
        join(&mut links, needs[step], step as u32);
    }
    Ok(links)
}

/// The next step behind a reader of a step that reads it too; where there is none, one behind the plan.
pub(crate) fn next_reader(links: &[Link], needs: &[Need], reader: u32, step: u32) -> u32
    requires reader { reader < length needs.now }
    requires step { step < length needs.now }
    requires few { length needs.now ≤ 65535 }
    requires linked { Linked needs.now links.now 0 }
    ensures { Skips needs.now step (reader + 1) result }
{
    let need = needs[reader as usize];
    for i in 0..3 {
        if need.steps[i] == Some(step) {
            return links[reader as usize].next[i];
        }
    }
    reader + 1
}
