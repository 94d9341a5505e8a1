//! Requests within a budget: what would go over it is answered as where memory is refused, before it is taken. What may be
//! refused so is what each request's contract says of memory; when a RUN is, its contract says too.

ghost use Rattle.std.specs.Prelude.{◌≡◌, ◌≢◌, ◌⊎◌, [], ℕ, List, IfOk, OnErr, IsOk, IsErr, IsTrue, None, Ok, false};
ghost use Rattle.std.specs.Result.{ForOk};
ghost use Rattle.mw_model.specs.Lines.{AskElement, AskLoad};
ghost use Rattle.mw_model.specs.Machine.{Machine};
ghost use Rattle.mw_model.specs.Pictures.{IsImage};
ghost use Rattle.mw_model.specs.Refusals.{refusal};
ghost use Rattle.mw_model.specs.Scripts.{refused_unread};
ghost use Rattle.mw_model.specs.Stands.{StandsFor};
ghost use Rattle.mw_core_waves.specs.mw_core_laws.Events.{FollowsMachine, IsFresh, handed_out};
ghost use Rattle.mw_core_waves.specs.mw_core_laws.Payloads.{element_payload, given_element, given_image, image_payload};
ghost use Rattle.mw_core_waves.specs.mw_core_laws.Rows.{IsLogFull};
ghost use Rattle.mw_core_waves.specs.mw_session_laws.Payloads.{ReadsImage, ReadsElement};
ghost use Rattle.mw_core_bytes.specs.Growth.{payload_bytes};
ghost use Rattle.mw_core_waves.specs.mw_core.Costs.{run_bytes, told_bytes};
ghost use Rattle.mw_session_fetch.specs.mw_store.Fetches.{shown_value};
ghost use Rattle.mw_session.specs.Budgets.{OnlyAsks, HasLeft, KeepsCount, kept_part, may_take, payload_cost, with_answer, with_item};

use crate::budget::Budget;
use crate::costs;
use mw_core_waves::Core;
use mw_core_waves::payloads::{read_element, read_image};
use mw_core_waves::values::{Element, Fetched, Image, bytes_of_element};
use mw_model::{Call, Code, Name, NoMemory, Op, Reply};
use std::alloc::Global;

/// What an item takes in the log, whose room doubles as it grows.
const ITEM: u64 = 128;

/// The block that the item of a RUN has beside it.
const LONG_ITEM: u64 = 256;

/// What a request keeps once it is accepted: so many bytes that the core counts, and so many that it does not.
#[derive(Clone, Copy)]
struct Cost {
    counted: u64,
    beside: u64,
}

/// Whether one more item of the log would go over the budget: it may only where it begins a row, and the whole row is asked for.
fn lacks_log_room(budget: &mut Budget, core: &Core) -> bool
    ensures full { IsTrue result → IsLogFull core.now }
    ensures asks { OnlyAsks core.now budget.old budget.new }
{
    if !budget.is_bounded() || !core.is_log_full() {
        return false;
    }
    !budget.allows(core, core.row_bytes())
}

/// Whether a payload, and what is made of it, would go over the budget.
fn lacks_room(budget: &mut Budget, core: &Core, kept: u64, taken: u64) -> bool
    ensures { OnlyAsks core.now budget.old budget.new }
{
    if !budget.allows(core, kept) {
        return true;
    }
    !budget.allows_for_a_while(core, taken)
}

/// The image of a payload; want of memory, where it would go over the budget.
pub(crate) fn image_of(
    alloc: Global,
    budget: &mut Budget,
    core: &Core,
    payload: Vec<u8>,
) -> Result<Image, Code>
    ensures read { ReadsImage payload.items result }
    ensures image { ForOk result IsImage }
    ensures asks { OnlyAsks core.now budget.old budget.new }
{
    let (kept, taken) = costs::of_load(&payload, payload.capacity());
    if lacks_room(budget, core, kept, taken) {
        return Err(Code::Memory);
    }
    read_image(alloc, payload)
}

/// The image, if it may be kept, with so many bytes beside it; else want of memory.
pub(crate) fn kept_image(
    budget: &mut Budget,
    core: &Core,
    image: Result<Image, Code>,
    beside: u64,
) -> Result<Image, Code>
    requires { ForOk image IsImage }
    ensures read { (bytes : List ℕ) → ReadsImage bytes image → ReadsImage bytes result }
    ensures image { ForOk result IsImage }
    ensures asks { OnlyAsks core.now budget.old budget.new }
    ensures left { IfOk result (λ f. HasLeft budget.new (payload_cost (told_bytes (payload_bytes core.now (given_image (Ok f)) (image_payload (Ok f)))) beside)) }
{
    let counted = image_bytes(core, &image);
    if budget.allows(core, counted.saturating_add(beside).saturating_add(ITEM)) {
        return image;
    }
    Err(Code::Memory)
}

/// The element, if it may be kept; else want of memory.
pub(crate) fn kept_element(
    budget: &mut Budget,
    core: &Core,
    element: Result<Element, Code>,
) -> Result<Element, Code>
    ensures read { (bytes : List ℕ) (ox oy : ℕ) → ReadsElement bytes ox oy element → ReadsElement bytes ox oy result }
    ensures asks { OnlyAsks core.now budget.old budget.new }
    ensures left { IfOk result (λ b. HasLeft budget.new (payload_cost (told_bytes (payload_bytes core.now (given_element (Ok b)) (element_payload (Ok b)))) 0)) }
{
    let counted = element_bytes(core, &element);
    if budget.allows(core, counted.saturating_add(0).saturating_add(ITEM)) {
        return element;
    }
    Err(Code::Memory)
}

/// What an image that is loaded is counted as.
fn image_bytes(core: &Core, image: &Result<Image, Code>) -> u64
    ensures { result ≡ told_bytes (payload_bytes core.now (given_image image.now) (image_payload image.now)) }
{
    match image {
        Ok(image) => core.image_bytes(image),
        Err(_) => 0,
    }
}

/// The element of a payload, with its origin in this column and row; want of memory, where it would go over the budget.
pub(crate) fn element_of(
    alloc: Global,
    budget: &mut Budget,
    core: &Core,
    payload: &[u8],
    at: (u32, u32),
) -> Result<Element, Code>
    ensures read { ReadsElement payload.now at.0 at.1 result }
    ensures asks { OnlyAsks core.now budget.old budget.new }
{
    if !budget.allows(core, costs::of_element(payload.len())) {
        return Err(Code::Memory);
    }
    read_element(alloc, payload, at.0, at.1)
}

/// What an element that is loaded is counted as.
fn element_bytes(core: &Core, element: &Result<Element, Code>) -> u64
    ensures { result ≡ told_bytes (payload_bytes core.now (given_element element.now) (element_payload element.now)) }
{
    let _side = core.side();
    match element {
        Ok(element) => bytes_of_element(element),
        Err(_) => 0,
    }
}

/// Counts the item of the log that a call has left.
fn count_item<X, E>(budget: &mut Budget, got: &Result<X, E>)
    ensures { budget.new ≡ with_item budget.old got.now }
{
    if let Ok(_) = got {
        budget.take(ITEM);
    }
}

/// Counts an item of the log, and what an accepted request keeps.
fn count(budget: &mut Budget, reply: Result<Reply, NoMemory>, cost: Cost)
    ensures { budget.new ≡ with_answer budget.old reply cost.counted cost.beside }
{
    match reply {
        Ok(Reply::Accepted(_)) => {
            budget.take(ITEM);
            budget.take(cost.counted);
            budget.take_beside(cost.beside);
        }
        Ok(_) => budget.take(ITEM),
        Err(NoMemory) => {}
    }
}

/// LOAD of this image, which keeps so many bytes beside it.
pub(crate) fn load(
    budget: &mut Budget,
    core: &mut Core,
    name: Name,
    image: Result<Image, Code>,
    beside: u64,
) -> Result<Reply, NoMemory>
    requires { ForOk image IsImage }
    ensures served { IfOk result (FollowsMachine core.old (Call.Load name (given_image image)) (image_payload image) core.new) }
    ensures memory { IfOk result (λ r. r ≢ Reply.Refused Code.Memory) }
    ensures err { OnErr result (core.new ≡ core.old) }
    ensures first { OnErr result (IsLogFull core.old ⊎ (refused_unread core.old.table (AskLoad name []) ≡ None)) }
    ensures keeps { IfOk image (λ f. HasLeft budget.old (payload_cost (told_bytes (payload_bytes core.old (given_image (Ok f)) (image_payload (Ok f)))) beside)) → KeepsCount core.old budget.old core.new budget.new }
{
    if lacks_log_room(budget, core) {
        return Err(NoMemory);
    }
    let counted = image_bytes(core, &image);
    let reply = core.load(name, image);
    count(budget, reply, Cost { counted, beside });
    reply
}

/// ELEMENT of this element.
pub(crate) fn element(
    budget: &mut Budget,
    core: &mut Core,
    name: Name,
    element: Result<Element, Code>,
) -> Result<Reply, NoMemory>
    ensures served { IfOk result (FollowsMachine core.old (Call.Element name (given_element element)) (element_payload element) core.new) }
    ensures memory { IfOk result (λ r. r ≢ Reply.Refused Code.Memory) }
    ensures err { OnErr result (core.new ≡ core.old) }
    ensures first { OnErr result (IsLogFull core.old ⊎ (refused_unread core.old.table (AskElement name 0 0 []) ≡ None)) }
    ensures keeps { IfOk element (λ b. HasLeft budget.old (payload_cost (told_bytes (payload_bytes core.old (given_element (Ok b)) (element_payload (Ok b)))) 0)) → KeepsCount core.old budget.old core.new budget.new }
{
    if lacks_log_room(budget, core) {
        return Err(NoMemory);
    }
    let counted = element_bytes(core, &element);
    let reply = core.element(name, element);
    count(budget, reply, Cost { counted, beside: 0 });
    reply
}

/// RUN.
pub(crate) fn run(
    budget: &mut Budget,
    core: &mut Core,
    name: Name,
    op: Op,
) -> Result<Reply, NoMemory>
    ensures served { IfOk result (FollowsMachine core.old (Call.Run name op) None core.new) }
    ensures fresh { (t : ℕ) → IfOk result (λ r. r ≡ Reply.Accepted t → IsFresh core.new t) }
    ensures err { OnErr result (core.new ≡ core.old) }
    // One that would take more than the budget has left is refused.
    ensures over { refusal core.old.table core.old.kept (Call.Run name op) ≡ None → may_take kept_part budget.old core.old (told_bytes (run_bytes core.old op)) ≡ false → IsErr result }
    ensures keeps { KeepsCount core.old budget.old core.new budget.new }
{
    if !budget.is_bounded() {
        return core.run(name, op);
    }
    let counted = core.run_bytes(name, op);
    if !budget.allows(core, counted.saturating_add(LONG_ITEM + ITEM)) {
        return Err(NoMemory);
    }
    let reply = core.run(name, op);
    budget.take_beside(LONG_ITEM);
    count(budget, reply, Cost { counted, beside: 0 });
    reply
}

/// STATUS.
pub(crate) fn status(budget: &mut Budget, core: &mut Core, name: Name) -> Result<Reply, NoMemory>
    ensures served { IfOk result (FollowsMachine core.old (Call.Status name) None core.new) }
    ensures err { OnErr result (core.new ≡ core.old) }
    ensures full { OnErr result (IsLogFull core.old) }
    ensures keeps { KeepsCount core.old budget.old core.new budget.new }
{
    if lacks_log_room(budget, core) {
        return Err(NoMemory);
    }
    let reply = core.status(name);
    count_item(budget, &reply);
    reply
}

/// Whether a CANCEL would go over the budget. One that is accepted does not.
fn lacks_cancel_room(budget: &mut Budget, core: &Core, name: Name) -> bool
    ensures full { IsTrue result → IsLogFull core.now }
    ensures refused { (m : Machine) → StandsFor core.now m → refusal m.table m.payloads (Call.Cancel name) ≡ None → result ≡ false }
    ensures asks { OnlyAsks core.now budget.old budget.new }
{
    if !budget.is_bounded() || core.can_cancel(name) {
        return false;
    }
    lacks_log_room(budget, core)
}

/// CANCEL. One that is accepted takes no memory.
pub(crate) fn cancel(budget: &mut Budget, core: &mut Core, name: Name) -> Result<Reply, NoMemory>
    ensures served { IfOk result (FollowsMachine core.old (Call.Cancel name) None core.new) }
    ensures err { OnErr result (core.new ≡ core.old) }
    ensures full { OnErr result (IsLogFull core.old) }
    ensures succeeds { (m : Machine) → StandsFor core.old m → refusal m.table m.payloads (Call.Cancel name) ≡ None → IsOk result }
    ensures keeps { KeepsCount core.old budget.old core.new budget.new }
{
    if lacks_cancel_room(budget, core, name) {
        return Err(NoMemory);
    }
    let reply = core.cancel(name);
    count_item(budget, &reply);
    reply
}

/// Whether a RELEASE would go over the budget. One that is accepted is never refused for it.
fn lacks_release_room(budget: &mut Budget, core: &Core, name: Name) -> bool
    ensures full { IsTrue result → IsLogFull core.now }
    ensures asks { OnlyAsks core.now budget.old budget.new }
{
    if !budget.is_bounded() || core.can_release(name) {
        return false;
    }
    lacks_log_room(budget, core)
}

/// RELEASE. One that is accepted gives memory back, so it is never refused for the budget.
pub(crate) fn release(budget: &mut Budget, core: &mut Core, name: Name) -> Result<Reply, NoMemory>
    ensures served { IfOk result (FollowsMachine core.old (Call.Release name) None core.new) }
    ensures err { OnErr result (core.new ≡ core.old) }
    ensures full { OnErr result (IsLogFull core.old) }
    ensures keeps { KeepsCount core.old budget.old core.new budget.new }
{
    if lacks_release_room(budget, core, name) {
        return Err(NoMemory);
    }
    let reply = core.release(name);
    count_item(budget, &reply);
    reply
}

/// Whether a FETCH would go over the budget: its place in the log, or its text.
fn lacks_fetch_room(budget: &mut Budget, core: &Core, name: Name) -> bool
    ensures { OnlyAsks core.now budget.old budget.new }
{
    if !budget.is_bounded() {
        return false;
    }
    lacks_room(budget, core, core.row_bytes(), core.text_bytes(name))
}

/// FETCH.
pub(crate) fn fetch(budget: &mut Budget, core: &mut Core, name: Name) -> Result<Fetched, NoMemory>
    ensures served { IfOk result (λ f. FollowsMachine core.old (Call.Fetch name) None core.new f.reply) }
    ensures value { (m : Machine) → StandsFor core.old m → IfOk result (λ f. shown_value f.value ≡ handed_out m f.reply) }
    ensures err { OnErr result (core.new ≡ core.old) }
    ensures keeps { KeepsCount core.old budget.old core.new budget.new }
{
    if lacks_fetch_room(budget, core, name) {
        return Err(NoMemory);
    }
    let fetched = core.fetch(name);
    count_item(budget, &fetched);
    fetched
}
