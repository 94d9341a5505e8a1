//! Why a call is refused: the first case that holds.

ghost use Rattle.std.specs.Prelude.{◌≡◌, ℕ, ◌<◌, ◌∷◌, [], length, Some, None, OnOk, IfOk, false};
ghost use Rattle.std.specs.List.{AllByRecursion};
ghost use Rattle.mw_model.specs.Values.{tickets};
ghost use Rattle.mw_model.specs.Refusals.{refusal, name_taken, no_room, input_case, inputs_wanted, is_image, is_element, ticket_of, ticket, outcome_at, AnImage, AnElement};
ghost use Rattle.mw_model.specs.Machine.{run_submission, reply_from, status_reply};
ghost use Rattle.mw_store.specs.mw_plan.Asked.{fault_in};
ghost use Rattle.mw_core_refusals.specs.Checks.{refused, state_case, inputs_case};
ghost use Rattle.mw_core_refusals.specs.Found.{AreFound, IsFoundElement, IsFoundImage};

use mw_model::{
    Call, Code, Command, ENTRY_LIMIT, FlatOp, Given, GranOp, Inputs, Name, Op, Outcome, Reply,
    Shape, Submission,
};
use mw_store::plan::{Input, shape_of};
use mw_store::{ResolvedRun, Store};

fn free(store: &Store, name: Name) -> Result<(), Code>
    ensures code { refused result ≡ name_taken store.now.table name }
    ensures ok { OnOk result (ticket_of store.now.table.names name ≡ None) }
{
    match store.find(name) {
        Some(_) => Err(Code::NameTaken),
        None => Ok(()),
    }
}

fn room(store: &Store) -> Result<(), Code>
    ensures code { refused result ≡ no_room store.now.table }
    ensures ok { OnOk result (length store.now.table.names < ENTRY_LIMIT) }
{
    if (store.len() as usize) < ENTRY_LIMIT {
        Ok(())
    } else {
        Err(Code::Full)
    }
}

/// Whether an input is neither dead nor released.
fn usable(outcome: Outcome) -> Result<(), Code>
    ensures { refused result ≡ state_case outcome }
{
    if outcome.is_dead() {
        Err(Code::Dead)
    } else if outcome.is_released() {
        Err(Code::Released)
    } else {
        Ok(())
    }
}

/// The ticket of an image, and what a plan is told of it.
fn image(store: &Store, name: Name) -> Result<(u32, Input<'_>), Code>
    ensures code { refused result ≡ input_case store.now.table is_image name }
    ensures found { IfOk result (λ f. IsFoundImage store.now name f.0 f.1) }
{
    let Some(t) = store.find(name) else {
        return Err(Code::Unknown);
    };
    let shape = store.shape(t);
    if !shape.is_image() {
        return Err(Code::Kind);
    }
    usable(store.outcome(t))?;
    Ok((t, Input::Image(shape)))
}

/// The ticket of an element, and what a plan is told of it.
fn element(store: &Store, name: Name) -> Result<(u32, Input<'_>), Code>
    ensures code { refused result ≡ input_case store.now.table is_element name }
    ensures found { IfOk result (λ f. IsFoundElement store.now name f.0 f.1) }
{
    let Some(t) = store.find(name) else {
        return Err(Code::Unknown);
    };
    if !store.shape(t).is_element() {
        return Err(Code::Kind);
    }
    usable(store.outcome(t))?;
    let Some(element) = store.element(t) else {
        unreachable!()
    };
    Ok((t, Input::Element(element)))
}

/// The inputs of a RUN: their tickets, and what a plan is told of them.
#[derive(Clone, Copy)]
struct FoundInputs<'a> {
    tickets: Inputs,
    a: Input<'a>,
    b: Input<'a>,
    c: Input<'a>,
}

fn one_input(store: &Store, f: Name) -> Result<FoundInputs<'_>, Code>
    ensures code { refused result ≡ inputs_case store.now.table (AnImage f ∷ []) }
    ensures found { IfOk result (λ r. AreFound store.now (AnImage f ∷ []) r.tickets r.a r.b r.c) }
{
    let (t, a) = image(store, f)?;
    Ok(FoundInputs {
        tickets: Inputs {
            a: Some(t),
            b: None,
            c: None,
        },
        a,
        b: Input::Absent,
        c: Input::Absent,
    })
}

fn two_inputs(store: &Store, f: Name, b: Name) -> Result<FoundInputs<'_>, Code>
    ensures code { refused result ≡ inputs_case store.now.table (AnImage f ∷ AnElement b ∷ []) }
    ensures found { IfOk result (λ r. AreFound store.now (AnImage f ∷ AnElement b ∷ []) r.tickets r.a r.b r.c) }
{
    let (t, first) = image(store, f)?;
    let (u, second) = element(store, b)?;
    Ok(FoundInputs {
        tickets: Inputs {
            a: Some(t),
            b: Some(u),
            c: None,
        },
        a: first,
        b: second,
        c: Input::Absent,
    })
}

fn three_inputs(store: &Store, f: Name, hit: Name, miss: Name) -> Result<FoundInputs<'_>, Code>
    ensures code { refused result ≡ inputs_case store.now.table (AnImage f ∷ AnElement hit ∷ AnElement miss ∷ []) }
    ensures found { IfOk result (λ r. AreFound store.now (AnImage f ∷ AnElement hit ∷ AnElement miss ∷ []) r.tickets r.a r.b r.c) }
{
    let (t, first) = image(store, f)?;
    let (u, second) = element(store, hit)?;
    let (v, third) = element(store, miss)?;
    Ok(FoundInputs {
        tickets: Inputs {
            a: Some(t),
            b: Some(u),
            c: Some(v),
        },
        a: first,
        b: second,
        c: third,
    })
}

fn inputs(store: &Store, op: Op) -> Result<FoundInputs<'_>, Code>
    ensures code { refused result ≡ inputs_case store.now.table (inputs_wanted op) }
    ensures found { IfOk result (λ r. AreFound store.now (inputs_wanted op) r.tickets r.a r.b r.c) }
{
    match op {
        Op::Flat(FlatOp::Threshold(f, _)) => one_input(store, f),
        Op::Flat(FlatOp::HitMiss(f, hit, miss)) => three_inputs(store, f, hit, miss),
        Op::Flat(
            FlatOp::Erode(f, b)
            | FlatOp::Dilate(f, b)
            | FlatOp::Opening(f, b)
            | FlatOp::Closing(f, b)
            | FlatOp::Gradient(f, b)
            | FlatOp::WhiteTopHat(f, b)
            | FlatOp::BlackTopHat(f, b)
            | FlatOp::Rank(f, b, _),
        ) => two_inputs(store, f, b),
        Op::Gran(
            GranOp::Skeleton(f, b, _) | GranOp::Restore(f, b, _) | GranOp::Spectrum(f, b, _),
        ) => two_inputs(store, f, b),
    }
}

/// What stands in the table for a RUN, with its inputs as a plan is told of them, or why it is refused.
pub fn of_run(store: &Store, name: Name, op: Op) -> Result<ResolvedRun<'_>, Code>
    ensures code { refused result ≡ refusal store.now.table store.now.kept (Call.Run name op) }
    ensures submission { IfOk result (λ r. r.submission ≡ run_submission store.now.table op) }
    ensures below { IfOk result (λ r. AllByRecursion (λ i. i < length store.now.table.names) (tickets r.submission.inputs)) }
    ensures inputs { IfOk result (λ r. AreFound store.now (inputs_wanted op) r.submission.inputs r.a r.b r.c) }
    ensures faultless { IfOk result (λ r. fault_in op r.a r.b r.c ≡ None) }
    ensures made { IfOk result (λ r. is_element r.submission.shape ≡ false) }
    ensures free { OnOk result (ticket_of store.now.table.names name ≡ None) }
    ensures room { OnOk result (length store.now.table.names < ENTRY_LIMIT) }
{
    free(store, name)?;
    room(store)?;
    let found = inputs(store, op)?;
    match shape_of(&op, found.a, found.b, found.c) {
        Err(fault) => Err(fault.code()),
        Ok(shape) => Ok(ResolvedRun {
            submission: Submission {
                shape,
                command: Command::Run(op),
                inputs: found.tickets,
            },
            a: found.a,
            b: found.b,
            c: found.c,
        }),
    }
}

/// Why a LOAD or an ELEMENT is refused, if it is.
pub fn of_given(store: &Store, name: Name, given: Given) -> Result<(), Code>
    ensures load { refused result ≡ refusal store.now.table store.now.kept (Call.Load name given) }
    ensures element { refused result ≡ refusal store.now.table store.now.kept (Call.Element name given) }
    ensures free { OnOk result (ticket_of store.now.table.names name ≡ None) }
    ensures room { OnOk result (length store.now.table.names < ENTRY_LIMIT) }
{
    free(store, name)?;
    room(store)?;
    match given {
        Given::Good(_) => Ok(()),
        Given::Bad(code) => Err(code),
    }
}

/// The ticket to cancel, or why there is none.
pub fn of_cancel(store: &Store, name: Name) -> Result<u32, Code>
    ensures code { refused result ≡ refusal store.now.table store.now.kept (Call.Cancel name) }
    ensures ok { IfOk result (λ t. t ≡ ticket store.now.table name) }
    ensures within { IfOk result (λ t. t < length store.now.table.names) }
    ensures pending { IfOk result (λ t. outcome_at store.now.table.outcomes t ≡ Outcome.Pending) }
{
    let Some(t) = store.find(name) else {
        return Err(Code::Unknown);
    };
    match store.outcome(t) {
        Outcome::Pending => Ok(t),
        _ => Err(Code::Settled),
    }
}

/// The ticket to release, or why there is none.
pub fn of_release(store: &Store, name: Name) -> Result<u32, Code>
    ensures code { refused result ≡ refusal store.now.table store.now.kept (Call.Release name) }
    ensures ok { IfOk result (λ t. t ≡ ticket store.now.table name) }
    ensures within { IfOk result (λ t. t < length store.now.table.names) }
    ensures done { IfOk result (λ t. outcome_at store.now.table.outcomes t ≡ Outcome.Done) }
{
    let Some(t) = store.find(name) else {
        return Err(Code::Unknown);
    };
    match store.outcome(t) {
        Outcome::Pending => Err(Code::Pending),
        Outcome::Cancelled | Outcome::Memory | Outcome::Input(_) => Err(Code::Dead),
        Outcome::Released => Err(Code::Released),
        Outcome::Done => Ok(t),
    }
}

/// How an entry stands.
fn told(t: u32, shape: Shape, outcome: Outcome) -> Reply
    ensures { result ≡ status_reply t shape outcome }
{
    match outcome {
        Outcome::Pending => Reply::Pending(t),
        Outcome::Done => Reply::Done(t, shape),
        Outcome::Cancelled => Reply::Cancelled(t),
        Outcome::Memory => Reply::OutOfMemory(t),
        Outcome::Input(s) => Reply::BadInput(t, s),
        Outcome::Released => Reply::Released(t),
    }
}

/// The reply to a STATUS.
pub fn status_reply(store: &Store, name: Name) -> Reply
    ensures { result ≡ reply_from store.now.table store.now.kept (Call.Status name) }
{
    match store.find(name) {
        Some(t) => told(t, store.shape(t), store.outcome(t)),
        None => Reply::Refused(Code::Unknown),
    }
}

/// The reply to a FETCH.
pub fn fetch_reply(store: &Store, name: Name) -> Reply
    ensures value { result ≡ reply_from store.now.table store.now.kept (Call.Fetch name) }
    ensures within { (t : ℕ) → result ≡ Reply.Shown t → t < length store.now.table.names }
{
    let Some(t) = store.find(name) else {
        return Reply::Refused(Code::Unknown);
    };
    if store.shape(t).is_element() {
        return Reply::Refused(Code::Kind);
    }
    match store.outcome(t) {
        Outcome::Done => Reply::Shown(t),
        outcome => told(t, store.shape(t), outcome),
    }
}
