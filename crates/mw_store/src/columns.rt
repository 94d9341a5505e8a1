//! The table of entries, and the values that are kept of them.

ghost use Rattle.std.specs.Prelude.{count_by, true, false, ◌≡◌, ◌⊎◌, ◌&&◌, ℕ, ◌+◌, ◌<◌, ◌≤◌, [], ◌∷◌, ◌++◌, length, nat_eq, OnOk, OnErr, IfOk, IfSome, Some, None, IsSome, is_some, option_map, slice_set};
ghost use Rattle.mw_model.specs.declared.limits.TheConstants.{ENTRY_LIMIT};

use crate::cascade::fail_dependents;
use crate::image_shapes::ImageShape;
use crate::kept::{Entry, StoredValue};
use crate::outcomes::{count_pending, one_if_pending};
use crate::plates::Plate;
use crate::row_room::{reserve_name, reserve_row};
use crate::spent::{drop_inputs, drop_one, drop_spent};
use crate::waiting::{
    Waiters, WaitingList, drop_settled, pending_inputs, push_inputs, reserve_inputs,
};
use crate::wanted::{count_wanted, lower_inputs, raise_inputs};
use indexmap::IndexSet;
use mw_gran::Curve;
use mw_model::{Command, Given, Inputs, Name, NoMemory, Op, Outcome, Rect, Shape, Submission};
use mw_tile_planes::element::Element;
use mw_tile_planes::pieces::SharedWindow;
use std::alloc::Global;
use std::marker::Model;
use std::mem::replace;
use std::sync::Arc;

/// Names, submissions, outcomes and values, all by ticket.
#[derive(Drop)]
pub struct Store {
    names: IndexSet<Name>,
    submissions: Vec<Submission>,
    outcomes: Vec<Outcome>,
    kept: Vec<Option<StoredValue>>,
    // How many pending entries have the ticket as an input, and the lists of those that wait for a pending ticket: so
    // no call but `kill` looks at all entries.
    wanted: Vec<u32>,
    waiting: Vec<WaitingList>,
    pending: usize,
    alloc: Global,
}

impl Model for Store {
    ghost use Rattle.std.specs.Prelude.{map, option_map, length, ◌+◌, vec_capacity};
    ghost use Rattle.indexmap.specs.IndexSet.{spare};
    ghost use Rattle.mw_store.specs.Kept.{kept_value};
    ghost use Rattle.mw_store.specs.RowRoom.{HasRowOfEach};
    ghost use Rattle.mw_store.specs.Stored.{Stored, IsTracked};

    ghost Value = { Stored };

    ghost view = { λ s. record {
      table = record {
        names = s.names.keys;
        submissions = s.submissions.items;
        outcomes = s.outcomes.items;
      };
      kept = map (option_map kept_value) s.kept.items;
    } };

    ghost invariant = { λ s. IsTracked
        (record {
          table = record {
            names = s.names.keys;
            submissions = s.submissions.items;
            outcomes = s.outcomes.items;
          };
          kept = map (option_map kept_value) s.kept.items;
        })
        s.wanted.items
        s.waiting.items
        s.pending
        × HasRowOfEach
        (length s.names.keys)
        (vec_capacity s.submissions)
        (vec_capacity s.outcomes)
        (vec_capacity s.kept)
        (vec_capacity s.wanted)
        (vec_capacity s.waiting)
        (length s.names.keys + spare s.names) };
}

impl Store {
    ghost use Rattle.std.specs.List.{AllByRecursion, list_all, list_any};
    ghost use Rattle.std.specs.Arc.{arc_value};
    ghost use Rattle.std.specs.Prelude.{◌↔◌, IsTrue};
    ghost use Rattle.mw_model.specs.Pictures.{IsPicture};
    ghost use Rattle.mw_model.specs.Values.{image_of, option_list, tickets, value_at};
    ghost use Rattle.mw_model.specs.Refusals.{is_dead, is_pending, is_released, is_there, ticket_of, outcome_at, submission_at, shape_at};
    ghost use Rattle.mw_model.specs.Machine.{killed, settled, with_entry};
    ghost use Rattle.mw_model.specs.Stands as stands;
    ghost use Rattle.mw_model.specs.Rectangles.{IsWithin};
    ghost use Rattle.mw_tile_planes.specs.mw_tile.Windows.{window_of};
    ghost use Rattle.mw_store.specs.Entries.{MakesNoElement, op_of, submission_of, outcome_of, payload_in};
    ghost use Rattle.mw_store.specs.ImageShapes.{image_shape_of};
    ghost use Rattle.mw_store.specs.Kept.{kept_value, curve_of, figure_in};
    ghost use Rattle.mw_store.specs.RowRoom.{AwaitsInput, FillsRows, TakesMore};
    ghost use Rattle.mw_store.specs.Stored.{StoreIsWhole, DropsSpent, KeepsElement};

    /// An empty store with room for 16 entries.
    pub fn new(alloc: Global) -> Result<Self, NoMemory>
        ensures names { IfOk result (λ s. s.table.names ≡ []) }
        ensures submissions { IfOk result (λ s. s.table.submissions ≡ []) }
        ensures outcomes { IfOk result (λ s. s.table.outcomes ≡ []) }
        ensures kept { IfOk result (λ s. s.kept ≡ []) }
    {
        Ok(Store {
            names: IndexSet::with_capacity(alloc, 16)?,
            submissions: Vec::with_capacity(alloc, 16)?,
            outcomes: Vec::with_capacity(alloc, 16)?,
            kept: Vec::with_capacity(alloc, 16)?,
            wanted: Vec::with_capacity(alloc, 16)?,
            waiting: Vec::with_capacity(alloc, 16)?,
            pending: 0,
            alloc,
        })
    }

    /// How many entries there are.
    pub fn len(&self) -> u32
        ensures value { result ≡ length self.now.table.names }
        ensures whole { StoreIsWhole self.now }
    {
        self.names.len() as u32
    }

    /// The ticket of a name.
    pub fn find(&self, name: Name) -> Option<u32>
        ensures value { result ≡ ticket_of self.now.table.names name }
        ensures within { IfSome result (λ t. t < length self.now.table.names) }
        ensures whole { StoreIsWhole self.now }
    {
        match self.names.get_index_of(&name) {
            Some(i) => Some(i as u32),
            None => None,
        }
    }

    /// How an entry stands.
    pub fn outcome(&self, t: u32) -> Outcome
        requires { t < length self.now.table.names }
        ensures { result ≡ outcome_at self.now.table.outcomes t }
    {
        self.outcomes[t as usize]
    }

    /// What was accepted.
    pub fn submission(&self, t: u32) -> Submission
        requires { t < length self.now.table.names }
        ensures value { result ≡ submission_at self.now.table.submissions t }
        ensures below { AllByRecursion (λ i. i < t) (tickets result.inputs) }
    {
        self.submissions[t as usize]
    }

    /// The shape of the entry's value, which is known from acceptance on.
    pub fn shape(&self, t: u32) -> Shape
        requires { t < length self.now.table.names }
        ensures { result ≡ shape_at self.now.table.submissions t }
    {
        self.submissions[t as usize].shape
    }

    /// The operation of a RUN.
    pub fn op(&self, t: u32) -> Option<Op>
        requires { t < length self.now.table.names }
        ensures { result ≡ op_of (submission_at self.now.table.submissions t).command }
    {
        match self.submissions[t as usize].command {
            Command::Run(op) => Some(op),
            Command::Given => None,
        }
    }

    /// How many entries are pending.
    pub fn pending(&self) -> usize
        ensures value { result ≡ count_by is_pending self.now.table.outcomes }
        ensures whole { StoreIsWhole self.now }
        ensures small { result ≤ ENTRY_LIMIT }
    {
        self.pending
    }

    /// The value that is kept of an entry.
    pub fn kept(&self, t: u32) -> &Option<StoredValue>
        requires { t < length self.now.table.names }
        ensures { option_map kept_value result.now ≡ value_at self.now.kept t }
    {
        &self.kept[t as usize]
    }

    /// The shape of the image that is kept of an entry, if one is.
    pub fn image_shape(&self, t: u32) -> Option<ImageShape>
        requires { t < length self.now.table.names }
        ensures shape { result ≡ option_map image_shape_of (image_of (value_at self.now.kept t)) }
        ensures picture { IfSome (image_of (value_at self.now.kept t)) IsPicture }
    {
        match self.kept(t) {
            Some(StoredValue::Image(image)) => Some(ImageShape::of_image(image)),
            Some(StoredValue::Tiles(plane)) => Some(ImageShape::of_tiles(plane)),
            _ => None,
        }
    }

    /// One more owner of the image that is kept of an entry, or of its tiles, if one is. Where none is, memory is not
    /// asked for.
    pub fn plate(&self, t: u32) -> Result<Option<Plate>, NoMemory>
        requires { t < length self.now.table.names }
        ensures plate { IfOk result (λ p. p ≡ image_of (value_at self.now.kept t)) }
        ensures memory { OnErr result (IsSome (image_of (value_at self.now.kept t))) }
    {
        let kept = self.kept(t);
        match kept {
            Some(StoredValue::Image(image)) => Ok(Some(Plate::of_image(image)?)),
            Some(StoredValue::Tiles(plane)) => Ok(Some(Plate::of_tiles(self.alloc, plane)?)),
            _ => Ok(None),
        }
    }

    /// A copy of the curve that is kept of an entry, if one is. Where none is, memory is not asked for.
    pub fn curve(&self, alloc: Global, t: u32) -> Result<Option<Curve>, NoMemory>
        requires { t < length self.now.table.names }
        ensures curve { IfOk result (λ c. c ≡ curve_of (value_at self.now.kept t)) }
        ensures memory { OnErr result (IsSome (curve_of (value_at self.now.kept t))) }
    {
        match self.kept(t) {
            Some(StoredValue::Curve(curve)) => Ok(Some(Curve::new(alloc, curve.volumes())?)),
            _ => Ok(None),
        }
    }

    /// The window of a rectangle of the image that is kept of an entry, if one is, as one more owner of its samples. Where
    /// none is, memory is not asked for.
    pub fn window(
        &self,
        alloc: Global,
        t: u32,
        rect: Rect,
    ) -> Result<Option<SharedWindow>, NoMemory>
        requires entry { t < length self.now.table.names }
        requires some { (1 ≤ rect.width) × (1 ≤ rect.height) }
        requires within { IfSome (image_of (value_at self.now.kept t)) (λ f. IsWithin rect f.width f.height) }
        ensures window { IfOk result (λ w. w ≡ option_map (window_of rect) (image_of (value_at self.now.kept t))) }
        ensures memory { OnErr result (IsSome (image_of (value_at self.now.kept t))) }
    {
        match self.kept(t) {
            Some(StoredValue::Image(image)) => {
                Ok(Some(SharedWindow::of_image(alloc, image, rect)?))
            }
            Some(StoredValue::Tiles(plane)) => Ok(Some(plane.shared(alloc, rect)?)),
            _ => Ok(None),
        }
    }

    /// Whether a window is that of a rectangle of the image that is kept of an entry.
    pub fn matches(&self, t: u32, rect: Rect, window: &SharedWindow) -> bool
        requires entry { t < length self.now.table.names }
        requires within { IfSome (image_of (value_at self.now.kept t)) (λ f. IsWithin rect f.width f.height) }
        ensures { IsTrue result ↔ (option_map (window_of rect) (image_of (value_at self.now.kept t)) ≡ Some window.now) }
    {
        match self.kept(t) {
            Some(StoredValue::Image(image)) => window.is_of_image(image, rect),
            Some(StoredValue::Tiles(plane)) => plane.matches(rect, window),
            _ => false,
        }
    }

    /// The element that is kept of an entry. Of one that was added as an element it is there until it is released.
    pub fn element(&self, t: u32) -> Option<&Arc<Element>>
        requires { t < length self.now.table.names }
        ensures figure { option_map (λ b. arc_value b.now) result ≡ figure_in (value_at self.now.kept t) }
        ensures kept { KeepsElement (submission_at self.now.table.submissions t) (outcome_at self.now.table.outcomes t) (value_at self.now.kept t) }
    {
        match &self.kept[t as usize] {
            Some(StoredValue::Element(element)) => Some(element),
            _ => None,
        }
    }

    /// Whether a value is kept of the entry.
    pub fn keeps(&self, t: u32) -> bool
        requires { t < length self.now.table.names }
        ensures { result ≡ is_some (value_at self.now.kept t) }
    {
        self.kept[t as usize].is_some()
    }

    /// Whether a pending entry has the ticket as an input.
    pub fn is_wanted(&self, t: u32) -> bool
        requires { t < length self.now.table.names }
        ensures { result ≡ stands.is_wanted self.now.table t }
    {
        self.wanted[t as usize] > 0
    }

    fn has_input(&self, input: Option<u32>) -> bool
        requires { AllByRecursion (λ i. i < length self.now.table.names) (option_list input) }
        ensures { result ≡ list_all (λ i. is_there (outcome_at self.now.table.outcomes i)) (option_list input) }
    {
        match input {
            Some(t) => self.outcome(t).is_there(),
            None => true,
        }
    }

    /// Whether all inputs of the entry's command are done, or released since.
    pub fn inputs_there(&self, t: u32) -> bool
        requires { t < length self.now.table.names }
        ensures { result ≡ stands.inputs_there self.now.table t }
    {
        let inputs = self.submission(t).inputs;
        self.has_input(inputs.a) && self.has_input(inputs.b) && self.has_input(inputs.c)
    }

    /// Ends a pending entry, and drops its inputs where nothing needs them any more. One that dies is no input of a pending
    /// entry. The entries that waited for it are handed out: each pending entry that has it as an input is among them. No
    /// memory is asked for.
    fn leave(&mut self, t: u32, outcome: Outcome) -> Waiters
        requires within { t < length self.old.table.names }
        requires pending { outcome_at self.old.table.outcomes t ≡ Outcome.Pending }
        requires ended { is_pending outcome ≡ false }
        requires held { is_released outcome ≡ false }
        requires alone { (is_dead outcome ≡ false) ⊎ (stands.is_wanted self.old.table t ≡ false) }
        ensures table { self.new.table ≡ settled self.old.table t outcome }
        ensures killed { stands.is_wanted self.old.table t ≡ false → self.new.table ≡ killed self.old.table t outcome }
        ensures kept { DropsSpent self.new.table self.old.kept self.new.kept }
        ensures pending { count_by is_pending self.new.table.outcomes + 1 ≡ count_by is_pending self.old.table.outcomes }
        ensures all { (u : ℕ) → u < length self.old.table.names → (is_pending (outcome_at self.old.table.outcomes u) && list_any (nat_eq t) (stands.inputs_of self.old.table u)) ≡ true
            → list_any (nat_eq u) result ≡ true }
        ensures below { AllByRecursion (λ u. u < length self.old.table.names) result }
    {
        let inputs = self.submissions[t as usize].inputs;
        self.outcomes[t as usize] = outcome;
        let list = replace(&mut self.waiting[t as usize], WaitingList::none(self.alloc));
        self.pending -= 1;
        lower_inputs(&mut self.wanted, inputs);
        drop_inputs(&self.outcomes, &self.wanted, &mut self.kept, inputs);
        list.into_waiters()
    }

    /// Ends a pending entry by its death, and fails what it was an input of, in ticket order, by a pass over all entries.
    fn cascade(&mut self, t: u32, cause: Outcome)
        requires within { t < length self.old.table.names }
        requires pending { outcome_at self.old.table.outcomes t ≡ Outcome.Pending }
        requires dead { is_pending cause ≡ false }
        ensures table { self.new.table ≡ killed self.old.table t cause }
        ensures alone { stands.is_wanted self.old.table t ≡ false → self.new.table ≡ settled self.old.table t cause }
        ensures kept { DropsSpent self.new.table self.old.kept self.new.kept }
        ensures pending { count_by is_pending self.new.table.outcomes + 1 ≤ count_by is_pending self.old.table.outcomes }
    {
        self.outcomes[t as usize] = cause;
        fail_dependents(&self.submissions, &mut self.outcomes);
        self.pending = count_pending(&self.outcomes);
        count_wanted(&self.submissions, &self.outcomes, &mut self.wanted);
        drop_settled(self.alloc, &self.outcomes, &mut self.waiting);
        drop_spent(&self.outcomes, &self.wanted, &mut self.kept);
    }

    /// Ends a pending entry by its death, and fails what it was an input of, in ticket order. Each value that nothing
    /// needs any more is dropped. Where no pending entry has it as an input, it dies alone, and its inputs alone are looked
    /// at: no input of a pending entry is dead, so no other can fail. Else this is the only call that looks at all entries.
    pub fn kill(&mut self, t: u32, cause: Outcome)
        requires within { t < length self.old.table.names }
        requires pending { outcome_at self.old.table.outcomes t ≡ Outcome.Pending }
        requires dead { is_pending cause ≡ false }
        ensures table { self.new.table ≡ killed self.old.table t cause }
        ensures alone { stands.is_wanted self.old.table t ≡ false → self.new.table ≡ settled self.old.table t cause }
        ensures kept { DropsSpent self.new.table self.old.kept self.new.kept }
        ensures pending { count_by is_pending self.new.table.outcomes + 1 ≤ count_by is_pending self.old.table.outcomes }
    {
        let (wanted, dies) = (self.is_wanted(t), cause.is_dead());
        if wanted || !dies {
            self.cascade(t, cause);
        } else {
            let _waiters = self.leave(t, cause);
        }
    }

    /// Ends a pending entry by its value, which is kept. Its inputs are dropped where nothing needs them any more. The
    /// entries that waited for it are handed out: each pending entry that has it as an input is among them. No memory is
    /// asked for.
    pub fn settle(&mut self, t: u32, value: StoredValue) -> Waiters
        requires within { t < length self.old.table.names }
        requires pending { outcome_at self.old.table.outcomes t ≡ Outcome.Pending }
        ensures table { self.new.table ≡ settled self.old.table t Outcome.Done }
        ensures kept { DropsSpent self.new.table (slice_set self.old.kept t (Some (kept_value value))) self.new.kept }
        ensures pending { count_by is_pending self.new.table.outcomes + 1 ≡ count_by is_pending self.old.table.outcomes }
        ensures all { (u : ℕ) → u < length self.old.table.names → (is_pending (outcome_at self.old.table.outcomes u) && list_any (nat_eq t) (stands.inputs_of self.old.table u)) ≡ true
            → list_any (nat_eq u) result ≡ true }
        ensures below { AllByRecursion (λ u. u < length self.old.table.names) result }
    {
        self.kept[t as usize] = Some(value);
        self.leave(t, Outcome::Done)
    }

    /// Lets a done entry go. Its value stays while a pending entry has it as an input. No memory is asked for.
    pub fn release(&mut self, t: u32)
        requires within { t < length self.old.table.names }
        requires done { outcome_at self.old.table.outcomes t ≡ Outcome.Done }
        ensures table { self.new.table ≡ settled self.old.table t Outcome.Released }
        ensures kept { DropsSpent self.new.table self.old.kept self.new.kept }
        ensures pending { count_by is_pending self.new.table.outcomes ≡ count_by is_pending self.old.table.outcomes }
    {
        self.outcomes[t as usize] = Outcome::Released;
        drop_one(&self.outcomes, &self.wanted, &mut self.kept, Some(t));
    }

    fn push(
        &mut self,
        name: Name,
        submission: Submission,
        outcome: Outcome,
        value: Option<StoredValue>,
    ) -> Result<u32, NoMemory>
        requires free { ticket_of self.old.table.names name ≡ None }
        requires room { length self.old.table.names < ENTRY_LIMIT }
        requires below { AllByRecursion (λ i. i < length self.old.table.names) (tickets submission.inputs) }
        requires alive { AllByRecursion (λ i. is_dead (outcome_at self.old.table.outcomes i) ≡ false) (tickets submission.inputs) }
        requires kept { is_released outcome ≡ false }
        requires element { KeepsElement submission outcome (option_map kept_value value) }
        ensures ticket { IfOk result (λ t. t ≡ length self.old.table.names) }
        ensures table { OnOk result (self.new.table ≡ with_entry self.old.table name submission outcome) }
        ensures kept { OnOk result (self.new.kept ≡ self.old.kept ++ option_map kept_value value ∷ []) }
        ensures err { OnErr result (self.new ≡ self.old) }
        ensures memory { OnErr result (FillsRows (length self.old.table.names) ⊎ AwaitsInput self.old.table.outcomes submission.inputs) }
    {
        let t = self.names.len() as u32;
        reserve_row(&mut self.submissions)?;
        reserve_row(&mut self.outcomes)?;
        reserve_row(&mut self.kept)?;
        reserve_row(&mut self.wanted)?;
        let waited = pending_inputs(&self.outcomes, submission.inputs);
        reserve_inputs(&mut self.waiting, waited)?;
        reserve_row(&mut self.waiting)?;
        reserve_name(&mut self.names)?;
        let Ok(_new) = self.names.insert(name) else {
            unreachable!()
        };
        self.submissions.push_reserved(submission);
        self.outcomes.push_reserved(outcome);
        self.kept.push_reserved(value);
        self.wanted.push_reserved(0);
        self.waiting.push_reserved(WaitingList::none(self.alloc));
        raise_inputs(outcome.is_pending(), &mut self.wanted, submission.inputs);
        push_inputs(&mut self.waiting, t, waited);
        self.pending += one_if_pending(outcome);
        Ok(t)
    }

    /// Adds an entry under a name that no entry has, and answers its ticket. Memory is wanting only where the entries fill their
    /// rows of places, for the owners of an element, or for what a pending input has to know of the entry.
    pub fn add(&mut self, name: Name, entry: Entry) -> Result<u32, NoMemory>
        requires free { ticket_of self.old.table.names name ≡ None }
        requires room { length self.old.table.names < ENTRY_LIMIT }
        requires below { AllByRecursion (λ i. i < length self.old.table.names) (tickets (submission_of entry).inputs) }
        requires alive { AllByRecursion (λ i. is_dead (outcome_at self.old.table.outcomes i) ≡ false) (tickets (submission_of entry).inputs) }
        requires made { MakesNoElement entry }
        ensures ticket { IfOk result (λ t. t ≡ length self.old.table.names) }
        ensures table { OnOk result (self.new.table ≡ with_entry self.old.table name (submission_of entry) (outcome_of entry)) }
        ensures kept { OnOk result (self.new.kept ≡ self.old.kept ++ payload_in entry ∷ []) }
        ensures err { OnErr result (self.new ≡ self.old) }
        ensures memory { OnErr result (FillsRows (length self.old.table.names) ⊎ TakesMore self.old.table.outcomes entry) }
    {
        match entry {
            Entry::Image(image) => {
                let submission = given(image.shape());
                self.push(
                    name,
                    submission,
                    Outcome::Done,
                    Some(StoredValue::Image(image)),
                )
            }
            Entry::Element(element) => {
                let submission = given(element.shape());
                let value = StoredValue::Element(Arc::new(self.alloc, element)?);
                self.push(name, submission, Outcome::Done, Some(value))
            }
            Entry::Run(submission) => self.push(name, submission, Outcome::Pending, None),
        }
    }
}

/// What stands in the table for a payload of this shape.
fn given(shape: Shape) -> Submission
    ensures { result ≡ record { shape = shape; command = Command.Given; inputs = record { a = None; b = None; c = None } } }
{
    Submission {
        shape,
        command: Command::Given,
        inputs: Inputs {
            a: None,
            b: None,
            c: None,
        },
    }
}
