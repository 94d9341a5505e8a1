//! What a bound on memory asks of a core: how many bytes it is counted as, by the shapes of its entries (`specs/Costs.antt`).

ghost use Rattle.std.specs.Prelude.{◌≡◌, ◌+◌, ◌*◌, ◌<◌, IsTrue, None, Some, length, option_map};
ghost use Rattle.mw_core.specs.Costs.{told_bytes, figure_bytes, tiled_bytes};

use crate::costs::{
    ENTRY, ITEM, LONG_ITEM, element_bytes, inputs_of, is_box, is_ended_by_extremum, plan_of,
    plane_bytes, plane_in_tiles, planes_of,
};
use crate::machine::Core;
use mw_core_refusals::element::Element;
use mw_core_refusals::pixel::Image;
use mw_model::{Call, Kind, Name, Op, Shape};

/// What is asked for beside the samples of an image that is handed out: a row of them, its text, and the list of its tiles.
const BESIDE_TEXT: u64 = 1 << 18;

/// An element that is kept.
pub fn bytes_of_element(element: &Element) -> u64
    ensures { result ≡ told_bytes (figure_bytes element.now + ENTRY) }
{
    element_bytes(element).saturating_add(ENTRY)
}

impl Core {
    ghost use Rattle.mw_model.specs.declared.codes.Code.{Code};
    ghost use Rattle.mw_model.specs.Machine.{Machine};
    ghost use Rattle.mw_model.specs.Values.{shape_of_picture, value_at};
    ghost use Rattle.mw_model.specs.Refusals.{refusal, shape_at, submission_at};
    ghost use Rattle.mw_model.specs.Stands.{StandsFor};
    ghost use Rattle.mw_core_ledger.specs.mw_core_laws.Rows.{IsLogFull};
    ghost use Rattle.mw_core_refusals.specs.mw_store.Entries.{op_of};
    ghost use Rattle.mw_core.specs.Costs as costs;

    /// Whether the log may ask for memory for one more item.
    pub fn is_log_full(&self) -> bool
        ensures { IsTrue result → IsLogFull self.now }
    {
        match self
            .ledger
            .log_len()
            .checked_add(self.ledger.store().pending())
        {
            Some(places) => places % 16 == 0,
            None => false,
        }
    }

    /// Whether a CANCEL of this name would be accepted.
    pub fn can_cancel(&self, name: Name) -> bool
        ensures { (m : Machine) → StandsFor self.now m → refusal m.table m.payloads (Call.Cancel name) ≡ None → IsTrue result }
    {
        mw_core_refusals::of_cancel(self.ledger.store(), name).is_ok()
    }

    /// Whether a RELEASE of this name would be accepted.
    pub fn can_release(&self, name: Name) -> bool
        ensures { (m : Machine) → StandsFor self.now m → refusal m.table m.payloads (Call.Release name) ≡ None → IsTrue result }
    {
        mw_core_refusals::of_release(self.ledger.store(), name).is_ok()
    }

    /// The items of a row of the log.
    pub fn row_bytes(&self) -> u64
        ensures { result ≡ 16 * ITEM }
    {
        16 * ITEM
    }

    /// The shape of the value of a name.
    fn shape_named(&self, name: Option<Name>) -> Option<Shape>
        ensures { result ≡ costs.named_shape self.now.table name }
    {
        let name = name?;
        let t = self.ledger.store().find(name)?;
        Some(self.ledger.store().shape(t))
    }

    /// How many rows the element of a name goes beyond one, also where it was released since.
    fn rows_beyond(&self, name: Option<Name>) -> u32
        ensures { result ≡ costs.rows_of_named self.now.table name }
    {
        match self.shape_named(name) {
            Some(Shape::Element(_, height)) => height.saturating_sub(1),
            _ => 0,
        }
    }

    /// The element that is kept under a name.
    fn element_named(&self, name: Option<Name>) -> Option<&Element>
        ensures { option_map (λ b. b.now) result ≡ costs.figure_named self.now name }
    {
        let name = name?;
        let t = self.ledger.store().find(name)?;
        let element = self.ledger.store().element(t)?;
        Some(&**element)
    }

    /// The element of a name, and the same reflected.
    fn turned_bytes(&self, name: Option<Name>) -> u64
        ensures { result ≡ told_bytes (costs.turned_bytes (costs.figure_named self.now name)) }
    {
        match self.element_named(name) {
            Some(element) => element_bytes(element).saturating_mul(2),
            None => 0,
        }
    }

    /// Whether the element of a name is a full rectangle that holds its origin.
    fn is_boxed_by(&self, name: Option<Name>) -> bool
        ensures { result ≡ costs.is_boxed_by (costs.figure_named self.now name) }
    {
        match self.element_named(name) {
            Some(element) => is_box(element),
            None => false,
        }
    }

    /// An image that is loaded, with its row of the table.
    pub fn image_bytes(&self, image: &Image) -> u64
        ensures { result ≡ told_bytes (tiled_bytes (shape_of_picture image.now) (costs.least_side self.now.side) 0 + ENTRY) }
    {
        plane_in_tiles(image.shape(), self.least_side(), 0).saturating_add(ENTRY)
    }

    /// At most how many bytes a RUN takes; one that is refused takes its item of the log alone.
    pub fn run_bytes(&self, name: Name, op: Op) -> u64
        ensures accepted { refusal self.now.table self.now.kept (Call.Run name op) ≡ None → result ≡ told_bytes (costs.run_bytes self.now op) }
        ensures refused { (x : Code) → refusal self.now.table self.now.kept (Call.Run name op) ≡ Some x → result ≡ LONG_ITEM + ITEM }
    {
        match mw_core_refusals::of_run(self.ledger.store(), name, op) {
            Err(_) => LONG_ITEM + ITEM,
            Ok(_) => self.pending_bytes(&op).saturating_add(ENTRY),
        }
    }

    /// The plan of an operation: all its planes, and the lists of its tasks.
    fn planned_bytes(&self, op: &Op) -> u64
        ensures { result ≡ told_bytes (costs.planned_bytes self.now op.now) }
    {
        let (image, first, second) = inputs_of(op);
        let beyond = self.rows_beyond(first).max(self.rows_beyond(second));
        let planes = planes_of(op, self.is_boxed_by(first));
        match self.shape_named(Some(image)) {
            Some(shape) => plan_of(&planes, shape, self.least_side(), beyond),
            None => 0,
        }
    }

    /// At most how many bytes a RUN takes until its result is made: its entry, its elements, and its plan.
    fn pending_bytes(&self, op: &Op) -> u64
        ensures { result ≡ told_bytes (costs.pending_bytes self.now op.now) }
    {
        let (_, first, second) = inputs_of(op);
        let plan = self.planned_bytes(op);
        plan.saturating_add(self.turned_bytes(first))
            .saturating_add(self.turned_bytes(second))
            .saturating_add(LONG_ITEM)
    }

    /// At most how many bytes a FETCH asks for: for the text of an image that was loaded, but not of samples of one byte, and
    /// else for a row.
    pub fn text_bytes(&self, name: Name) -> u64 {
        let store = self.ledger.store();
        let Some(t) = store.find(name) else {
            return self.row_bytes();
        };
        match store.shape(t) {
            Shape::Image(Kind::Grey, _, _, maxval) if maxval <= 255 => BESIDE_TEXT,
            Shape::Image(kind, width, height, maxval) if store.op(t).is_none() => {
                plane_bytes(kind, maxval, width, height).saturating_add(BESIDE_TEXT)
            }
            _ => BESIDE_TEXT,
        }
    }

    /// How many rows the tiles of a result have room for beyond their own.
    fn result_beyond(&self, op: Option<Op>) -> u32
        ensures { result ≡ costs.result_beyond self.now.table op }
    {
        let Some(op) = op else {
            return 0;
        };
        if !is_ended_by_extremum(&op) {
            return 0;
        }
        let (_, first, _) = inputs_of(&op);
        self.rows_beyond(first)
    }

    /// The value of an entry, by its shape.
    fn shaped_bytes(&self, t: u32) -> u64
        requires { t < length self.now.table.names }
        ensures { result ≡ told_bytes (costs.shaped_bytes (shape_at self.now.table.submissions t) (value_at self.now.kept t) (costs.least_side self.now.side) (costs.result_beyond self.now.table (op_of (submission_at self.now.table.submissions t).command))) }
    {
        let store = self.ledger.store();
        match store.shape(t) {
            Shape::Image(kind, width, height, maxval) => {
                let shape = Shape::Image(kind, width, height, maxval);
                let beyond = self.result_beyond(store.op(t));
                plane_in_tiles(shape, self.least_side(), beyond)
            }
            Shape::Element(_, _) => match store.element(t) {
                Some(element) => element_bytes(&**element),
                None => 0,
            },
            Shape::Curve(count) => u64::from(count) * 8,
        }
    }

    /// What is kept of an entry that is done.
    fn value_bytes(&self, t: u32) -> u64
        requires { t < length self.now.table.names }
        ensures { result ≡ told_bytes (costs.value_bytes self.now t) }
    {
        if self.ledger.store().keeps(t) {
            return self.shaped_bytes(t);
        }
        0
    }

    /// What an entry takes beside its place in the columns.
    fn entry_bytes(&self, t: u32) -> u64
        requires { t < length self.now.table.names }
        ensures { result ≡ told_bytes (costs.entry_bytes self.now t) }
    {
        let store = self.ledger.store();
        if !store.outcome(t).is_pending() {
            return self.value_bytes(t);
        }
        match store.op(t) {
            Some(op) => self.pending_bytes(&op),
            None => 0,
        }
    }

    /// At most how many bytes it takes, beside the blocks that items of RUNs have in the log. This looks at all entries.
    pub fn bytes(&self) -> u64
        ensures { result ≡ told_bytes (costs.core_bytes self.now) }
    {
        let items = (self.ledger.log_len() as u64).saturating_add(16);
        let mut bytes = items.saturating_mul(ITEM);
        for t in 0..self.ledger.store().len() {
            let entry = self.entry_bytes(t).saturating_add(ENTRY);
            bytes = bytes.saturating_add(entry);
        }
        bytes
    }
}
