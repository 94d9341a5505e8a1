//! Calls of a core that is borrowed. One whose memory is refused has changed nothing and is made once more; it is counted how
//! often that was so. No helper leaves early beside a core: each such exit would be dear to check.

use mw_core::{Core, FetchedValue, NoMemory, Started};
use mw_element::Element;
use mw_model::{Code, FlatOp, Name, Op, Reply};
use mw_netpbm::{read, write};
use mw_step::run;
use mw_step_task::{TaskRefused, TileDone, Work};
use std::alloc::Global;
use std::process::Abort;
use test_plates::whole_image;

/// Five samples.
pub(crate) const ROW: &[u8] = b"P2\n5 1\n9\n3 1 4 1 5\n";

/// Three pixels in a row.
pub(crate) const BAR: &[u8] = b"P1\n3 1\n111\n";

/// The row, eroded by the bar.
pub(crate) const ERODED: &[u8] = b"P5\n5 1\n9\n\x01\x01\x01\x01\x01";

/// What a test has in hand: the tasks that were taken and not brought, and how often memory was wanting.
#[derive(Drop)]
pub(crate) struct Hands {
    pub(crate) taken: Vec<Work>,
    pub(crate) wants: u32,
}

impl Hands {
    pub(crate) fn new(alloc: Global) -> Hands {
        Hands {
            taken: Vec::new(alloc),
            wants: 0,
        }
    }

    pub(crate) fn wanted(&mut self) {
        self.wants = self.wants.saturating_add(1);
    }

    /// Keeps a task. Where the list finds no memory for it, the list takes the second request.
    pub(crate) fn keep(&mut self, rt: &impl Abort, work: Work) {
        if self.taken.reserve(1).is_err() {
            self.wanted();
            self.taken.reserve(1).expect(rt, "memory");
        }
        self.taken.push(work).ok().expect(rt, "memory");
    }
}

/// A session call: names, and payloads as bytes.
#[derive(Clone, Copy)]
pub(crate) enum Ask<'a> {
    Load(&'a [u8], &'a [u8]),
    /// With the column of the origin.
    Element(&'a [u8], &'a [u8], u32),
    /// With the names of what is made, of the image and of the element.
    Run(Word, &'a [u8], &'a [u8], &'a [u8]),
    Cancel(&'a [u8]),
    Release(&'a [u8]),
    Status(&'a [u8]),
}

#[derive(Clone, Copy)]
pub(crate) enum Word {
    Erode,
    Dilate,
    Open,
}

pub(crate) fn name(rt: &impl Abort, text: &[u8]) -> Name {
    Name::parse(text).expect(rt, "a name")
}

fn load(alloc: Global, core: &mut Core, name: Name, bytes: &[u8]) -> Result<Reply, NoMemory> {
    let image = match read(alloc, bytes) {
        Ok(image) => Ok(image),
        Err(fault) => Err(fault.code()),
    };
    core.load(name, image)
}

fn parsed(alloc: Global, bytes: &[u8], ox: u32) -> Result<Element, Code> {
    match Element::parse(alloc, bytes, ox, 0) {
        Ok(element) => Ok(element),
        Err(fault) => Err(fault.code()),
    }
}

fn operation(word: Word, f: Name, b: Name) -> Op {
    Op::Flat(match word {
        Word::Erode => FlatOp::Erode(f, b),
        Word::Dilate => FlatOp::Dilate(f, b),
        Word::Open => FlatOp::Opening(f, b),
    })
}

fn answer(rt: &impl Abort, alloc: Global, core: &mut Core, ask: &Ask) -> Result<Reply, NoMemory> {
    match ask {
        Ask::Load(text, bytes) => load(alloc, core, name(rt, text), bytes),
        Ask::Element(text, bytes, ox) => core.element(name(rt, text), parsed(alloc, bytes, *ox)),
        Ask::Run(word, made, f, b) => {
            core.run(name(rt, made), operation(*word, name(rt, f), name(rt, b)))
        }
        Ask::Cancel(text) => core.cancel(name(rt, text)),
        Ask::Release(text) => core.release(name(rt, text)),
        Ask::Status(text) => core.status(name(rt, text)),
    }
}

/// The reply to a call. A call that found no memory has written nothing into the log.
pub(crate) fn asked(
    rt: &impl Abort,
    alloc: Global,
    core: &mut Core,
    hands: &mut Hands,
    ask: &Ask,
) -> Reply {
    let before = core.log_len();
    match answer(rt, alloc, core, ask) {
        Ok(reply) => reply,
        Err(NoMemory) => {
            hands.wanted();
            assert_eq!(rt; core.log_len(), before);
            answer(rt, alloc, core, ask).expect(rt, "memory")
        }
    }
}

/// A call with its reply.
pub(crate) fn told(
    rt: &impl Abort,
    alloc: Global,
    core: &mut Core,
    hands: &mut Hands,
    ask: &Ask,
    wanted: Reply,
) {
    assert_eq!(rt; asked(rt, alloc, core, hands, ask), wanted);
}

/// A core with tiles of side 64.
pub(crate) fn new_core(rt: &impl Abort, alloc: Global, hands: &mut Hands) -> Core {
    match Core::new(alloc, 64) {
        Ok(core) => core,
        Err(NoMemory) => {
            hands.wanted();
            Core::new(alloc, 64).expect(rt, "memory")
        }
    }
}

/// Loads this row under `f`, ticket 0, and the bar under `b`, ticket 1.
pub(crate) fn lay_out(
    rt: &impl Abort,
    alloc: Global,
    core: &mut Core,
    hands: &mut Hands,
    row: &[u8],
) {
    told(
        rt,
        alloc,
        core,
        hands,
        &Ask::Load(b"f", row),
        Reply::Accepted(0),
    );
    told(
        rt,
        alloc,
        core,
        hands,
        &Ask::Element(b"b", BAR, 1),
        Reply::Accepted(1),
    );
}

/// Takes the ready task of a place, which is of this ticket; says whether there was memory for it. Where there was none the ticket
/// is dead.
pub(crate) fn take(
    rt: &impl Abort,
    core: &mut Core,
    hands: &mut Hands,
    place: u64,
    ticket: u32,
) -> bool {
    match core.start(place) {
        Started::Work(work) => {
            assert_eq!(rt; work.task().ticket, ticket);
            hands.keep(rt, work);
            true
        }
        Started::Refused(t) => {
            assert_eq!(rt; t, ticket);
            false
        }
        Started::Idle => panic!(rt; "no task"),
    }
}

/// The task that was taken last.
pub(crate) fn last_taken(rt: &impl Abort, hands: &mut Hands) -> Work {
    hands.taken.pop().expect(rt, "a task")
}

/// Computes a task; where that finds no memory, the core is told so.
pub(crate) fn computed(alloc: Global, core: &mut Core, work: Work) -> Option<TileDone> {
    match run(alloc, work) {
        Ok(done) => Some(done),
        Err(refused) => {
            give_up(core, refused);
            None
        }
    }
}

fn give_up(core: &mut Core, refused: TaskRefused) {
    let _told = core.refuse(refused);
}

/// What a FETCH hands out, with its reply.
pub(crate) fn fetched(
    rt: &impl Abort,
    core: &mut Core,
    hands: &mut Hands,
    name: Name,
) -> (Reply, FetchedValue) {
    let fetched = match core.fetch(name) {
        Ok(fetched) => fetched,
        Err(NoMemory) => {
            hands.wanted();
            core.fetch(name).expect(rt, "memory")
        }
    };
    (fetched.reply, fetched.value)
}

/// The text of a value that is handed out.
pub(crate) fn text_of(alloc: Global, value: FetchedValue) -> Option<Vec<u8>> {
    match value {
        FetchedValue::Image(plate) => {
            let image = whole_image(alloc, &plate)?;
            write(alloc, &image).ok()
        }
        FetchedValue::Curve(curve) => curve.text(alloc).ok(),
        FetchedValue::Nothing => Some(Vec::new(alloc)),
    }
}

/// A FETCH is answered so, and hands out this text.
pub(crate) fn shows(
    rt: &impl Abort,
    alloc: Global,
    core: &mut Core,
    hands: &mut Hands,
    name: Name,
    wanted: (Reply, &[u8]),
) {
    let (reply, value) = fetched(rt, core, hands, name);
    assert_eq!(rt; reply, wanted.0);
    let text = match text_of(alloc, value) {
        Some(text) => text,
        None => {
            hands.wanted();
            let (_, again) = fetched(rt, core, hands, name);
            text_of(alloc, again).expect(rt, "memory")
        }
    };
    assert_eq!(rt; text.as_slice(), wanted.1);
}
