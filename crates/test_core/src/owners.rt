//! Who owns the samples that a core keeps. No contract says how many own a plane, nor that it is not copied or dropped: so here
//! owners are counted, of images in one piece and of tiles. Each test passes whichever one of its allocations is refused.

use crate::desk::Ask::{Cancel, Release, Run};
use crate::desk::Word::{Dilate, Erode, Open};
use crate::desk::{ERODED, Hands, ROW, computed, fetched, last_taken, lay_out, name, new_core};
use crate::play::Job::{Bring, GiveUp, Take};
use crate::play::Turn::{Call, Do, Fetch};
use crate::play::{Turn, play};
use mw_core::{Core, FetchedValue, Finish, Refusal};
use mw_model::{Code, Name, Reply};
use mw_netpbm::read;
use mw_pixel::{Image, Plane, SharedView};
use mw_step_task::{TileDone, TileResult, Work};
use std::alloc::Global;
use std::process::Abort;
use std::sync::Arc;
use test_plates::whole_image;

/// A plane of bytes, of which the test is one owner.
#[derive(Drop)]
struct Watched {
    plane: Arc<Plane<u8>>,
}

impl Watched {
    fn of_image(image: &Image) -> Option<Watched> {
        match image.shared().ok()? {
            SharedView::Grey8(plane, _) => Some(Watched { plane }),
            _ => None,
        }
    }

    fn of_result(done: &TileDone) -> Option<Watched> {
        match done.made() {
            TileResult::Grey8(plane, _) => Some(Watched {
                plane: Arc::try_clone(plane).ok()?,
            }),
            _ => None,
        }
    }

    /// How many own the plane beside the test.
    fn owners(&self) -> usize {
        Arc::strong_count(&self.plane).saturating_sub(1)
    }
}

/// The planes that are watched, one behind the other, and how many owners were counted.
#[derive(Drop)]
struct Watch {
    planes: Vec<Watched>,
    counts: Vec<usize>,
}

impl Watch {
    fn new(alloc: Global) -> Watch {
        Watch {
            planes: Vec::new(alloc),
            counts: Vec::new(alloc),
        }
    }

    /// Says whether there is a plane, and memory to watch it.
    fn keeps(&mut self, plane: Option<Watched>) -> bool {
        match plane {
            Some(plane) => self.planes.push(plane).is_ok(),
            None => false,
        }
    }

    fn notes(&mut self, count: usize) -> bool {
        self.counts.push(count).is_ok()
    }

    /// Counts the owners of the plane at this place.
    fn counts(&mut self, at: usize) -> bool {
        let count = match self.planes.get(at) {
            Some(plane) => plane.owners(),
            None => return false,
        };
        self.notes(count)
    }
}

/// The plane of an image in one piece that was handed out.
fn handed_out(alloc: Global, value: FetchedValue) -> Option<Watched> {
    match value {
        FetchedValue::Image(plate) => {
            let image = whole_image(alloc, &plate)?;
            Watched::of_image(&image)
        }
        _ => None,
    }
}

fn looked_at(
    rt: &impl Abort,
    alloc: Global,
    core: &mut Core,
    hands: &mut Hands,
    text: &[u8],
) -> Option<Watched> {
    let (_, value) = fetched(rt, core, hands, name(rt, text));
    handed_out(alloc, value)
}

/// How many own the plane of an image in one piece, beside the test.
fn owners(
    rt: &impl Abort,
    alloc: Global,
    core: &mut Core,
    hands: &mut Hands,
    text: &[u8],
) -> usize {
    let watched = match looked_at(rt, alloc, core, hands, text) {
        Some(watched) => watched,
        None => looked_at(rt, alloc, core, hands, text).expect(rt, "memory"),
    };
    watched.owners()
}

/// What is done with a core. Each says no where memory is wanting.
#[derive(Clone, Copy)]
enum Deed<'a> {
    Play(&'a [Turn<'a>]),
    /// Computes and brings the task that was taken last, and watches what it made.
    Brings(Finish),
    /// Loads a picture, and watches its samples.
    Loads(&'a [u8], Reply),
    /// Counts the owners of the plane of an image in one piece.
    CountsOf(&'a [u8]),
    /// Counts the owners of what was watched as this one.
    Counts(usize),
    /// Counts the owners of what was watched as this one, while a value is handed out.
    CountsBeside(&'a [u8], usize),
}

fn bring(
    rt: &impl Abort,
    alloc: Global,
    core: &mut Core,
    work: Work,
    wanted: Finish,
    watch: &mut Watch,
) -> bool {
    match computed(alloc, core, work) {
        Some(done) => {
            let is_kept = watch.keeps(Watched::of_result(&done));
            assert_eq!(rt; core.finish(done), wanted);
            is_kept
        }
        None => false,
    }
}

fn load(
    rt: &impl Abort,
    alloc: Global,
    core: &mut Core,
    name: Name,
    wanted: Reply,
    watch: &mut Watch,
) -> bool {
    let image = match read(alloc, b"P5\n5 1\n9\n\x03\x01\x04\x01\x05") {
        Ok(image) => image,
        Err(_) => return false,
    };
    let is_kept = watch.keeps(Watched::of_image(&image));
    match core.load(name, Ok(image)) {
        Ok(reply) => {
            assert_eq!(rt; reply, wanted);
            is_kept
        }
        Err(_) => false,
    }
}

fn does(
    rt: &impl Abort,
    alloc: Global,
    core: &mut Core,
    hands: &mut Hands,
    watch: &mut Watch,
    deed: &Deed,
) -> bool {
    match deed {
        Deed::Play(turns) => play(rt, alloc, core, hands, turns),
        Deed::Brings(wanted) => bring(rt, alloc, core, last_taken(rt, hands), *wanted, watch),
        Deed::Loads(text, wanted) => load(rt, alloc, core, name(rt, text), *wanted, watch),
        Deed::CountsOf(text) => watch.notes(owners(rt, alloc, core, hands, text)),
        Deed::Counts(at) => watch.counts(*at),
        Deed::CountsBeside(text, at) => {
            let _handed = fetched(rt, core, hands, name(rt, text));
            watch.counts(*at)
        }
    }
}

/// The counts of deeds on a core of its own, as far as there was memory.
fn counts(rt: &impl Abort, alloc: Global, deeds: &[Deed]) -> Vec<usize> {
    let mut hands = Hands::new(alloc);
    let mut core = new_core(rt, alloc, &mut hands);
    lay_out(rt, alloc, &mut core, &mut hands, ROW);
    let mut watch = Watch::new(alloc);
    for deed in deeds {
        if !does(rt, alloc, &mut core, &mut hands, &mut watch, deed) {
            break;
        }
    }
    watch.counts
}

/// Where the counts are others, which a refused allocation may bring about, they are taken once more.
fn are(rt: &impl Abort, alloc: Global, deeds: &[Deed], wanted: &[usize]) {
    if counts(rt, alloc, deeds).as_slice() != wanted {
        assert_eq!(rt; counts(rt, alloc, deeds).as_slice(), wanted);
    }
}

const TAKEN: Deed = Deed::Play(&[
    Call(Run(Erode, b"e", b"f", b"b"), Reply::Accepted(2)),
    Do(Take(0, 2)),
]);

const BROUGHT: Deed = Deed::Play(&[
    Do(Bring(Finish::Settled(2))),
    Fetch(b"e", Reply::Shown(2), ERODED),
]);

/// The owners of the row before a task takes it, while the task runs, and when its result is brought.
#[test]
fn a_task_owns_the_plane_of_its_source_while_it_runs(rt: HostRuntime) {
    let row = Deed::CountsOf(b"f");
    are(
        &rt,
        rt.alloc(),
        &[row, TAKEN, row, BROUGHT, row],
        &[1, 2, 1],
    );
}

/// The owners of the row while a task runs that took it before anyone fetched it.
#[test]
fn a_task_owns_a_plane_that_was_not_handed_out(rt: HostRuntime) {
    are(&rt, rt.alloc(), &[TAKEN, Deed::CountsOf(b"f")], &[2]);
}

const STEP: &[Deed] = &[
    Deed::Play(&[
        Call(Run(Open, b"o", b"f", b"b"), Reply::Accepted(2)),
        Do(Take(0, 2)),
    ]),
    Deed::Brings(Finish::Placed),
    Deed::Counts(0),
    Deed::Play(&[Do(Take(0, 2))]),
    Deed::Counts(0),
    Deed::Brings(Finish::Settled(2)),
    Deed::Counts(0),
];

/// The owners of the tile of the first step: once it is made, while the only task runs that reads it, and when that is
/// finished.
#[test]
fn a_tile_is_dropped_with_its_last_reader(rt: HostRuntime) {
    are(&rt, rt.alloc(), STEP, &[1, 2, 0]);
}

const VALUE: &[Deed] = &[
    TAKEN,
    Deed::Brings(Finish::Settled(2)),
    Deed::Counts(0),
    Deed::CountsBeside(b"e", 0),
    Deed::Play(&[Call(Release(b"e"), Reply::Accepted(2))]),
    Deed::Counts(0),
];

/// The owners of the tile of a value: while it is kept, while it is handed out too, and when it is released.
#[test]
fn a_value_is_dropped_with_its_release(rt: HostRuntime) {
    are(&rt, rt.alloc(), VALUE, &[1, 2, 0]);
}

const WANTED: &[Deed] = &[
    TAKEN,
    Deed::Brings(Finish::Settled(2)),
    Deed::Play(&[
        Call(Run(Erode, b"g", b"e", b"b"), Reply::Accepted(3)),
        Call(Run(Dilate, b"h", b"e", b"b"), Reply::Accepted(4)),
        Call(Release(b"e"), Reply::Accepted(2)),
    ]),
    Deed::Counts(0),
    Deed::Play(&[Do(Take(0, 3)), Do(Bring(Finish::Settled(3)))]),
    Deed::Counts(0),
    Deed::Play(&[Call(Cancel(b"h"), Reply::Accepted(4))]),
    Deed::Counts(0),
];

/// The owners of the tile of a released value that two commands wait for: while both do, when one of them is done, and when the
/// other is cancelled.
#[test]
fn a_value_is_dropped_when_the_last_command_ends_that_wants_it(rt: HostRuntime) {
    are(&rt, rt.alloc(), WANTED, &[1, 1, 0]);
}

const REFUSED_PICTURE: &[Deed] = &[
    Deed::Loads(b"g", Reply::Accepted(2)),
    Deed::Loads(b"g", Reply::Refused(Code::NameTaken)),
    Deed::Counts(0),
    Deed::Play(&[Call(Release(b"g"), Reply::Accepted(2))]),
    Deed::Counts(1),
    Deed::Counts(0),
];

/// The owners of a picture that is kept, of one that is refused, and of the first when it is released.
#[test]
fn a_refused_picture_has_no_owner(rt: HostRuntime) {
    are(&rt, rt.alloc(), REFUSED_PICTURE, &[1, 0, 0]);
}

const DEATH: &[Deed] = &[
    Deed::Loads(b"g", Reply::Accepted(2)),
    Deed::Play(&[
        Call(Run(Open, b"o", b"g", b"b"), Reply::Accepted(3)),
        Call(Release(b"g"), Reply::Accepted(2)),
        Do(Take(0, 3)),
    ]),
    Deed::Brings(Finish::Placed),
    Deed::Counts(0),
    Deed::Counts(1),
    Deed::Play(&[Do(Take(0, 3)), Do(GiveUp(Refusal::Killed(3)))]),
    Deed::Counts(0),
    Deed::Counts(1),
];

/// An opening waits for a picture that is released, and dies between its two steps: the owners of the picture and of the first tile
/// before that, and of both behind it.
#[test]
fn a_kill_drops_the_work_and_its_input(rt: HostRuntime) {
    are(&rt, rt.alloc(), DEATH, &[1, 1, 0, 0]);
}
