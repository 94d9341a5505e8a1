//! What the tests put on a board: a row, a bar, and erosions of one by the other.
//!
//! Helpers end the process where a call fails: an exit beside a core or a board is dear to check.

ghost use Rattle.std.specs.Prelude.{◌≡◌};
ghost use Rattle.mw_model.specs.Machine.{start_state};
ghost use Rattle.mw_model.specs.Stands.{StandsFor};

use mw_model::{FlatOp, Kind, Name, Op, Reply, Shape};
use mw_netpbm::write;
use mw_pool::{Board, Core, FetchedValue, Naming, NewRoll, Pass};
use std::alloc::Global;
use std::process::Abort;
use std::sync::Wait;
use test_plates::whole_image;

const ROW: &[u8] = b"P2\n5 1\n9\n3 1 4 1 5\n";

const BAR: &[u8] = b"P1\n3 1\n111\n";

/// The row as it is written.
pub(crate) const LOADED: &[u8] = b"P5\n5 1\n9\n\x03\x01\x04\x01\x05";

/// The row, eroded by the bar.
pub(crate) const ERODED: &[u8] = b"P5\n5 1\n9\n\x01\x01\x01\x01\x01";

/// The row, dilated by the bar.
pub(crate) const DILATED: &[u8] = b"P5\n5 1\n9\n\x03\x04\x04\x05\x05";

pub(crate) fn name(rt: &impl Abort, text: &[u8]) -> Name {
    Name::parse(text).expect(rt, "a name")
}

/// The last digit of a number to the base 26.
fn letter(n: u32) -> u8 {
    b'a' + (n % 26) as u8
}

/// The name of the entry of a number: of two numbers under 676, a letter and two letters of base 26 of each.
pub(crate) fn numbered(rt: &impl Abort, first: u32, second: u32) -> Name {
    let digits = [
        letter(first / 26),
        letter(first),
        letter(second / 26),
        letter(second),
    ];
    name(rt, &digits)
}

/// A core that has accepted nothing yet.
fn new_core(rt: &impl Abort, alloc: Global) -> Core
    ensures { StandsFor result start_state }
{
    match Core::new(alloc, 128) {
        Ok(core) => core,
        Err(_) => Core::new(alloc, 128).expect(rt, "memory"),
    }
}

/// A board over a new core.
pub(crate) fn new_board<J: Naming>(rt: &impl Abort, alloc: Global, roll: NewRoll) -> Board<J>
    requires { roll ≡ J.book }
{
    Board::new(alloc, new_core(rt, alloc), roll)
}

/// The erosion of this image by the bar.
pub(crate) fn erosion(rt: &impl Abort, image: Name) -> Op {
    Op::Flat(FlatOp::Erode(image, name(rt, b"b")))
}

pub(crate) fn dilation(rt: &impl Abort, image: Name) -> Op {
    Op::Flat(FlatOp::Dilate(image, name(rt, b"b")))
}

/// What is told of the row, and of what is made of it, once it is there.
pub(crate) fn done(t: u32) -> Reply {
    Reply::Done(t, Shape::Image(Kind::Grey, 5, 1, 9))
}

/// Loads the row under `f`, ticket 0, and the bar under `b`, ticket 1. Each call is made twice where the first one found no memory.
pub(crate) fn load_both<R: Wait + Abort, J: Naming>(
    rt: &R,
    alloc: Global,
    board: &Board<J>,
    pass: &mut Pass,
) {
    if !loads(rt, alloc, board, pass) {
        assert!(rt; loads(rt, alloc, board, pass));
    }
    if !defines(rt, board, pass) {
        assert!(rt; defines(rt, board, pass));
    }
}

fn loads<R: Wait + Abort, J: Naming>(
    rt: &R,
    alloc: Global,
    board: &Board<J>,
    pass: &mut Pass,
) -> bool {
    match ROW.to_vec(alloc) {
        Ok(row) => board.load(rt, pass, name(rt, b"f"), row).is_ok(),
        Err(_) => false,
    }
}

fn defines<R: Wait + Abort, J: Naming>(rt: &R, board: &Board<J>, pass: &mut Pass) -> bool {
    board.element(rt, pass, name(rt, b"b"), (1, 0), BAR).is_ok()
}

/// RUN, once more where it found no memory.
pub(crate) fn run<R: Wait + Abort, J: Naming>(
    rt: &R,
    board: &Board<J>,
    pass: &mut Pass,
    made: Name,
    op: Op,
) -> Reply {
    match board.run(rt, pass, made, op) {
        Ok(reply) => reply,
        Err(_) => board.run(rt, pass, made, op).expect(rt, "memory"),
    }
}

/// What is told behind a wait, which is made once more where it found no memory.
pub(crate) fn wait<R: Wait + Abort, J: Naming>(
    rt: &R,
    board: &Board<J>,
    pass: &mut Pass,
    made: Name,
) -> Reply {
    match board.wait(rt, pass, made) {
        Ok(reply) => reply,
        Err(_) => board.wait(rt, pass, made).expect(rt, "memory"),
    }
}

pub(crate) fn status<R: Wait + Abort, J: Naming>(
    rt: &R,
    board: &Board<J>,
    pass: &mut Pass,
    made: Name,
) -> Reply {
    board.status(rt, pass, made).expect(rt, "memory")
}

pub(crate) fn cancel<R: Wait + Abort, J: Naming>(
    rt: &R,
    board: &Board<J>,
    pass: &mut Pass,
    made: Name,
) -> Reply {
    board.cancel(rt, pass, made).expect(rt, "memory")
}

/// The text of an image that is handed out; nothing where none is.
fn text_of(rt: &impl Abort, alloc: Global, value: FetchedValue) -> Vec<u8> {
    match value {
        FetchedValue::Image(plate) => {
            let image = whole_image(alloc, &plate).expect(rt, "memory");
            write(alloc, &image).expect(rt, "memory")
        }
        _ => Vec::new(alloc),
    }
}

/// A FETCH hands out this text.
pub(crate) fn shows<R: Wait + Abort, J: Naming>(
    rt: &R,
    alloc: Global,
    board: &Board<J>,
    pass: &mut Pass,
    made: Name,
    wanted: &[u8],
) {
    let fetched = board.fetch(rt, pass, made).expect(rt, "memory");
    assert_eq!(rt; text_of(rt, alloc, fetched.value).as_slice(), wanted);
}

/// Both passes, for an audit.
pub(crate) fn both(rt: &impl Abort, alloc: Global, one: Pass, other: Pass) -> Vec<Pass> {
    let mut passes = Vec::new(alloc);
    passes.push(one).expect(rt, "memory");
    passes.push(other).expect(rt, "memory");
    passes
}
