//! What a line says.

ghost use Rattle.std.specs.Prelude.{◌≡◌, min};
ghost use Rattle.std.specs.List.{position_or_len};
ghost use Rattle.mw_session_intake.specs.Reading.{one_name, two_names, three_names, name_and_number, two_names_and_number, name_and_three_numbers, window_op, op_with, run_in, ask_with, head_with, head_of, is_line_end};

use mw_model::{Ask, Awaited, FlatOp, GranOp, Head, Name, Op};
use mw_session_words::LineWords;

/// The greatest length of a payload, in bytes.
pub const PAYLOAD_LIMIT: u32 = 134_217_728;

/// The greatest length of a line without its LF, in bytes.
pub const LINE_LIMIT: usize = 200;

fn one_name(words: &mut LineWords) -> Option<Name>
    ensures { result ≡ one_name words.old }
{
    let a = words.name()?;
    words.end(a)
}

fn two_names(words: &mut LineWords) -> Option<(Name, Name)>
    ensures { result ≡ two_names words.old }
{
    let a = words.name()?;
    let b = words.name()?;
    words.end((a, b))
}

fn three_names(words: &mut LineWords) -> Option<(Name, Name, Name)>
    ensures { result ≡ three_names words.old }
{
    let a = words.name()?;
    let b = words.name()?;
    let c = words.name()?;
    words.end((a, b, c))
}

fn name_and_number(words: &mut LineWords) -> Option<(Name, u32)>
    ensures { result ≡ name_and_number words.old }
{
    let a = words.name()?;
    let n = words.number()?;
    words.end((a, n))
}

fn two_names_and_number(words: &mut LineWords) -> Option<(Name, Name, u32)>
    ensures { result ≡ two_names_and_number words.old }
{
    let a = words.name()?;
    let b = words.name()?;
    let n = words.number()?;
    words.end((a, b, n))
}

fn name_and_three_numbers(words: &mut LineWords) -> Option<(Name, u32, u32, u32)>
    ensures { result ≡ name_and_three_numbers words.old }
{
    let a = words.name()?;
    let k = words.number()?;
    let m = words.number()?;
    let n = words.number()?;
    words.end((a, k, m, n))
}

/// An operation on an image and an element.
#[tactic(auto, unfolding(crate::specs::Reading::window_op))]
fn window_op(word: &[u8], f: Name, b: Name) -> Option<FlatOp>
    ensures { result ≡ window_op word.now f b }
{
    if word == b"ERODE".as_slice() {
        return Some(FlatOp::Erode(f, b));
    }
    if word == b"DILATE".as_slice() {
        return Some(FlatOp::Dilate(f, b));
    }
    if word == b"OPEN".as_slice() {
        return Some(FlatOp::Opening(f, b));
    }
    if word == b"CLOSE".as_slice() {
        return Some(FlatOp::Closing(f, b));
    }
    if word == b"GRADIENT".as_slice() {
        return Some(FlatOp::Gradient(f, b));
    }
    if word == b"WTOPHAT".as_slice() {
        return Some(FlatOp::WhiteTopHat(f, b));
    }
    if word == b"BTOPHAT".as_slice() {
        return Some(FlatOp::BlackTopHat(f, b));
    }
    None
}

/// What a RUN computes: the word of an operation, and its arguments.
#[tactic(auto, unfolding(crate::specs::Reading::op_with))]
pub fn op_with(word: &[u8], words: &mut LineWords) -> Option<Op>
    ensures { result ≡ op_with word.now words.old }
{
    if word == b"THRESHOLD".as_slice() {
        let (f, k) = name_and_number(words)?;
        return Some(Op::Flat(FlatOp::Threshold(f, k)));
    }
    if word == b"HITMISS".as_slice() {
        let (f, hit, miss) = three_names(words)?;
        return Some(Op::Flat(FlatOp::HitMiss(f, hit, miss)));
    }
    if word == b"RANK".as_slice() {
        let (f, b, k) = two_names_and_number(words)?;
        return Some(Op::Flat(FlatOp::Rank(f, b, k)));
    }
    if word == b"SKELETON".as_slice() {
        let (f, b, levels) = two_names_and_number(words)?;
        return Some(Op::Gran(GranOp::Skeleton(f, b, levels)));
    }
    if word == b"RESTORE".as_slice() {
        let (g, b, levels) = two_names_and_number(words)?;
        return Some(Op::Gran(GranOp::Restore(g, b, levels)));
    }
    if word == b"SPECTRUM".as_slice() {
        let (f, b, levels) = two_names_and_number(words)?;
        return Some(Op::Gran(GranOp::Spectrum(f, b, levels)));
    }
    let (f, b) = two_names(words)?;
    let op = window_op(word, f, b)?;
    Some(Op::Flat(op))
}

fn run_in(words: &mut LineWords) -> Option<Ask>
    ensures { result ≡ run_in words.old }
{
    let name = words.name()?;
    let word = words.word()?;
    let op = op_with(word, words)?;
    Some(Ask::Run(name, op))
}

/// A request without a payload, but RUN: its word, and a name.
#[tactic(auto, unfolding(crate::specs::Reading::ask_with))]
fn ask_with(word: &[u8], words: &mut LineWords) -> Option<Ask>
    ensures { result ≡ ask_with word.now words.old }
{
    if word == b"CANCEL".as_slice() {
        return Some(Ask::Cancel(one_name(words)?));
    }
    if word == b"RELEASE".as_slice() {
        return Some(Ask::Release(one_name(words)?));
    }
    if word == b"STATUS".as_slice() {
        return Some(Ask::Status(one_name(words)?));
    }
    if word == b"FETCH".as_slice() {
        return Some(Ask::Fetch(one_name(words)?));
    }
    if word == b"WAIT".as_slice() {
        return Some(Ask::Wait(one_name(words)?));
    }
    if word == b"QUIT".as_slice() {
        return words.end(Ask::Quit);
    }
    None
}

#[tactic(auto, unfolding(crate::specs::Reading::head_with))]
fn head_with(word: &[u8], words: &mut LineWords) -> Option<Head>
    ensures { result ≡ head_with word.now words.old }
{
    if word == b"LOAD".as_slice() {
        let (name, len) = name_and_number(words)?;
        return Some(Head::Payload(Awaited::Image(name), len));
    }
    if word == b"ELEMENT".as_slice() {
        let (name, ox, oy, len) = name_and_three_numbers(words)?;
        return Some(Head::Payload(Awaited::Element(name, ox, oy), len));
    }
    if word == b"RUN".as_slice() {
        return Some(Head::Alone(run_in(words)?));
    }
    Some(Head::Alone(ask_with(word, words)?))
}

/// What a line says, without its LF.
#[tactic(auto, unfolding(crate::specs::Reading::head_of))]
pub fn head(line: &[u8]) -> Option<Head>
    ensures { result ≡ head_of line.now }
{
    let mut words = LineWords::new(line);
    let word = words.word()?;
    head_with(word, &mut words)
}

/// Where the line ends: the place of the first LF among the first 201 bytes, or how many of these there are.
pub fn line_end(bytes: &[u8]) -> usize
    ensures { result ≡ min 201 (position_or_len is_line_end bytes.now) }
{
    let seen = bytes.len().min(LINE_LIMIT + 1);
    for i in 0..seen {
        if bytes[i] == b'\n' {
            return i;
        }
    }
    seen
}
