//! The words of a line, read one by one.

ghost use Rattle.std.specs.Prelude.{◌≡◌, ◌≤◌, ◌<◌, ◌+◌, ℕ, List, ◌∷◌, length, true};
ghost use Rattle.std.specs.List.{position_or_len, list_all};
ghost use Rattle.mw_session_words.specs.Words.{words, word_in, name_in, first_number, rest, at_end, is_blank, is_digit, is_number, number_word, digits_number};
ghost use Rattle.mw_session_words.specs.Words.{words_left, seen};

use mw_model::Name;
use std::marker::Model;

/// What is left of a line, or nothing behind its last word. Contracts see it as the list of the words.
#[derive(Drop)]
pub struct LineWords<'a> {
    left: Option<&'a [u8]>,
}

impl<'a> Model for LineWords<'a> {
    ghost use Rattle.std.specs.Prelude.{List, ℕ};
    ghost use Rattle.mw_session_words.specs.Words.{words_left};

    ghost Value = { List (List ℕ) };

    ghost view = { λ s. words_left s.left };
}

impl<'a> LineWords<'a> {
    pub fn new(line: &'a [u8]) -> LineWords<'a>
        ensures { result ≡ words line.now }
    {
        LineWords { left: Some(line) }
    }

    /// Takes the next word.
    pub fn word(&mut self) -> Option<&'a [u8]>
        ensures word { seen result ≡ word_in self.old }
        ensures rest { self.new ≡ rest self.old }
    {
        let line = self.left?;
        let (word, left) = first_word(line);
        self.left = left;
        Some(word)
    }

    /// Takes the next word, and reads it as a name.
    pub fn name(&mut self) -> Option<Name>
        ensures name { result ≡ name_in self.old }
        ensures rest { self.new ≡ rest self.old }
    {
        let word = self.word()?;
        Name::parse(word)
    }

    /// Takes the next word, and reads it as a number.
    pub fn number(&mut self) -> Option<u32>
        ensures number { result ≡ first_number self.old }
        ensures rest { self.new ≡ rest self.old }
    {
        let word = self.word()?;
        number(word)
    }

    /// The value, where no word is left.
    pub fn end<T: Drop>(&self, value: T) -> Option<T>
        ensures { result ≡ at_end self.now value }
    {
        match self.left {
            None => Some(value),
            Some(_) => None,
        }
    }
}

/// The first word, and what stands behind its blank.
fn first_word(line: &[u8]) -> (&[u8], Option<&[u8]>)
    ensures { words line.now ≡ result.0.now ∷ words_left result.1 }
{
    let end = blank_or_end(line);
    if end == line.len() {
        return (line, None);
    }
    (&line[..end], Some(&line[end + 1..]))
}

/// How many bytes stand before the first blank.
fn blank_or_end(line: &[u8]) -> usize
    ensures place { result ≡ position_or_len is_blank line.now }
    ensures inside { result ≤ length line.now }
{
    for i in 0..line.len() {
        if line[i] == b' ' {
            return i;
        }
    }
    line.len()
}

/// A number: 0, or one to nine digits the first of which is not 0.
fn number(word: &[u8]) -> Option<u32>
    ensures { result ≡ number_word word.now }
{
    if is_numeral(word) {
        Some(value(word))
    } else {
        None
    }
}

fn is_numeral(word: &[u8]) -> bool
    ensures { result ≡ is_number word.now }
{
    if word.is_empty() || word.len() > 9 {
        return false;
    }
    are_digits(word) && (word[0] != b'0' || word.len() == 1)
}

fn are_digits(word: &[u8]) -> bool
    ensures { result ≡ list_all is_digit word.now }
{
    word.iter().all(|b| is_digit_byte(*b))
}

fn is_digit_byte(b: u8) -> bool
    ensures { result ≡ is_digit b }
{
    b'0' <= b && b <= b'9'
}

/// The number that digits spell.
fn value(digits: &[u8]) -> u32
    requires few { length digits.now ≤ 9 }
    requires digits { list_all is_digit digits.now ≡ true }
    ensures { result ≡ digits_number digits.now }
{
    let mut n: u32 = 0;
    for d in digits {
        n = 10 * n + u32::from(*d - b'0');
    }
    n
}
