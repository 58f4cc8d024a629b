// The models that are measured, those of a week and long ones, and the words that are read by them.

ghost use Rattle.std.specs.Prelude.{◌≡◌, ◌+◌, ◌-◌, ◌*◌, min, length};

use arrayvec::ArrayVec;
use engine::{ContentAtom, Letter};
use models::{Model, Node};
use std::fmt;

// Kept: engines take an element by its number, a byte.
const SHEET: u8 = 1;

const WEEK: u8 = 2;

const SHIFT: u8 = 3;

const CORRECTION: u8 = 4;

const LOCK: u8 = 5;

const STAFF: u8 = 6;

const HOURS: u8 = 7;

const NOTE: u8 = 8;

// sheet (week, shift+, correction*, lock); week (#PCDATA); shift (staff, hours);
// correction (staff, hours?, note); lock EMPTY; staff (#PCDATA); hours (#PCDATA); note (#PCDATA | staff)*
pub const WEEK_NODES: [Node<ContentAtom>; 29] = [
    Node::Atom(ContentAtom::Element(WEEK)),
    Node::Atom(ContentAtom::Element(SHIFT)),
    Node::Plus,
    Node::Seq,
    Node::Atom(ContentAtom::Element(CORRECTION)),
    Node::Star,
    Node::Seq,
    Node::Atom(ContentAtom::Element(LOCK)),
    Node::Seq,
    Node::Atom(ContentAtom::Text),
    Node::Star,
    Node::Atom(ContentAtom::Element(STAFF)),
    Node::Atom(ContentAtom::Element(HOURS)),
    Node::Seq,
    Node::Atom(ContentAtom::Element(STAFF)),
    Node::Atom(ContentAtom::Element(HOURS)),
    Node::Opt,
    Node::Seq,
    Node::Atom(ContentAtom::Element(NOTE)),
    Node::Seq,
    Node::Empty,
    Node::Atom(ContentAtom::Text),
    Node::Star,
    Node::Atom(ContentAtom::Text),
    Node::Star,
    Node::Atom(ContentAtom::Text),
    Node::Atom(ContentAtom::Element(STAFF)),
    Node::Alt,
    Node::Star,
];

pub const WEEK_MODELS: [Model; 8] = [
    Model { start: 0, end: 9 },
    Model { start: 9, end: 11 },
    Model { start: 11, end: 14 },
    Model { start: 14, end: 20 },
    Model { start: 20, end: 21 },
    Model { start: 21, end: 23 },
    Model { start: 23, end: 25 },
    Model { start: 25, end: 29 },
];

// A week, fourteen shifts, four corrections and the lock.
const SHEET_CHILDREN: [u8; 20] = [
    WEEK, SHIFT, SHIFT, SHIFT, SHIFT, SHIFT, SHIFT, SHIFT, SHIFT, SHIFT, SHIFT, SHIFT, SHIFT,
    SHIFT, SHIFT, CORRECTION, CORRECTION, CORRECTION, CORRECTION, LOCK,
];

// Places for the nodes of 255 elements, for the nodes that join them, and for one more.
const NODE_PLACES: usize = 510;

// How many letters a long word has.
const LETTERS: usize = 63;

pub type Nodes = ArrayVec<Node<ContentAtom>, NODE_PLACES>;

// The nodes of the elements from 1 to the last one, each joined to those before it.
fn joined(last: u8, join: Node<ContentAtom>) -> Nodes
    ensures { length result.items ≡ 2 * last - 1 }
{
    let mut nodes = Nodes::new();
    for before in 0..last {
        nodes.push(Node::Atom(ContentAtom::Element(before + 1)));
        if before > 0 {
            nodes.push(join);
        }
    }
    nodes
}

// The star of the alternative of the elements from 1 to the last one.
pub fn star(last: u8) -> Nodes
    ensures { length result.items ≡ (2 * last - 1) + 1 }
{
    let mut nodes = joined(last, Node::Alt);
    nodes.push(Node::Star);
    nodes
}

// The sequence of the elements from 1 to the last one.
pub fn sequence(last: u8) -> Nodes
    ensures { length result.items ≡ 2 * last - 1 }
{
    joined(last, Node::Seq)
}

// A word, in the first of its places.
// Kept: an `ArrayVec` begins with defaults, and no letter is one.
#[derive(Drop)]
pub struct Word {
    places: [Letter; 255],
    count: u8,
}

impl Word {
    fn empty() -> Word
        ensures { result.count ≡ 0 }
    {
        Word {
            places: [Letter::Text; 255],
            count: 0,
        }
    }

    // Adds a letter, where there is a place for it.
    fn push(&mut self, letter: Letter)
        ensures { self.new.count ≡ min (self.old.count + 1) 255 }
    {
        if self.count < 255 {
            self.places[self.count as usize] = letter;
            self.count += 1;
        }
    }

    // The letters that were added.
    pub fn letters(&self) -> &[Letter]
        ensures { length result.now ≡ self.now.count }
    {
        &self.places[..self.count as usize]
    }
}

// A word that the engines read.
#[derive(Clone, Copy, Debug)]
pub enum Sample {
    Sheet,
    SheetWithoutShift,
    Shift,
    Correction,
    Note,
    InTurn(u8),
    Once(u8),
}

// What the word is a word of, or where it goes wrong.
impl fmt::Display for Sample {
    fn fmt<W: fmt::Write>(&self, f: &mut fmt::Formatter<W>) -> fmt::Result {
        f.write_str(match self {
            Sample::Sheet => "sheet",
            Sample::SheetWithoutShift => "sheet, no shift",
            Sample::Shift => "shift",
            Sample::Correction => "correction",
            Sample::Note => "note",
            Sample::InTurn(_) => "star of an alternative",
            Sample::Once(_) => "sequence",
        })
    }
}

impl Sample {
    // The number of the model.
    pub fn number(self) -> u8 {
        match self {
            Sample::Shift => SHIFT,
            Sample::Correction => CORRECTION,
            Sample::Note => NOTE,
            _ => SHEET,
        }
    }

    // The letters of the word.
    pub fn word(self) -> Word {
        match self {
            Sample::Sheet => elements(&SHEET_CHILDREN),
            Sample::SheetWithoutShift => elements(&[WEEK, LOCK]),
            Sample::Shift => elements(&[STAFF, HOURS]),
            Sample::Correction => elements(&[STAFF, HOURS, NOTE]),
            Sample::Note => note(),
            Sample::InTurn(last) => in_turn(last),
            Sample::Once(last) => once(last),
        }
    }
}

// The elements from 1 to the last one, again and again.
fn in_turn(last: u8) -> Word
    ensures { result.count ≡ 63 }
{
    let mut word = Word::empty();
    let mut number = 0;
    for _turn in 0..LETTERS {
        number = if number < last { number + 1 } else { 1 };
        word.push(Letter::Element(number));
    }
    word
}

// The elements from 1 to the last one.
fn once(last: u8) -> Word
    ensures { result.count ≡ last }
{
    let mut word = Word::empty();
    for before in 0..last {
        word.push(Letter::Element(before + 1));
    }
    word
}

// The elements of these numbers, as far as there are places.
fn elements(numbers: &[u8]) -> Word
    ensures { result.count ≡ min (length numbers.now) 255 }
{
    let mut word = Word::empty();
    for number in numbers {
        word.push(Letter::Element(*number));
    }
    word
}

// A note's children: text and staff by turns.
fn note() -> Word
    ensures { result.count ≡ 63 }
{
    let mut word = Word::empty();
    for i in 0..LETTERS {
        word.push(if i % 2 == 0 {
            Letter::Text
        } else {
            Letter::Element(STAFF)
        });
    }
    word
}
