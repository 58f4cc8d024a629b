// Matches words by both engines, from tables written out here, and prints what each of them says.

#![tactic(auto)]

use derivative::Derivatives;
use engine::{Alphabet, ByteRange, ContentAtom, Letter, match_word};
use models::{Model, Node, Tables};
use positions::{BlankTable, FollowTable};
use sealing::{first_ambiguous, first_without_tree};
use std::io;

// The nodes of `(week, shift+, correction*, lock)`, with week 2, shift 3, correction 4 and lock 5.
const SHEET: [Node<ContentAtom>; 9] = [
    Node::Atom(ContentAtom::Element(2)),
    Node::Atom(ContentAtom::Element(3)),
    Node::Plus,
    Node::Seq,
    Node::Atom(ContentAtom::Element(4)),
    Node::Star,
    Node::Seq,
    Node::Atom(ContentAtom::Element(5)),
    Node::Seq,
];

// The words of the sheet that are matched: one that it has, and one that it lacks.
const WHOLE: [Letter; 4] = [
    Letter::Element(2),
    Letter::Element(3),
    Letter::Element(3),
    Letter::Element(5),
];

const SHORT: [Letter; 2] = [Letter::Element(2), Letter::Element(5)];

// The nodes of hours: digits, and perhaps a point and two digits.
fn hours(digit: ByteRange, point: ByteRange) -> [Node<ByteRange>; 9] {
    [
        Node::Atom(digit),
        Node::Plus,
        Node::Atom(point),
        Node::Atom(digit),
        Node::Seq,
        Node::Atom(digit),
        Node::Seq,
        Node::Opt,
        Node::Seq,
    ]
}

// What both engines say of each word. The follow table takes the lent places.
fn compare<L: Alphabet>(
    rt: &HostRuntime,
    tables: Tables<'_, '_, L::Atom>,
    atoms: &mut [Node<L::Atom>],
    words: &[(&str, &[L])],
) -> io::Result<()> {
    let mut rows = [0; 64];
    let mut blank = BlankTable {
        rows: &mut rows,
        atoms,
    };
    let slow = Derivatives::over(tables);
    let mut fast = FollowTable::empty();
    let filled = fast.fill(tables, &mut blank).is_ok();
    println!(rt; "table filled: {filled}")?;
    for (name, word) in words {
        let derived = match_word(&slow, 1, word);
        let followed = match_word(&fast, 1, word);
        println!(rt; "{name}: derivative {derived}, positions {followed}")?;
    }
    Ok(())
}

fn main(rt: HostRuntime) -> io::Result<()> {
    let models = [Model { start: 0, end: 9 }];
    let sheet = Tables {
        nodes: &SHEET,
        models: &models,
    };
    compare(
        &rt,
        sheet,
        &mut [Node::Unused; 64],
        &[("week shift shift lock", &WHOLE), ("week lock", &SHORT)],
    )?;
    let ambiguous = first_ambiguous(sheet).is_some();
    let treeless = first_without_tree(sheet).is_some();
    println!(rt; "ambiguous: {ambiguous}, without a tree: {treeless}")?;
    let (Some(digit), Some(point)) = (ByteRange::new(b'0', b'9'), ByteRange::new(b'.', b'.')) else {
        return Ok(());
    };
    let values = Tables {
        nodes: &hours(digit, point),
        models: &models,
    };
    compare(
        &rt,
        values,
        &mut [Node::Unused; 64],
        &[("7.50", b"7.50"), ("7.5", b"7.5")],
    )
}
