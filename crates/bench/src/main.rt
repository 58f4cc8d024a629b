// Compares the engines on the models of a week and on long models: which words each accepts and how many
// steps it makes, and, where the word `time` stands on the command line, how many steps in a second.

#![tactic(auto)]

mod samples;
mod speed;

use derivative::Derivatives;
use engine::{ContentAtom, Engine, Letter, match_word};
use models::{Model, Node, Tables};
use positions::{BlankColumnTable, BlankTable, ContentTable, FollowTable};
use samples::{Sample, WEEK_MODELS, WEEK_NODES, sequence, star};
use speed::{speed, steps_made};
use std::{env, io};

// Places for eight elements.
const PLACES: usize = 512;

// What one engine does with a word. A word that it refuses is not timed.
fn print_engine<E: Engine<Letter = Letter>>(
    rt: &HostRuntime,
    name: &str,
    engine: &E,
    number: u8,
    word: &[Letter],
    timed: bool,
) -> io::Result<()> {
    let steps = engine
        .open(number)
        .map_or(0, |first| steps_made(engine, number, first, word));
    let accepted = match_word(engine, number, word);
    print!(rt; "  {name:<12} {steps:>2} steps, accepted {accepted:>5}")?;
    if timed && accepted {
        let rate = speed(rt, engine, number, word)?;
        print!(rt; "{rate:>12} steps per second")?;
    }
    println!(rt)
}

// What the three engines over the same tables do with each word.
fn print_samples<Slow, Rows, Columns>(
    rt: &HostRuntime,
    slow: &Slow,
    rows: &Rows,
    columns: &Columns,
    samples: &[Sample],
    timed: bool,
) -> io::Result<()>
where
    Slow: Engine<Letter = Letter>,
    Rows: Engine<Letter = Letter>,
    Columns: Engine<Letter = Letter>,
{
    for sample in samples {
        let word = sample.word();
        let word = word.letters();
        let number = sample.number();
        println!(rt; "{sample}, {} letters", word.len())?;
        print_engine(rt, "derivative", slow, number, word, timed)?;
        print_engine(rt, "follow rows", rows, number, word, timed)?;
        print_engine(rt, "and columns", columns, number, word, timed)?;
    }
    Ok(())
}

// Fills the follow tables of the models, and runs the words.
fn run<'n, 'm, 'r, 'a, 's, 'b, 'c>(
    rt: &HostRuntime,
    tables: Tables<'n, 'm, ContentAtom>,
    blank: &mut BlankTable<'r, 'a, Letter>,
    sorted: &mut BlankColumnTable<'s, 'b, 'c, Letter>,
    samples: &[Sample],
    timed: bool,
) -> io::Result<()> {
    let slow: Derivatives<'n, 'm, Letter> = Derivatives::over(tables);
    let mut rows: FollowTable<'n, 'm, 'r, 'a, Letter> = FollowTable::empty();
    let mut table: ContentTable<'n, 'm, 's, 'b, 'c> = ContentTable::empty();
    let filled = rows.fill(tables, blank).is_ok();
    let sorted = table.fill(tables, sorted).is_ok();
    println!(rt; "tables filled: {filled} {sorted}")?;
    print_samples(rt, &slow, &rows, &table, samples, timed)
}

// Lends the places, and runs the words of the models.
fn compare(
    rt: &HostRuntime,
    tables: Tables<'_, '_, ContentAtom>,
    samples: &[Sample],
    timed: bool,
) -> io::Result<()> {
    let mut rows = [0; PLACES];
    let mut atoms = [Node::Unused; PLACES];
    let mut blank = BlankTable {
        rows: &mut rows,
        atoms: &mut atoms,
    };
    let mut more_rows = [0; PLACES];
    let mut more_atoms = [Node::Unused; PLACES];
    let mut columns = [0; PLACES];
    let mut sorted = BlankColumnTable {
        table: BlankTable {
            rows: &mut more_rows,
            atoms: &mut more_atoms,
        },
        columns: &mut columns,
    };
    run(rt, tables, &mut blank, &mut sorted, samples, timed)
}

// Runs the word of one model, which has all the nodes.
fn compare_one(
    rt: &HostRuntime,
    nodes: &[Node<ContentAtom>],
    sample: Sample,
    timed: bool,
) -> io::Result<()> {
    let models = [Model {
        start: 0,
        end: nodes.len(),
    }];
    let tables = Tables {
        nodes,
        models: &models,
    };
    compare(rt, tables, &[sample], timed)
}

// The star of an alternative of so many elements, and their sequence.
fn compare_long(rt: &HostRuntime, last: u8, timed: bool) -> io::Result<()> {
    println!(rt; "models of {last} atoms")?;
    compare_one(rt, &star(last), Sample::InTurn(last), timed)?;
    compare_one(rt, &sequence(last), Sample::Once(last), timed)
}

// Whether the command line asks for the time. No other word may stand on it.
fn asks_for_time(rt: &HostRuntime) -> io::Result<bool> {
    let mut timed = false;
    let mut words = env::args(rt)?;
    let _program = words.next();
    for word in words {
        if word.as_str() != "time" {
            eprintln!(rt; "bench: the one word that is known is time")?;
            return Err(io::Error::from(io::ErrorKind::InvalidInput));
        }
        timed = true;
    }
    Ok(timed)
}

fn main(rt: HostRuntime) -> io::Result<()> {
    let timed = asks_for_time(&rt)?;
    println!(rt; "models of a week")?;
    let samples = [
        Sample::Sheet,
        Sample::SheetWithoutShift,
        Sample::Shift,
        Sample::Correction,
        Sample::Note,
    ];
    let week = Tables {
        nodes: &WEEK_NODES,
        models: &WEEK_MODELS,
    };
    compare(&rt, week, &samples, timed)?;
    compare_long(&rt, 3, timed)?;
    compare_long(&rt, 63, timed)
}
