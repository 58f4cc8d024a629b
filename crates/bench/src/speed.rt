// How many steps an engine makes on a word, and how many in a second.

ghost use Rattle.bench.specs.Steps.{ReadsUpTo};

use engine::{Engine, Letter, advance};
use std::io;
use std::time::Instant;

// How often a word is read between two looks at the clock, and how often the clock is looked at.
const ROUNDS: usize = 200;

const LOOKS: usize = 1_000_000;

const ENOUGH_MICROS: u128 = 300_000;

// How many letters of the word are read from a state before one is refused.
pub fn steps_made<E: Engine>(engine: &E, number: u8, first: u64, word: &[E::Letter]) -> usize
    ensures { ReadsUpTo (E.Engine.rest engine.now number) first word.now result }
{
    let mut reached = first;
    for (i, letter) in word.iter().enumerate() {
        match engine.step(number, reached, *letter) {
            Some(next) => reached = next,
            None => return i,
        }
    }
    word.len()
}

// Reads the word many times, every other time without its last letter, and counts the steps.
fn read_often<E: Engine<Letter = Letter>>(
    engine: &E,
    number: u8,
    first: u64,
    word: &[Letter],
) -> u64 {
    let mut steps = 0u64;
    for round in 0..ROUNDS {
        let letters = word.len().saturating_sub(round % 2);
        if advance(engine, number, first, &word[0..letters]).is_some() {
            steps = steps.saturating_add(letters as u64);
        }
    }
    steps
}

// Steps per second on a word that is read from the beginning again and again.
pub fn speed<E: Engine<Letter = Letter>>(
    rt: &HostRuntime,
    engine: &E,
    number: u8,
    word: &[Letter],
) -> io::Result<u128> {
    let Some(first) = engine.open(number) else {
        return Ok(0);
    };
    let start = Instant::now(rt)?;
    let mut steps = 0u64;
    for _ in 0..LOOKS {
        steps = steps.saturating_add(read_often(engine, number, first, word));
        let micros = start.elapsed(rt)?.as_micros();
        if micros >= ENOUGH_MICROS {
            return Ok(steps as u128 * 1_000_000 / micros);
        }
    }
    Ok(0)
}
