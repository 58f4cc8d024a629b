// Whole words, over every engine and kind of letter: advancing a state by a word, and matching one.

ghost use Rattle.engine.specs.Languages.{Advanced, Decides};

use super::engine::Engine;

// The state after the word, or none where no word of the state's rest begins with it.
pub fn advance<E: Engine>(engine: &E, number: u8, state: u64, word: &[E::Letter]) -> Option<u64>
    ensures { Advanced (E.Engine.rest engine.now number) state word.now result }
{
    let mut reached = state;
    // Kept: with try_fold the goal `returns` stayed open: an engine's step is told by its languages, by no function to fold.
    for letter in word {
        reached = engine.step(number, reached, *letter)?;
    }
    Some(reached)
}

// Whether the word lies in the number's language.
pub fn match_word<E: Engine>(engine: &E, number: u8, word: &[E::Letter]) -> bool
    ensures { Decides result (E.Engine.language engine.now number word.now) }
{
    engine
        .open(number)
        .and_then(|first| advance(engine, number, first, word))
        .is_some_and(|last| engine.ends(number, last))
}
