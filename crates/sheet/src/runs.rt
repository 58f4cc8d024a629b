// Whole histories: a list of calls sent to a fresh sheet, and the same list without its refused calls sent
// to a second one.

ghost use Rattle.std.specs.Prelude.{◌≡◌, min, length, take, drop};
ghost use Rattle.frames.specs.Meanings.{meaning};
ghost use Rattle.sheet.specs.Runs.{grants, Repeated, turns};
ghost use Rattle.sheet.specs.Theorem.{Judged, RightThroughout};

use super::sheet::Sheet;
use calls::{Answer, Call};
use engine::{Content, Engine};
use frames::Engines;

// Makes a sheet and sends it the calls, as many as have a place for their answer; answers that number.
pub fn play<C: Content, V: Engine<Letter = u8>>(
    engines: Engines<C, V>,
    calls: &[Call],
    answers: &mut [Answer],
) -> usize
    ensures answer { result ≡ min (length calls.now) (length answers.old) }
    ensures same { drop result answers.new ≡ drop result answers.old }
    ensures law { let M = meaning C.Engine V.Engine engines.entry in Judged M.contents M.values (turns calls.now answers.new) }
{
    let mut sheet = Sheet::make(engines);
    let count = calls.len().min(answers.len());
    // Kept: after a zip of iter_mut() no proof knows what the places hold.
    for (i, call) in calls[..count].iter().enumerate() {
        answers[i] = sheet.answer(*call);
    }
    count
}

// Sends the calls that were not refused to a fresh sheet, as many as have a place; answers that number.
fn send_granted<C: Content, V: Engine<Letter = u8>>(
    engines: Engines<C, V>,
    calls: &[Call],
    answers: &[Answer],
    again: &mut [Answer],
) -> usize
    ensures { let M = meaning C.Engine V.Engine engines.entry in RightThroughout M.contents M.values (turns calls.now answers.now) → Repeated (grants (take (length calls.now) answers.now)) again.old again.new result }
{
    let mut sheet = Sheet::make(engines);
    let mut sent = 0;
    // Kept: only granted calls take a place, and after a zip of iter_mut() no proof knows what the places hold.
    for (call, answer) in calls.iter().zip(answers) {
        if answer.is_ok() && sent < again.len() {
            again[sent] = sheet.answer(*call);
            sent += 1;
        }
    }
    sent
}

// Plays the calls, then sends those that were not refused to a second fresh sheet: each gets the answer it
// got. Answers how many were sent the first and the second time.
pub fn replay<C: Content, V: Engine<Letter = u8>>(
    engines: Engines<C, V>,
    calls: &[Call],
    answers: &mut [Answer],
    again: &mut [Answer],
) -> (usize, usize)
    ensures answer { result.0 ≡ min (length calls.now) (length answers.old) }
    ensures same { drop result.0 answers.new ≡ drop result.0 answers.old }
    ensures law { let M = meaning C.Engine V.Engine engines.entry in Judged M.contents M.values (turns calls.now answers.new) }
    ensures again { Repeated (grants (take (length calls.now) answers.new)) again.old again.new result.1 }
{
    let count = play(engines, calls, answers);
    let sent = send_granted(engines, calls, answers, again);
    (count, sent)
}
