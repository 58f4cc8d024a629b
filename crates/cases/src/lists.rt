// Lists of calls played over the bakery's engines, with the answers by value.

ghost use Rattle.std.specs.Prelude.{◌≡◌, List, map};
ghost use Rattle.calls.specs.Replies.{Recorded};
ghost use Rattle.cases.specs.Answers.{Answered, laid};
ghost use Rattle.cases.specs.Lists.{Mended, ToldApart, comma_offends, comma_passes, late_answers, mended_answers};
ghost use Rattle.frames.specs.Meanings.{meaning};
ghost use Rattle.sheet.specs.Histories as histories;
ghost use Rattle.sheet.specs.Said.{sent};

use bakery::{CORRECTION, HOURS, LOCK, SHEET, SHIFT, agreement, hours_values, no_values};
use engine::{Content, Engine};
use sheet::{Answer, Call, Engines, play};

// Plays the calls. Whatever answers are known to be right for them are those that it leaves in the slice.
fn play_known<C: Content, V: Engine<Letter = u8>>(
    engines: Engines<C, V>,
    calls: &[Call],
    answers: &mut [Answer],
)
    ensures { let M = meaning C.Engine V.Engine engines.entry in (said : List histories.Call) (right : List Recorded) → map sent calls.now ≡ said → Answered M.contents M.values said right → answers.new ≡ laid right answers.old }
{
    play(engines, calls, answers);
}

// Sends a sheet whose hours are written `7,5` over two pairs of engines that differ in their values: where
// hours have to be written with a point the text is refused, and where they need not there is a pass.
pub fn told_apart(valued: &mut [Answer], free: &mut [Answer])
    ensures valued { valued.new ≡ laid comma_offends valued.old }
    ensures free { free.new ≡ laid comma_passes free.old }
    ensures law { ToldApart }
{
    let calls = [
        Call::Begin(SHEET),
        Call::start(SHEET),
        Call::start(SHIFT),
        Call::start(HOURS),
        Call::text(b"7,5"),
        Call::end(HOURS),
        Call::end(SHIFT),
        Call::start(LOCK),
        Call::end(LOCK),
        Call::end(SHEET),
        Call::Finish,
    ];
    let content = &agreement();
    let dotted = Engines {
        content,
        value: &hours_values(),
    };
    let silent = Engines {
        content,
        value: &no_values(),
    };
    play_known(dotted, &calls, valued);
    play_known(silent, &calls, free);
}

// Sends the week twice: with its correction behind the lock, where it is refused, and then mended, with the
// correction before the lock. Each sheet gets its pass.
pub fn mend_week(late: &mut [Answer], mended: &mut [Answer])
    ensures late { late.new ≡ laid late_answers late.old }
    ensures mended { mended.new ≡ laid mended_answers mended.old }
    ensures law { Mended }
{
    late_week(late);
    mended_week(mended);
}

// Sends the week with its correction behind the lock, where it is refused; the sheet ends without it.
fn late_week(answers: &mut [Answer])
    ensures { answers.new ≡ laid late_answers answers.old }
{
    let calls = [
        Call::Begin(SHEET),
        Call::start(SHEET),
        Call::start(SHIFT),
        Call::start(HOURS),
        Call::text(b"8"),
        Call::end(HOURS),
        Call::end(SHIFT),
        Call::start(SHIFT),
        Call::start(HOURS),
        Call::text(b"7.50"),
        Call::end(HOURS),
        Call::end(SHIFT),
        Call::start(LOCK),
        Call::end(LOCK),
        Call::start(CORRECTION),
        Call::end(SHEET),
        Call::Finish,
    ];
    let engines = Engines {
        content: &agreement(),
        value: &hours_values(),
    };
    play_known(engines, &calls, answers);
}

// Sends the week with its correction before the lock, where it is accepted.
fn mended_week(answers: &mut [Answer])
    ensures { answers.new ≡ laid mended_answers answers.old }
{
    let calls = [
        Call::Begin(SHEET),
        Call::start(SHEET),
        Call::start(SHIFT),
        Call::start(HOURS),
        Call::text(b"8"),
        Call::end(HOURS),
        Call::end(SHIFT),
        Call::start(SHIFT),
        Call::start(HOURS),
        Call::text(b"7.50"),
        Call::end(HOURS),
        Call::end(SHIFT),
        Call::start(CORRECTION),
        Call::start(HOURS),
        Call::text(b"0.25"),
        Call::end(HOURS),
        Call::end(CORRECTION),
        Call::start(LOCK),
        Call::end(LOCK),
        Call::end(SHEET),
        Call::Finish,
    ];
    let engines = Engines {
        content: &agreement(),
        value: &hours_values(),
    };
    play_known(engines, &calls, answers);
}
