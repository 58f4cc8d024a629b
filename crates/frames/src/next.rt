// What may come next in one open element: which letters, and whether some text.

ghost use Rattle.std.specs.Prelude.{◌≡◌, ℕ, ◌<◌, ◌≤◌, false, [], ◌∷◌, ◌≢◌};
ghost use Rattle.bits.specs.Sets.{has};
ghost use Rattle.engine.specs.Languages.{Decides, Inhabited, residue};
ghost use Rattle.frames.specs.Meanings.{meaning};
ghost use Rattle.frames.specs.Next.{ChildGoesOn, SomeByte, TextGoesOn};

use super::engines::Engines;
use super::frame::Frame;
use bits::with;
use engine::{Content, Engine, Letter};

impl<'e, C: Content, V: Engine<Letter = u8>> Engines<'e, C, V> {
    // The set of what may come next: 0 for some text and n for the start of n.
    pub fn next_letters(&self, frame: Frame) -> u64
        ensures text { Decides (has result 0) (TextGoesOn (meaning C.Engine V.Engine self.now) frame) }
        ensures starts { (n : ℕ) → 1 ≤ n → n ≤ 63 → Decides (has result n) (ChildGoesOn (meaning C.Engine V.Engine self.now) frame n) }
    {
        let text = self.some_text(frame);
        with_if(text, self.children(frame), 0)
    }

    // Whether some text may come next.
    fn some_text(&self, frame: Frame) -> bool
        ensures { Decides result (TextGoesOn (meaning C.Engine V.Engine self.now) frame) }
    {
        let valued = frame
            .value
            .is_none_or(|state| some_byte(self.value, frame.number, state));
        goes_on(self.content, frame.number, frame.content, Letter::Text) && valued
    }

    // The set of the elements that may start next.
    fn children(&self, frame: Frame) -> u64
        ensures text { has result 0 ≡ false }
        ensures starts { (n : ℕ) → 1 ≤ n → n ≤ 63 → Decides (has result n) (ChildGoesOn (meaning C.Engine V.Engine self.now) frame n) }
    {
        let mut set = 0;
        // Kept: a fold left the goals of both clauses open: what an engine answers is told by no function to fold.
        for number in 1..64 {
            let next = goes_on(
                self.content,
                frame.number,
                frame.content,
                Letter::Element(number),
            );
            set = with_if(next, set, number);
        }
        set
    }
}

// Whether some word goes on from the state with the letter.
fn goes_on<E: Engine>(engine: &E, number: u8, state: u64, letter: E::Letter) -> bool
    ensures { Decides result (Inhabited (residue (E.Engine.rest engine.now number state) (letter ∷ []))) }
{
    engine.step(number, state, letter).is_some()
}

// Whether some value goes on from the state with a byte.
fn some_byte<V: Engine<Letter = u8>>(value: &V, number: u8, state: u64) -> bool
    ensures { Decides result (SomeByte (V.Engine.rest value.now number state)) }
{
    // Kept: over 0..=u8::MAX the goal `returns` stayed open; the lemma on what a range yields is of one without its end.
    (0..256u16).any(|byte| goes_on(value, number, state, byte as u8))
}

// The set, with one number more if that is wanted.
fn with_if(wanted: bool, set: u64, number: u8) -> u64
    ensures here { number < 64 → has set number ≡ false → has result number ≡ wanted }
    ensures others { (q : ℕ) → (q ≢ number) → has result q ≡ has set q }
{
    // Kept: with `set | when(wanted, only(number))` the goals of both clauses stayed open.
    if wanted { with(set, number) } else { set }
}
