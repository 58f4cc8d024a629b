// The two engines that a document is judged by, and whether they agree: values are for elements of plain
// text only.

ghost use Rattle.frames.specs.Agreements.{Agrees, AgreesAt};
ghost use Rattle.frames.specs.Meanings.{meaning};

use engine::{Content, Engine};

// What elements may hold, and what their texts may be.
#[derive_where(Clone, Copy)]
pub struct Engines<'e, C: Content, V: Engine<Letter = u8>> {
    pub content: &'e C,
    pub value: &'e V,
}

impl<'e, C: Content, V: Engine<Letter = u8>> Engines<'e, C, V> {
    // Whether every number from 1 to 63 that has a value language is plain.
    pub fn agrees(&self) -> bool
        ensures { Agrees (meaning C.Engine V.Engine self.now) result }
    {
        (1..64).all(|number| self.agrees_at(number))
    }

    // Whether a number that has a value language is plain.
    fn agrees_at(&self, number: u8) -> bool
        ensures { AgreesAt (meaning C.Engine V.Engine self.now) number result }
    {
        let plain = self.content.plain(number);
        self.value.open(number).is_none_or(|_| plain)
    }
}
