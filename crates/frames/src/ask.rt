// The questions that are put to the two engines about one open element.

ghost use Rattle.engine.specs.Languages.{Decides};
ghost use Rattle.engine.specs.Trees.{Declared};
ghost use Rattle.frames.specs.Asks.{OpensFrame, ReadsContent, ReadsLetter, ReadsText, Completes};
ghost use Rattle.frames.specs.Meanings.{meaning};

use super::engines::Engines;
use super::frame::Frame;
use engine::{Content, Engine, Letter, advance};

// Whether the number has a content language. One content engine is enough to ask.
pub fn is_declared<C: Content>(content: &C, number: u8) -> bool
    ensures { Decides result (Declared (C.Engine.language content.now) number) }
{
    content.open(number).is_some()
}

// The frame after one letter more of content, or none where no child may come next as that letter. One content
// engine is enough to ask.
pub fn read_letter<C: Content>(content: &C, frame: Frame, letter: Letter) -> Option<Frame>
    ensures { ReadsContent (C.Engine.rest content.now) frame letter result }
{
    let content = content.step(frame.number, frame.content, letter)?;
    Some(Frame { content, ..frame })
}

impl<'e, C: Content, V: Engine<Letter = u8>> Engines<'e, C, V> {
    // Whether the number has a content language.
    pub fn is_declared(&self, number: u8) -> bool
        ensures { Decides result (Declared (meaning C.Engine V.Engine self.now).contents number) }
    {
        is_declared(self.content, number)
    }

    // The frame of an element that has just started, or none where its number is not declared.
    pub fn open_frame(&self, number: u8) -> Option<Frame>
        ensures { OpensFrame (meaning C.Engine V.Engine self.now) number result }
    {
        let content = self.content.open(number)?;
        let value = self.value.open(number);
        Some(Frame {
            number,
            content,
            value,
        })
    }

    // The frame after one letter more of content, or none where no child may come next as that letter.
    pub fn read_letter(&self, frame: Frame, letter: Letter) -> Option<Frame>
        ensures { ReadsLetter (meaning C.Engine V.Engine self.now) frame letter result }
    {
        read_letter(self.content, frame, letter)
    }

    // The frame after a text, or none where the content or the value does not go on with it.
    pub fn read_text(&self, frame: Frame, bytes: &[u8]) -> Option<Frame>
        ensures { ReadsText (meaning C.Engine V.Engine self.now) frame bytes.now result }
    {
        let read = self.read_letter(frame, Letter::Text)?;
        let Some(state) = frame.value else {
            return Some(read);
        };
        let advanced = advance(self.value, frame.number, state, bytes)?;
        Some(Frame {
            value: Some(advanced),
            ..read
        })
    }

    // Whether the element may end here.
    pub fn is_complete(&self, frame: Frame) -> bool
        ensures { Decides result (Completes (meaning C.Engine V.Engine self.now) frame) }
    {
        let valued = frame
            .value
            .is_none_or(|state| self.value.ends(frame.number, state));
        valued && self.content.ends(frame.number, frame.content)
    }
}
