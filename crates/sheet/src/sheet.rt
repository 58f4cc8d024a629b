// The sheet itself. Each event is first asked about, which changes nothing, and then applied, which cannot
// refuse.

ghost use Rattle.std.specs.Prelude.{◌≡◌, []};
ghost use Rattle.engine.specs.Languages.{Decides};
ghost use Rattle.engine.specs.Trees.{start, text, end};
ghost use Rattle.sheet.specs.Said.{said, sent, Unwelcome};
ghost use Rattle.frames.specs.Meanings.{meaning};
ghost use Rattle.sheet.specs.Expect.{ExpectsInside, Tells};
ghost use Rattle.sheet.specs.Histories.{begin, send, finish};
ghost use Rattle.sheet.specs.Moves.{Moves};
ghost use Rattle.sheet.specs.Questions.{Known};
ghost use Rattle.calls.specs.Replies.{shown};
ghost use Rattle.sheet.specs.Replies.{outcome, verdict};
ghost use Rattle.sheet.specs.Stands.{Asked, Stands};
ghost use Rattle.sheet.specs.declared.state.Phase.TheVariants.{Begun, Open};

use super::expected::Expected;
use super::pass::Pass;
use super::state::{Change, MAX_EVENTS, Phase, State};
use bits::with;
use calls::{Answer, Call, Event, Granted, Refusal};
use engine::{Content, Engine, Letter};
use frames::Engines;

// Where nothing may come next.
const NOTHING: Expected = Expected { set: 0, end: false };

// One document as far as it has come in, judged by the contents and values that its two engines stand for.
#[derive(Drop)]
pub struct Sheet<'e, C: Content, V: Engine<Letter = u8>> {
    engines: Engines<'e, C, V>,
    state: State,
}

impl<'e, C: Content, V: Engine<Letter = u8>> Sheet<'e, C, V> {
    // A fresh sheet over the two engines.
    pub fn make(engines: Engines<'e, C, V>) -> Self
        ensures stands { Stands (meaning C.Engine V.Engine engines.entry) result.state [] }
        ensures engines { result.engines ≡ engines.entry }
    {
        Sheet {
            engines,
            state: State::fresh(),
        }
    }

    // Whether a text has a byte, or a number is declared.
    fn is_known(&self, event: Event) -> bool
        ensures { Decides result (Known (meaning C.Engine V.Engine self.now.engines).contents (said event.entry)) }
    {
        match event {
            Event::Start(number) | Event::End(number) => self.engines.is_declared(number),
            Event::Text(bytes) => !bytes.is_empty(),
        }
    }

    // The refusal of an event that no document has here.
    fn unwelcome(&self, event: Event) -> Refusal
        ensures { Unwelcome (meaning C.Engine V.Engine self.now.engines).contents (said event.entry) result }
    {
        if self.is_known(event) {
            Refusal::Offending
        } else {
            Refusal::NotKnown
        }
    }

    // Asks for the root's start.
    fn ask_root(&self, number: u8) -> Result<Change, Refusal>
        ensures { self.now.state.phase ≡ Begun → Asked (meaning C.Engine V.Engine self.now.engines) self.now.state (start number) result }
    {
        let frame = self.engines.open_frame(number).ok_or(Refusal::NotKnown)?;
        if number != self.state.root {
            return Err(Refusal::Offending);
        }
        if self.state.count >= MAX_EVENTS {
            return Err(Refusal::TooMany);
        }
        Ok(Change::Root(frame))
    }

    // Asks for a child's start in the innermost element.
    fn ask_child(&self, number: u8) -> Result<Change, Refusal>
        ensures { self.now.state.phase ≡ Open → Asked (meaning C.Engine V.Engine self.now.engines) self.now.state (start number) result }
    {
        let child = self.engines.open_frame(number).ok_or(Refusal::NotKnown)?;
        let top = self.state.top().ok_or(Refusal::NotUnderway)?;
        let parent = self
            .engines
            .read_letter(top, Letter::Element(number))
            .ok_or(Refusal::Offending)?;
        if self.state.frames.is_full() {
            return Err(Refusal::TooDeep);
        }
        if self.state.count >= MAX_EVENTS {
            return Err(Refusal::TooMany);
        }
        Ok(Change::Child { parent, child })
    }

    // Asks for a text in the innermost element.
    fn ask_text(&self, bytes: &[u8]) -> Result<Change, Refusal>
        ensures { self.now.state.phase ≡ Open → Asked (meaning C.Engine V.Engine self.now.engines) self.now.state (text bytes.now) result }
    {
        if bytes.is_empty() {
            return Err(Refusal::NotKnown);
        }
        let top = self.state.top().ok_or(Refusal::NotUnderway)?;
        let frame = self
            .engines
            .read_text(top, bytes)
            .ok_or(Refusal::Offending)?;
        if self.state.count >= MAX_EVENTS {
            return Err(Refusal::TooMany);
        }
        Ok(Change::Text(frame))
    }

    // Asks for the end of the innermost element.
    fn ask_end(&self, number: u8) -> Result<Change, Refusal>
        ensures { self.now.state.phase ≡ Open → Asked (meaning C.Engine V.Engine self.now.engines) self.now.state (end number) result }
    {
        if !self.engines.is_declared(number) {
            return Err(Refusal::NotKnown);
        }
        let top = self.state.top().ok_or(Refusal::NotUnderway)?;
        if number != top.number || !self.engines.is_complete(top) {
            return Err(Refusal::Offending);
        }
        if self.state.count >= MAX_EVENTS {
            return Err(Refusal::TooMany);
        }
        Ok(Change::End)
    }

    // Asks every question about an event: answers the change it makes, or the first refusal.
    fn ask(&self, event: Event) -> Result<Change, Refusal>
        ensures { Asked (meaning C.Engine V.Engine self.now.engines) self.now.state (said event.entry) result }
    {
        match (self.state.phase, event) {
            (Phase::Fresh | Phase::Passed, _) => Err(Refusal::NotUnderway),
            (Phase::Begun, Event::Start(number)) => self.ask_root(number),
            (Phase::Open, Event::Start(number)) => self.ask_child(number),
            (Phase::Open, Event::Text(bytes)) => self.ask_text(bytes),
            (Phase::Open, Event::End(number)) => self.ask_end(number),
            (Phase::Begun, Event::Text(_) | Event::End(_)) => Err(self.unwelcome(event)),
            (Phase::Ended, _) => Err(self.unwelcome(event)),
        }
    }

    // Sends one event: what is refused changes nothing.
    pub fn send(&mut self, event: Event) -> Result<(), Refusal>
        ensures { Moves C.Engine V.Engine self.old self.new (send (said event.entry)) (outcome result) }
    {
        let change = self.ask(event)?;
        self.state.apply(change);
        Ok(())
    }

    // Begins with a root.
    pub fn begin(&mut self, root: u8) -> Result<(), Refusal>
        ensures { Moves C.Engine V.Engine self.old self.new (begin root) (outcome result) }
    {
        let Phase::Fresh = self.state.phase else {
            return Err(Refusal::NotFresh);
        };
        if !self.engines.is_declared(root) {
            return Err(Refusal::RootUndeclared);
        }
        if !self.engines.agrees() {
            return Err(Refusal::ValueNotPlain);
        }
        self.state.root = root;
        self.state.phase = Phase::Begun;
        Ok(())
    }

    // An element starts.
    pub fn start(&mut self, number: u8) -> Result<(), Refusal>
        ensures { Moves C.Engine V.Engine self.old self.new (send (start number)) (outcome result) }
    {
        self.send(Event::Start(number))
    }

    // A text piece in the innermost element.
    pub fn text(&mut self, bytes: &[u8]) -> Result<(), Refusal>
        ensures { Moves C.Engine V.Engine self.old self.new (send (text bytes.now)) (outcome result) }
    {
        self.send(Event::Text(bytes))
    }

    // An element ends.
    pub fn end(&mut self, number: u8) -> Result<(), Refusal>
        ensures { Moves C.Engine V.Engine self.old self.new (send (end number)) (outcome result) }
    {
        self.send(Event::End(number))
    }

    // Gives the pass for a complete valid document.
    pub fn finish(&mut self) -> Result<Pass, Refusal>
        ensures { Moves C.Engine V.Engine self.old self.new finish (verdict result) }
    {
        match self.state.phase {
            Phase::Fresh | Phase::Passed => Err(Refusal::NotUnderway),
            Phase::Begun | Phase::Open => Err(Refusal::RootOpen),
            Phase::Ended => {
                self.state.phase = Phase::Passed;
                Ok(Pass {
                    root: self.state.root,
                    events: self.state.count,
                })
            }
        }
    }

    // What may come next in the innermost element.
    fn expect_inside(&self) -> Expected
        ensures { self.now.state.phase ≡ Open → ExpectsInside (meaning C.Engine V.Engine self.now.engines) self.now.state result }
    {
        let Some(top) = self.state.top() else {
            return NOTHING;
        };
        Expected {
            set: self.engines.next_letters(top),
            end: self.engines.is_complete(top),
        }
    }

    // The events that would be neither unknown nor offending.
    pub fn expect(&self) -> Result<Expected, Refusal>
        ensures { Tells (meaning C.Engine V.Engine self.now.engines) self.now.state result }
    {
        match self.state.phase {
            Phase::Fresh | Phase::Passed => Err(Refusal::NotUnderway),
            Phase::Begun => {
                let set = with(0, self.state.root);
                Ok(Expected { set, end: false })
            }
            Phase::Open => Ok(self.expect_inside()),
            Phase::Ended => Ok(NOTHING),
        }
    }

    // Sends any call and tells the answer; a pass is released at once.
    pub fn answer(&mut self, call: Call) -> Answer
        ensures { Moves C.Engine V.Engine self.old self.new (sent call.entry) (shown result) }
    {
        match call {
            Call::Begin(root) => self.begin(root)?,
            Call::Send(event) => self.send(event)?,
            Call::Finish => {
                let (root, events) = self.finish()?.release();
                return Ok(Granted::Passed { root, events });
            }
        }
        Ok(Granted::Accepted)
    }
}
