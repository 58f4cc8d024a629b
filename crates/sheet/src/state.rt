// The state of a sheet, apart from its engines, and the changes that an accepted event makes to it.

ghost use Rattle.std.specs.Prelude.{◌≡◌, ◌-◌, ◌≤◌, length, slice_get};
ghost use Rattle.sheet.specs.States.{Fitting, applied, fresh};

use arrayvec::ArrayVec;
use frames::Frame;

// How many elements may be open at once.
const MAX_DEPTH: usize = 64;

// How many events a sheet accepts.
pub const MAX_EVENTS: u32 = 1_000_000;

// Where a sheet is.
#[derive(Clone, Copy)]
pub enum Phase {
    Fresh,
    Begun,
    Open,
    Ended,
    Passed,
}

// What an accepted event changes: the root opens; a child opens in the innermost element, whose frame has
// moved on; a text moves the innermost frame on; the innermost element ends.
#[derive(Clone, Copy)]
pub enum Change {
    Root(Frame),
    Child { parent: Frame, child: Frame },
    Text(Frame),
    End,
}

// The state: where the sheet is, the root begun with, the open elements from outer to inner, and how many
// events were accepted.
// Kept: four of the five phases have the root; variants would write it four times.
#[derive(Drop)]
pub struct State {
    pub phase: Phase,
    pub root: u8,
    pub count: u32,
    pub frames: ArrayVec<Frame, MAX_DEPTH>,
}

impl State {
    pub fn fresh() -> State
        ensures { result ≡ fresh }
    {
        State {
            phase: Phase::Fresh,
            root: 0,
            count: 0,
            frames: ArrayVec::new(),
        }
    }

    // The innermost open element.
    pub fn top(&self) -> Option<Frame>
        ensures last { result ≡ slice_get self.now.frames.items (length self.now.frames.items - 1) }
        ensures fits { length self.now.frames.items ≤ 64 }
    {
        self.frames.last().copied()
    }

    pub fn apply(&mut self, change: Change)
        requires { Fitting self.old change }
        ensures { self.new ≡ applied self.old change }
    {
        self.count += 1;
        match change {
            Change::Root(frame) => {
                self.frames.clear();
                self.frames.push(frame);
                self.phase = Phase::Open;
            }
            Change::Child { parent, child } => {
                self.frames.pop();
                self.frames.push(parent);
                self.frames.push(child);
            }
            Change::Text(frame) => {
                self.frames.pop();
                self.frames.push(frame);
            }
            Change::End => {
                self.frames.pop();
                if self.frames.is_empty() {
                    self.phase = Phase::Ended;
                }
            }
        }
    }
}
