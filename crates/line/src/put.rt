// A writer over a lent buffer: bytes, numbers and pieces are put one behind another.

ghost use Rattle.std.specs.Prelude.{◌≡◌, ◌≤◌, [], ◌∷◌, length, map, IfNone};
ghost use Rattle.line.specs.Decimals.{OneDecimal};
ghost use Rattle.line.specs.Pieces.{said};
ghost use Rattle.line.specs.Placed.{Put, Kept, PutNumber, PutPieces};
ghost use Rattle.line.specs.Reached.{reached};

use itoa::Buffer;

// A piece of a text: bytes as they stand, or a number in base ten.
#[derive(Clone, Copy, PartialEq, Eq, Debug)]
pub(crate) enum Piece<'a> {
    Verbatim(&'a [u8]),
    Decimal(u64),
}

// A lent buffer, and the place up to which it is written.
#[derive(Drop)]
pub struct Writer<'o> {
    out: &'o mut [u8],
    pub at: usize,
}

impl<'o> Writer<'o> {
    // A buffer that is to be written from the place on.
    pub fn new(out: &'o mut [u8], at: usize) -> Writer<'o>
        ensures same_buffer { result.out.ghost_name ≡ out.entry.ghost_name }
        ensures bytes { result.out.now ≡ out.old }
        ensures place { result.at ≡ at }
    {
        Writer { out, at }
    }

    // Puts the pieces, one behind another, up to the first that has no room.
    pub(crate) fn put_pieces(&mut self, pieces: &[Piece]) -> Option<()>
        ensures same_buffer { self.new.out.ghost_name ≡ self.old.out.ghost_name }
        ensures written { self.old.at ≤ length self.old.out.now → PutPieces (map said pieces.now) self.old.out.now self.old.at self.new.out.now (reached self.new result) }
    {
        // Kept: `try_for_each` leaves `same_buffer` open: nothing is known of what its closure borrows and changes.
        for piece in pieces {
            self.put(*piece)?;
        }
        Some(())
    }

    fn put(&mut self, piece: Piece) -> Option<()>
        ensures same_buffer { self.new.out.ghost_name ≡ self.old.out.ghost_name }
        ensures written { PutPieces (said piece.entry ∷ []) self.old.out.now self.old.at self.new.out.now (reached self.new result) }
        ensures place { IfNone result (self.new.at ≡ self.old.at) }
    {
        match piece {
            Piece::Verbatim(bytes) => self.put_bytes(bytes),
            Piece::Decimal(number) => self.put_number(number),
        }
    }

    // Puts the text of the number in base ten, if it has room; else the writer is as it was.
    pub fn put_number(&mut self, number: u64) -> Option<()>
        ensures same_buffer { self.new.out.ghost_name ≡ self.old.out.ghost_name }
        ensures written { PutNumber number self.old.out.now self.old.at self.new.out.now (reached self.new result) }
        ensures same { Kept self.old.out.now self.new.out.now (reached self.new result) }
        ensures place { IfNone result (self.new.at ≡ self.old.at) }
        ensures one { OneDecimal }
    {
        let mut digits = Buffer::new();
        self.put_bytes(digits.format(number).as_bytes())
    }

    // Puts the bytes, if they have room; else the writer is as it was.
    pub fn put_bytes(&mut self, bytes: &[u8]) -> Option<()>
        ensures same_buffer { self.new.out.ghost_name ≡ self.old.out.ghost_name }
        ensures written { Put bytes.now self.old.out.now self.old.at self.new.out.now (reached self.new result) }
        ensures same { Kept self.old.out.now self.new.out.now (reached self.new result) }
        ensures place { IfNone result (self.new.at ≡ self.old.at) }
    {
        let next = self.at.checked_add(bytes.len())?;
        if next > self.out.len() {
            return None;
        }
        self.out[self.at..next].copy_from_slice(bytes);
        self.at = next;
        Some(())
    }
}
