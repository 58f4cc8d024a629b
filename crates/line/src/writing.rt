// A line written into a lent buffer, piece by piece.

ghost use Rattle.std.specs.Prelude.{◌≡◌, ◌≤◌, length, IsSome};
ghost use Rattle.line.specs.Lines.{layer_word, agreement_layer_word, name_label, pieces, WrittenLine, OneText};
ghost use Rattle.line.specs.Longest.{Typed, NameWithin, NoneLonger};
ghost use Rattle.line.specs.Placed.{PutPieces};
ghost use Rattle.line.specs.Reached.{reached};

use super::lines::{AgreementLayer, LONGEST_LINE, LONGEST_NAME, Layer, Line};
use super::put::{Piece, Writer};

const LINE_END: &[u8] = b"]]\n";

impl Line<'_> {
    // Writes the line from the beginning of the buffer on and answers its length. Bytes behind it are zero. A
    // buffer that is too short is left zero, and there is no answer; one of the longest line's length is not too short
    // for a line whose name has a name's length.
    pub fn write(&self, out: &mut [u8]) -> Option<usize>
        ensures written { WrittenLine self.now out.old out.new result }
        ensures one { OneText }
        ensures longest { NoneLonger LONGEST_NAME LONGEST_LINE }
        ensures room { NameWithin LONGEST_NAME self.now → LONGEST_LINE ≤ length out.old → IsSome result }
    {
        out.fill(0);
        let mut writer = Writer::new(out, 0);
        if self.put(&mut writer).is_none() {
            out.fill(0);
            return None;
        }
        Some(writer.at)
    }

    // Kept: no Display, since a name is bytes that need be no str.
    fn put(&self, writer: &mut Writer) -> Option<()>
        ensures same_buffer { writer.new.out.ghost_name ≡ writer.old.out.ghost_name }
        ensures written { writer.old.at ≤ length writer.old.out.now → PutPieces (pieces self.now) writer.old.out.now writer.old.at writer.new.out.now (reached writer.new result) }
        ensures typed { Typed self.now }
    {
        match *self {
            Line::Pass { events, bytes } => writer.put_pieces(&[
                Piece::Verbatim(b"[pass [events "),
                Piece::Decimal(events as u64),
                Piece::Verbatim(b"] [bytes "),
                Piece::Decimal(bytes as u64),
                Piece::Verbatim(LINE_END),
            ]),
            Line::Refused {
                refusal,
                layer,
                events,
                byte,
                name,
            } => writer.put_pieces(&[
                Piece::Verbatim(b"[refused "),
                Piece::Decimal(refusal as u64),
                Piece::Verbatim(b" [layer "),
                Piece::Verbatim(layer.word()),
                Piece::Verbatim(b"] [events "),
                Piece::Decimal(events as u64),
                Piece::Verbatim(b"] [byte "),
                Piece::Decimal(byte as u64),
                Piece::Verbatim(label_of(name)),
                Piece::Verbatim(name),
                Piece::Verbatim(LINE_END),
            ]),
            Line::RefusedAgreement {
                refusal,
                layer,
                byte,
            } => writer.put_pieces(&[
                Piece::Verbatim(b"[refused "),
                Piece::Decimal(refusal as u64),
                Piece::Verbatim(b" [layer "),
                Piece::Verbatim(layer.word()),
                Piece::Verbatim(b"] [byte "),
                Piece::Decimal(byte as u64),
                Piece::Verbatim(LINE_END),
            ]),
        }
    }
}

fn label_of(name: &[u8]) -> &'static [u8]
    ensures { result.now ≡ name_label name.now }
{
    if name.is_empty() {
        b"] [name"
    } else {
        b"] [name "
    }
}

impl Layer {
    // Kept: a word is written as bytes, which Display would not hand out.
    fn word(self) -> &'static [u8]
        ensures { result.now ≡ layer_word self }
    {
        match self {
            Layer::Reader => b"reader",
            Layer::Names => b"names",
            Layer::Sheet => b"sheet",
        }
    }
}

impl AgreementLayer {
    // Kept: a word is written as bytes, which Display would not hand out.
    fn word(self) -> &'static [u8]
        ensures { result.now ≡ agreement_layer_word self }
    {
        match self {
            AgreementLayer::Declarations => b"declarations",
            AgreementLayer::Forms => b"forms",
        }
    }
}
