// What a program prints of its verdict: one line.

// The layer of the gate that refused a document.
#[derive(Clone, Copy, PartialEq, Eq, Debug)]
pub enum Layer {
    Reader,
    Names,
    Sheet,
}

// The text of an agreement that was refused.
#[derive(Clone, Copy, PartialEq, Eq, Debug)]
pub enum AgreementLayer {
    Declarations,
    Forms,
}

// A pass with its events and the document's length in bytes; a refused document with the refusal's number, the
// events that were accepted before it, the byte where it came and a name that goes with it, or none; a refused
// text of an agreement, with the byte where it was refused.
// Kept: a refusal stands here by its number; several crates have refusals, and this one stands on none of them.
// Kept: a name has a byte at least, so an empty one is none; an Option would tell two kinds of none.
#[derive(Clone, Copy, PartialEq, Eq, Debug)]
pub enum Line<'a> {
    Pass {
        events: u32,
        bytes: usize,
    },
    Refused {
        refusal: u8,
        layer: Layer,
        events: u32,
        byte: usize,
        name: &'a [u8],
    },
    RefusedAgreement {
        refusal: u8,
        layer: AgreementLayer,
        byte: usize,
    },
}

// Names of an agreement have at most this many bytes.
pub const LONGEST_NAME: usize = 32;

// The length of the longest line with such a name.
pub const LONGEST_LINE: usize = 117;
