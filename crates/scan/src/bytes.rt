// Kinds of bytes, and the byte at a place.

ghost use Rattle.std.specs.Prelude.{◌≡◌, drop, nat_eq, slice_get};
ghost use Rattle.scan.specs.Bytes.{is_blank, is_initial, is_name_byte, is_text_byte, first_is};

// Whether the byte is a blank.
pub fn is_blank(byte: u8) -> bool
    ensures { result ≡ is_blank byte }
{
    matches!(byte, b'\t' | b'\n' | b'\r' | b' ')
}

// Whether a name may begin with the byte.
pub fn is_initial(byte: u8) -> bool
    ensures { result ≡ is_initial byte }
{
    matches!(byte, b'A'..=b'Z' | b'a'..=b'z' | b'_' | b':')
}

// Whether a name may go on with the byte.
pub fn is_name_byte(byte: u8) -> bool
    ensures { result ≡ is_name_byte byte }
{
    is_initial(byte) || matches!(byte, b'0'..=b'9' | b'.' | b'-')
}

// Whether text and comments may hold the byte.
pub fn is_text_byte(byte: u8) -> bool
    ensures { result ≡ is_text_byte byte }
{
    matches!(byte, b'\t' | b'\n' | b'\r' | b' '..)
}

// The text from the place on; past the end it is empty.
pub fn rest(text: &[u8], at: usize) -> &[u8]
    ensures { result.now ≡ drop at text.now }
{
    text.get(at..).unwrap_or_default()
}

// The byte at the place; none stands past the end.
pub fn peek(text: &[u8], at: usize) -> Option<u8>
    ensures { result ≡ slice_get text.now at }
{
    text.get(at).copied()
}

// Whether this byte stands at the place; none does past the end.
pub fn byte_is(text: &[u8], at: usize, byte: u8) -> bool
    ensures { result ≡ first_is (nat_eq byte) (drop at text.now) }
{
    peek(text, at) == Some(byte)
}
