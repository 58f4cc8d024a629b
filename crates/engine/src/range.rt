// A range of bytes, which is never empty: its type keeps the low end below the high one.

ghost use Rattle.std.specs.Prelude.{◌≡◌, ◌<◌, ◌≤◌, MatchOption};

// An atom of a value form: all bytes between two ends, both of them in it.
#[derive(Clone, Copy, PartialEq, Eq, Debug)]
pub struct ByteRange {
    low: u8,
    high: u8,
    ghost ordered: { (low ≤ high) × (high < 256) },
}

impl ByteRange {
    // The range from low to high, or none where they are out of order.
    pub fn new(low: u8, high: u8) -> Option<ByteRange>
        ensures { MatchOption result (low ≤ high → ⊥) (λ range. (range.low ≡ low) × (range.high ≡ high)) }
    {
        if low <= high {
            Some(ByteRange { low, high })
        } else {
            None
        }
    }

    pub fn low(self) -> u8
        ensures { result ≡ self.low }
    {
        self.low
    }

    pub fn high(self) -> u8
        ensures { result ≡ self.high }
    {
        self.high
    }
}
