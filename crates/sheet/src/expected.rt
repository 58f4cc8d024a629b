// What a sheet would take next.

ghost use Rattle.std.specs.Prelude.{◌≡◌, count_ones};

// The events that would be neither unknown nor offending: a set with 0 for some text and n for the start of
// n, and whether the innermost element may end.
#[derive(Clone, Copy, PartialEq, Eq, Debug)]
pub struct Expected {
    pub set: u64,
    pub end: bool,
}

impl Expected {
    // How many the set has.
    pub fn count(self) -> u32
        ensures { result ≡ count_ones self.set }
    {
        self.set.count_ones()
    }
}
