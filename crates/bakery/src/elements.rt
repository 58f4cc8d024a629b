// The elements of the agreement by their numbers.
// Kept: engines and sheets take an element by its number, a byte; an enum would be turned into one at each use.

pub const SHEET: u8 = 1;

pub const SHIFT: u8 = 2;

pub const CORRECTION: u8 = 3;

pub const LOCK: u8 = 4;

pub const HOURS: u8 = 5;
