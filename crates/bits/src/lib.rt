// Sets of the numbers from 0 to 63, each held in one word. A place from 64 on lies in no set:
// it is never found, and adding or removing it changes nothing.
// Kept: a set is a plain word, since the states of engines are words of 64 bits.

#![tactic(auto)]

ghost use Rattle.std.specs.Prelude.{◌≡◌, ℕ, ◌<◌, ◌≤◌, true, false, ◌&&◌, ◌||◌, MatchOption, ◌≢◌};
ghost use Rattle.std.specs.Iterator.{at_most};
ghost use Rattle.bits.specs.Sets.{has, singleton, guarded, TakesLowest};

// The set of one number; no number from 64 on is in a set.
pub fn only(place: u8) -> u64
    ensures { result ≡ singleton place }
{
    if place < 64 { 1 << place } else { 0 }
}

// The set where a test holds, and else the empty one.
pub fn when(test: bool, set: u64) -> u64
    ensures { result ≡ guarded test set }
{
    if test { set } else { 0 }
}

// Whether a number lies in the set.
pub fn contains(set: u64, place: u8) -> bool
    ensures { result ≡ has set place }
{
    place < 64 && (set >> place) % 2 == 1
}

// The set with one number more.
pub fn with(set: u64, place: u8) -> u64
    ensures added { place < 64 → has result place ≡ true }
    ensures others { (q : ℕ) → (q ≢ place) → has result q ≡ has set q }
    ensures full { 64 ≤ place → result ≡ set }
    ensures more { place < 64 → has set place ≡ false → set < result }
{
    set | only(place)
}

// The set less one number. It is smaller as a number too where the number was in it, so that a loop
// which takes the lowest number away until none is left comes to an end.
pub fn without(set: u64, place: u8) -> u64
    ensures removed { has result place ≡ false }
    ensures others { (q : ℕ) → (q ≢ place) → has result q ≡ has set q }
    ensures absent { has set place ≡ false → result ≡ set }
    ensures less { has set place ≡ true → result < set }
{
    set & !only(place)
}

// The numbers of either set.
pub fn union(a: u64, b: u64) -> u64
    ensures { (q : ℕ) → has result q ≡ (has a q || has b q) }
{
    a | b
}

// The numbers of both sets.
pub fn meet(a: u64, b: u64) -> u64
    ensures { (q : ℕ) → has result q ≡ (has a q && has b q) }
{
    a & b
}

// The lowest number of the set, or none where the set is empty.
pub fn lowest(set: u64) -> Option<u8>
    ensures { MatchOption result (set ≡ 0) (λ p. (p < 64) × (has set p ≡ true) × ((q : ℕ) → q < p → has set q ≡ false)) }
{
    if set == 0 {
        None
    } else {
        Some(set.trailing_zeros() as u8)
    }
}

// The numbers of a set that are still to come, from the lowest on.
#[derive(Clone, Copy, Debug)]
pub struct Members {
    left: u64,
}

impl Iterator for Members {
    type Item = u8;

    ghost next_gives = { λ before place after. TakesLowest before.left place after.left };

    ghost remaining = { λ members. at_most members.left };

    fn next(&mut self) -> Option<u8> {
        let place = lowest(self.left)?;
        self.left = without(self.left, place);
        Some(place)
    }
}

impl Members {
    // All numbers of a set.
    pub fn of(set: u64) -> Members
        ensures { result.left ≡ set }
    {
        Members { left: set }
    }
}

#[cfg(test)]
mod tests {
    use super::{Members, contains, lowest, meet, only, union, when, with, without};

    #[test]
    fn few_numbers(rt: HostRuntime) {
        let set = with(with(0, 63), 5);
        assert_eq!(rt; set, 0x8000_0000_0000_0020);
        assert!(rt;
            contains(set, 5) && contains(set, 63) && !contains(set, 4) && !contains(set, 64)
        );
        assert_eq!(rt; with(set, 64), set);
        assert_eq!(rt; lowest(set), Some(5));
        assert_eq!(rt; without(set, 5), 0x8000_0000_0000_0000);
        assert_eq!(rt; without(set, 6), set);
        assert_eq!(rt; lowest(0), None);
        assert_eq!(rt; union(set, 1), 0x8000_0000_0000_0021);
        assert_eq!(rt; meet(set, 0xff), 0x20);
        assert_eq!(rt; when(contains(set, 5), only(5)), 0x20);
        assert_eq!(rt; only(64), 0);
    }

    #[test]
    fn from_the_lowest_on(rt: HostRuntime) {
        let mut places = Members::of(0x8000_0000_0000_0021);
        assert_eq!(rt; places.next(), Some(0));
        assert_eq!(rt; places.next(), Some(5));
        assert_eq!(rt; places.next(), Some(63));
        assert_eq!(rt; places.next(), None);
    }
}
