// Words and values that the agreement admits, and some that it does not.

use super::elements::{CORRECTION, HOURS, LOCK, SHEET, SHIFT};
use super::made::{agreement, hours_values};
use engine::{Letter, match_word};

#[test]
fn a_sheet_ends_with_its_lock(rt: HostRuntime) {
    let agreement = agreement();
    let shift = Letter::Element(SHIFT);
    let correction = Letter::Element(CORRECTION);
    let lock = Letter::Element(LOCK);
    assert!(rt; match_word(&agreement, SHEET, &[shift, lock]));
    assert!(rt; !match_word(&agreement, SHEET, &[lock]));
    assert!(rt; !match_word(&agreement, SHEET, &[shift, lock, correction]));
}

#[test]
fn hundredths_are_two_digits(rt: HostRuntime) {
    let values = hours_values();
    assert!(rt; match_word(&values, HOURS, b"7.50"));
    assert!(rt; !match_word(&values, HOURS, b"7.5"));
    assert!(rt; !match_word(&values, HOURS, b"7,5"));
}
