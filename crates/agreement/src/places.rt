// Where the declaration with a number stands, and which refusal names it.

ghost use Rattle.std.specs.Prelude.{◌≡◌, ◌-◌};
ghost use Rattle.agreement.specs.Places.{place_at, refusal_of};

use drafts::{Question, Refusal};
use scan::Entry;
use sealed::Unsealed;

// The place of the declaration with a number; 0 where there is none.
fn place_of(entries: &[Entry], number: u8) -> usize
    ensures { result ≡ place_at entries.now number }
{
    let at = usize::from(number).saturating_sub(1);
    entries.get(at).map_or(0, |entry| entry.place)
}

// The refusal of a draft, for the first reason why its tables may not be sealed.
// Kept: no `From`, which has no place for the entries that a refusal needs beside the reason.
pub fn refuse(entries: &[Entry], why: Unsealed) -> Refusal
    ensures { result ≡ refusal_of entries.now why }
{
    match why {
        Unsealed::Ambiguous(number) => Refusal {
            question: Question::Unambiguous,
            place: place_of(entries, number),
        },
        Unsealed::NoTree(number) => Refusal {
            question: Question::Tree,
            place: place_of(entries, number),
        },
        Unsealed::NoModel(number) => Refusal {
            question: Question::Declared,
            place: place_of(entries, number),
        },
        Unsealed::TooMany => Refusal {
            question: Question::Record,
            place: place_of(entries, 1),
        },
    }
}
