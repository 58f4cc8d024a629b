// How the week is printed: elements by their names, calls by what they say.

use bakery::{CORRECTION, HOURS, LOCK, SHEET, SHIFT};
use bits::contains;
use sheet::{Answer, Call, Event, Expected, Granted};
use std::fmt;
use std::str::from_utf8;

// An element.
#[derive(Drop)]
struct Name(u8);

impl fmt::Display for Name {
    fn fmt<W: fmt::Write>(&self, f: &mut fmt::Formatter<W>) -> fmt::Result {
        f.write_str(match self.0 {
            SHEET => "sheet",
            SHIFT => "shift",
            CORRECTION => "correction",
            LOCK => "lock",
            HOURS => "hours",
            _ => "?",
        })
    }
}

// A call.
#[derive(Drop)]
pub struct Said<'a>(pub Call<'a>);

impl fmt::Display for Said<'_> {
    fn fmt<W: fmt::Write>(&self, f: &mut fmt::Formatter<W>) -> fmt::Result {
        match self.0 {
            Call::Begin(root) => write!(f, "begin {}", Name(root)),
            Call::Send(Event::Start(number)) => write!(f, "start {}", Name(number)),
            Call::Send(Event::Text(bytes)) => write!(f, "text {}", from_utf8(bytes).unwrap_or("?")),
            Call::Send(Event::End(number)) => write!(f, "end {}", Name(number)),
            Call::Finish => f.write_str("finish"),
        }
    }
}

// An answer.
#[derive(Drop)]
pub struct Told(pub Answer);

impl fmt::Display for Told {
    fn fmt<W: fmt::Write>(&self, f: &mut fmt::Formatter<W>) -> fmt::Result {
        match self.0 {
            Ok(Granted::Accepted) => f.write_str("accepted"),
            Ok(Granted::Passed { root, events }) => {
                write!(f, "pass for {}, {events} events", Name(root))
            }
            Err(refusal) => write!(f, "{refusal}"),
        }
    }
}

// What is expected next.
#[derive(Drop)]
pub struct Next(pub Expected);

impl fmt::Display for Next {
    fn fmt<W: fmt::Write>(&self, f: &mut fmt::Formatter<W>) -> fmt::Result {
        let Next(expected) = self;
        for number in (1..64).filter(|number| contains(expected.set, *number)) {
            write!(f, " {}", Name(number))?;
        }
        let count = expected.count();
        let end = expected.end;
        write!(f, " ({count} in all), end: {end}")
    }
}
