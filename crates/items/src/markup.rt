// What begins with `<`: comments and tags.

ghost use Rattle.std.specs.Prelude.{◌≤◌, length, drop, codes};
ghost use Rattle.items.specs.Places.{ItemOf, said, spanned};
ghost use Rattle.items.specs.Readers.{read_markup, first_of, closed_with, start_named, start_opened, end_named, end_opened, commented};
ghost use Rattle.items.specs.Values.{start_tag, empty_tag};
ghost use Rattle.scan.specs.Comments.{read_comment};
ghost use Rattle.scan.specs.Names.{read_name};
ghost use Rattle.scan.specs.Readings.{word as read_word};

use super::item::{Item, Kind, closed_with};
use scan::{Read, Span, comment_end, name_end, skip_blanks, word_end};

// The comment or the tag at the place.
pub(crate) fn markup_at(text: &[u8], at: usize) -> Option<Item>
    ensures { ItemOf text.now at (read_markup (drop at text.now)) result }
{
    comment(text, at)
        .or_else(|| end_tag(text, at))
        .or_else(|| start_tag(text, at))
}

// The comment at the place.
fn comment(text: &[u8], at: usize) -> Option<Item>
    ensures { ItemOf text.now at (commented (read_comment (drop at text.now))) result }
{
    comment_end(text, at).map(|end| Read {
        value: Kind::Comment,
        end,
    })
}

// The end tag at the place.
fn end_tag(text: &[u8], at: usize) -> Option<Item>
    ensures { ItemOf text.now at (end_opened (read_word (codes "</") (drop at text.now))) result }
{
    let start = word_end(text, at, b"</")?;
    end_tag_named(text, start)
}

// The same from its name on.
fn end_tag_named(text: &[u8], start: usize) -> Option<Item>
    ensures { ItemOf text.now start (end_named (read_name (drop start text.now))) result }
{
    let end = name_end(text, start)?;
    closed_with(
        text,
        skip_blanks(text, end),
        b">",
        Kind::End(Span { start, end }),
    )
}

// The start tag, or the tag of an empty element, at the place.
fn start_tag(text: &[u8], at: usize) -> Option<Item>
    ensures { ItemOf text.now at (start_opened (read_word (codes "<") (drop at text.now))) result }
{
    let start = word_end(text, at, b"<")?;
    start_tag_named(text, start)
}

// The same from its name on.
fn start_tag_named(text: &[u8], start: usize) -> Option<Item>
    ensures { ItemOf text.now start (start_named (read_name (drop start text.now))) result }
{
    let end = name_end(text, start)?;
    start_tag_closed(text, skip_blanks(text, end), Span { start, end })
}

// The same from behind its name and the blanks on.
fn start_tag_closed(text: &[u8], at: usize, name: Span) -> Option<Item>
    ensures { ItemOf text.now at (first_of (closed_with (start_tag (spanned text.now name)) (read_word (codes ">") (drop at text.now))) (closed_with (empty_tag (spanned text.now name)) (read_word (codes "/>") (drop at text.now)))) result }
{
    let start = closed_with(text, at, b">", Kind::Start(name));
    start.or_else(|| closed_with(text, at, b"/>", Kind::Empty(name)))
}
