// Mixed models: text and the names that may stand in it.

ghost use Rattle.std.specs.Prelude.{◌≡◌, ℕ, ◌≤◌, ◌<◌, true, false, List, [], ◌∷◌, ◌++◌, length, drop};
ghost use Rattle.declarations.specs.Answers.{numbered_names};
ghost use Rattle.declarations.specs.Inner.{PartIs, ContentAt, SeenIs};
ghost use Rattle.declarations.specs.Models.{or_names};
ghost use Rattle.declarations.specs.Readers.{mixed_name, shut, starred as read_star};
ghost use Rattle.declarations.specs.Writers.{ModelWriter as OfModel};
ghost use Rattle.engine.specs.declared.alphabet.ContentAtom.TheVariants.{Text as OfText};
ghost use Rattle.models.specs.Expressions.{atom};
ghost use Rattle.scan.specs.Lists.{NumberIs, number_of, distinct as all_distinct, all_listed};
ghost use Rattle.scan.specs.Names.{Name};
ghost use Rattle.scan.specs.Readings.{got, run};

use super::model::{ModelWriter, put_name};
use super::source::{Source, numbered_at};
use bits::{contains, only};
use engine::ContentAtom;
use models::Node;
use scan::{Read, byte_is, skip_blanks};
use writing::{Joint, Mark};

// The numbers of the names so far, as a set, and whether each of them was new when it came.
#[derive(Clone, Copy)]
struct Seen {
    set: u64,
    distinct: bool,
}

impl Seen {
    // With one name more, by its number. One without a number counts as number 0, which no name has, so two of them do
    // not differ.
    fn with(self, number: Option<u8>) -> Seen
        ensures { (names : List Name) (its : List Name) (name : Name) → length names ≤ 63 → NumberIs (number_of names name) number → SeenIs names its self → SeenIs names (its ++ (name ∷ [])) result }
    {
        let number = number.unwrap_or(0);
        let came = contains(self.set, number);
        Seen {
            set: self.set | only(number),
            distinct: self.distinct && !came,
        }
    }
}

// The star behind the bracket, which only a model with no names may leave out; and whether the names differ.
fn starred(
    text: &[u8],
    at: usize,
    named: bool,
    distinct: bool,
    model: &mut ModelWriter<'_>,
) -> Option<Read<bool>>
    ensures same_table { model.new.nodes.ghost_name ≡ model.old.nodes.ghost_name }
    ensures read { (names : List Name) (start : ℕ) (its : List Name) (rest : List ℕ) (before : OfModel) (end : ℕ) → PartIs text.now names start (or_names names (atom OfText) its) its rest before end model.old → end < at → at ≤ length text.now → (named ≡ true → 0 < length its) → (named ≡ false → length its ≡ 0) → (all_listed names its ≡ true → distinct ≡ all_distinct its) → ContentAt text.now names start (read_star (got its (drop at text.now))) before result model.new }
{
    let end = if byte_is(text, at, b'*') {
        at + 1
    } else if named {
        return None;
    } else {
        at
    };
    model.put(Node::from(Mark::AnyNumber));
    Some(Read {
        value: distinct,
        end,
    })
}

// The place behind a mixed model, from behind its first word on, and whether its names differ.
pub fn mixed(source: Source<'_>, word: usize, model: &mut ModelWriter<'_>) -> Option<Read<bool>>
    ensures same_table { model.new.nodes.ghost_name ≡ model.old.nodes.ghost_name }
    ensures read { (start : ℕ) → start < word → word ≤ length source.entry.text.now → ContentAt source.entry.text.now (numbered_names source.entry.text.now source.entry.entries.now) start (read_star (shut (run mixed_name [] (drop word source.entry.text.now)))) model.old result model.new }
{
    let text = source.text;
    model.put(Node::Atom(ContentAtom::Text));
    let mut end = word;
    let mut named = false;
    let mut seen = Seen {
        set: 0,
        distinct: true,
    };
    // Kept: each member's place is known only when the one before was read, so there is no list to go over.
    loop {
        let here = skip_blanks(text, end);
        if byte_is(text, here, b')') {
            return starred(text, here + 1, named, seen.distinct, model);
        }
        if !byte_is(text, here, b'|') {
            return None;
        }
        let next = skip_blanks(text, here + 1);
        let name = numbered_at(source, next)?;
        put_name(model, name.value);
        model.put(Node::from(Joint::Alternatives));
        seen = seen.with(name.value);
        named = true;
        end = name.end;
    }
}
