// Reads a paper, a statement to a line.
ghost use Rattle.std.specs.Prelude.{◌≡◌, List, ◌++◌, MatchResult};
ghost use Rattle.papers.specs.declared.statements.Failure.TheVariants.{Mistake as Fault, NoMemory};
ghost use Rattle.papers.specs.declared.statements.Paper.{Paper as ReadPaper};
ghost use Rattle.text.specs.declared.words.Word.{Word as OneWord};
ghost use Rattle.text.specs.Lines.{Point, point, WordNext, NoWord};
ghost use Rattle.grammar.specs.Keywords.{kind_bytes};
ghost use Rattle.papers.specs.Papers.{Told, Mistaken, Says, Begins, WithinNext, KindNext, SimpleFits, ThenFits, MapFits, KindLine, MapLineFits, WholeRow, AllItems, IsPaper};

use grammar::mistakes::{Expected, Found, Misfit, Mistake, Part};
use grammar::names::{KindName, MapName, MapWord, SimpleKind, SimpleMap, named};
use std::alloc::{AllocError, AllocFailed, Global};
use std::fmt;
use text::numbers::number;
use text::words::{Reader, Word};

/// A paper that was read: a kind, a map that starts at it, and the annotations.
#[derive(Drop)]
pub struct Paper<'a> {
    pub kind: KindName,
    pub map: MapName,
    pub items: Vec<Word<'a>>,
}

/// Why a paper was not read. It prints as a sentence.
#[derive(Drop)]
pub enum Failure<'a> {
    Mistake(Mistake<'a>),
    NoMemory,
}

impl<'a> From<Mistake<'a>> for Failure<'a> {
    ghost from_gives = { λ m r. r ≡ Fault m };

    fn from(mistake: Mistake<'a>) -> Failure<'a> {
        Failure::Mistake(mistake)
    }
}

// Twice, since `?` meets both of the library's errors of want of memory, and converts once.
impl<'a> From<AllocError> for Failure<'a> {
    ghost from_gives = { λ _ r. r ≡ NoMemory };

    fn from(_e: AllocError) -> Failure<'a> {
        Failure::NoMemory
    }
}

impl<'a, T: Drop> From<AllocFailed<T>> for Failure<'a> {
    ghost from_gives = { λ _ r. r ≡ NoMemory };

    fn from(_e: AllocFailed<T>) -> Failure<'a> {
        Failure::NoMemory
    }
}

impl fmt::Display for Failure<'_> {
    fn fmt<W: fmt::Write>(&self, f: &mut fmt::Formatter<W>) -> fmt::Result {
        match self {
            Failure::Mistake(mistake) => write!(f, "{mistake}"),
            Failure::NoMemory => f.write_str("memory is short"),
        }
    }
}

// The next word of the line. `reader` and `expected` go together in four functions: what a step reads from, and what a mistake says
// was expected. A struct of them would be made anew at each call.
fn next<'a>(reader: &mut Reader<'a>, expected: Expected) -> Result<Word<'a>, Mistake<'a>>
    ensures { Told result (point reader.new) (λ w q. WordNext (point reader.old) w q) }
{
    reader.word().ok_or(Mistake {
        place: reader.place(),
        found: Found::EndOfLine,
        expected,
    })
}

// The end of the line. A match, since the word that stands there is the error.
fn end<'a>(reader: &mut Reader<'a>) -> Result<(), Mistake<'a>>
    ensures { MatchResult result (λ _. NoWord (point reader.old) × (reader.new ≡ reader.old)) (λ _. NoWord (point reader.old) → ⊥) }
{
    match reader.word() {
        Some(word) => Err(Mistake::at(word, Expected::EndOfLine)),
        None => Ok(()),
    }
}

// The first word of the next line that has words, which has to be `keyword`.
fn begin<'a>(reader: &mut Reader<'a>, keyword: &[u8], expected: Expected) -> Result<(), Mistake<'a>>
    ensures { Told result (point reader.new) (λ _ q. Begins (point reader.old) keyword.now q) }
{
    let word = reader.first_word().ok_or(Mistake {
        place: reader.end(),
        found: Found::EndOfPaper,
        expected,
    })?;
    if word.text == keyword {
        Ok(())
    } else {
        Err(Mistake::at(word, expected))
    }
}

// A half of a pair.
fn half<'a>(reader: &mut Reader<'a>, expected: Expected) -> Result<SimpleKind, Mistake<'a>>
    ensures { Told result (point reader.new) (λ k q. Says (point reader.old) (kind_bytes k) q) }
{
    let word = next(reader, expected)?;
    named(word.text).ok_or(Mistake::at(word, expected))
}

// The words of a kind.
fn kind<'a>(reader: &mut Reader<'a>) -> Result<KindName, Mistake<'a>>
    ensures { Told result (point reader.new) (KindNext (point reader.old)) }
{
    let word = next(reader, Expected::Kind)?;
    if word.text == b"pair".as_slice() {
        let left = half(reader, Expected::LeftHalf)?;
        let right = half(reader, Expected::RightHalf)?;
        return Ok(KindName::Pair(left, right));
    }
    named(word.text)
        .map(KindName::Simple)
        .ok_or(Mistake::at(word, Expected::Kind))
}

// A number from `low` to `high`.
fn number_within<'a>(
    reader: &mut Reader<'a>,
    low: u8,
    high: u8,
    expected: Expected,
) -> Result<u8, Mistake<'a>>
    ensures { Told result (point reader.new) (WithinNext low high (point reader.old)) }
{
    let word = next(reader, expected)?;
    number(word.text)
        .and_then(|n| u8::try_from(n).ok())
        .filter(|n| (low..=high).contains(n))
        .ok_or(Mistake::at(word, expected))
}

// The map from a simple kind that begins with `word`, the last word read; it has to start at `kind`.
// Here, in `misfit` and in `then`, `part` goes with a kind, only for the mistake: a struct of both would be taken apart at each use.
fn simple_map<'a>(
    reader: &mut Reader<'a>,
    word: Word<'a>,
    part: Part,
    kind: SimpleKind,
) -> Result<SimpleMap, Mistake<'a>>
    ensures { Told result (point reader.new) (SimpleFits word.entry kind (point reader.old)) }
{
    match (named(word.text), kind) {
        (Some(MapWord::Present), SimpleKind::Count) => Ok(SimpleMap::Present),
        (Some(MapWord::Cleared), SimpleKind::Clearance) => {
            number_within(reader, 1, 4, Expected::Clearance).map(SimpleMap::Cleared)
        }
        (Some(MapWord::Under), SimpleKind::Condition) => {
            number_within(reader, 0, 63, Expected::Assignment).map(SimpleMap::Under)
        }
        (Some(other), _) => Err(misfit(word, other, part, KindName::Simple(kind))),
        (None, _) => Err(Mistake::at(word, map_of(part))),
    }
}

// The mistake that a map does not start where it stands.
fn misfit<'a>(word: Word<'a>, map: MapWord, part: Part, kind: KindName) -> Mistake<'a> {
    let misfit = Misfit {
        start: map.start(),
        part,
        kind,
    };
    Mistake::at(word, Expected::Fitting(misfit))
}

// The maps that may stand there.
fn map_of(part: Part) -> Expected {
    match part {
        Part::Whole => Expected::Map,
        Part::LeftHalf | Part::RightHalf => Expected::MapOfHalf,
    }
}

// `then` and a map that starts at the half, or the end of the line.
fn then<'a>(
    reader: &mut Reader<'a>,
    part: Part,
    half: SimpleKind,
) -> Result<Option<SimpleMap>, Mistake<'a>>
    ensures { Told result (point reader.new) (ThenFits half (point reader.old)) }
{
    let Some(then) = reader.word() else {
        return Ok(None);
    };
    if then.text == b"then".as_slice() {
        let word = next(reader, Expected::MapOfHalf)?;
        return simple_map(reader, word, part, half).map(Some);
    }
    Err(Mistake::at(then, Expected::Then))
}

// The words of a map that starts at the kind.
fn map<'a>(reader: &mut Reader<'a>, kind: KindName) -> Result<MapName, Mistake<'a>>
    ensures { Told result (point reader.new) (MapFits kind (point reader.old)) }
{
    let word = next(reader, Expected::Map)?;
    match (named(word.text), kind) {
        (_, KindName::Simple(simple)) => {
            simple_map(reader, word, Part::Whole, simple).map(MapName::Direct)
        }
        (Some(MapWord::Left), KindName::Pair(left, _)) => {
            then(reader, Part::LeftHalf, left).map(MapName::Left)
        }
        (Some(MapWord::Right), KindName::Pair(_, right)) => {
            then(reader, Part::RightHalf, right).map(MapName::Right)
        }
        (Some(other), _) => Err(misfit(word, other, Part::Whole, kind)),
        (None, _) => Err(Mistake::at(word, Expected::Map)),
    }
}

// A line with `kind` and a kind. It stands beside `map_line`: one function for both would take what reads
// the middle as a closure, and its contract, over that closure's calls, would be longer than these two.
fn kind_line<'a>(reader: &mut Reader<'a>) -> Result<KindName, Mistake<'a>>
    ensures { Told result (point reader.new) (KindLine (point reader.old)) }
{
    begin(reader, b"kind", Expected::KindLine)?;
    let kind = kind(reader)?;
    end(reader)?;
    Ok(kind)
}

// A line with `map` and a map that starts at the kind.
fn map_line<'a>(reader: &mut Reader<'a>, kind: KindName) -> Result<MapName, Mistake<'a>>
    ensures { Told result (point reader.new) (MapLineFits kind (point reader.old)) }
{
    begin(reader, b"map", Expected::MapLine)?;
    let map = map(reader, kind)?;
    end(reader)?;
    Ok(map)
}

// The words of a line of items, one or more, which go to the end of `items`.
fn annotations<'a>(reader: &mut Reader<'a>, items: &mut Vec<Word<'a>>) -> Result<(), Failure<'a>>
    ensures { MatchResult result (λ _. (ws : List OneWord) × (items.new.items ≡ items.old.items ++ ws) × WholeRow (point reader.old) ws (point reader.new)) (λ e. Mistaken e ((ws : List OneWord) (q : Point) → WholeRow (point reader.old) ws q → ⊥)) }
{
    let first = next(reader, Expected::Annotation)?;
    items.push(first)?;
    while let Some(word) = reader.word() {
        items.push(word)?;
    }
    Ok(())
}

// The annotations of all lines of items, one line or more, to the end of the paper.
fn all_items<'a>(heap: Global, reader: &mut Reader<'a>) -> Result<Vec<Word<'a>>, Failure<'a>>
    ensures { MatchResult result (λ v. AllItems (point reader.old) v.items (point reader.new)) (λ e. Mistaken e ((ws : List OneWord) (q : Point) → AllItems (point reader.old) ws q → ⊥)) }
{
    let mut items = Vec::new(heap);
    begin(reader, b"items", Expected::ItemsLine)?;
    annotations(reader, &mut items)?;
    while let Some(word) = reader.first_word() {
        if word.text != b"items".as_slice() {
            return Err(Mistake::at(word, Expected::MoreItems).into());
        }
        annotations(reader, &mut items)?;
    }
    Ok(items)
}

/// Reads a paper: a line with a kind, a line with a map that starts at it, and lines of items.
pub fn read_paper<'a>(heap: Global, text: &'a [u8]) -> Result<Paper<'a>, Failure<'a>>
    ensures { MatchResult result (IsPaper text.now) (λ e. Mistaken e ((p : ReadPaper) → IsPaper text.now p → ⊥)) }
{
    let mut reader = Reader::new(text);
    let kind = kind_line(&mut reader)?;
    let map = map_line(&mut reader, kind)?;
    let items = all_items(heap, &mut reader)?;
    Ok(Paper { kind, map, items })
}
