// The mistakes of a paper: where, what stands there, and what was expected.
ghost use Rattle.std.specs.Prelude.{◌≡◌};
ghost use Rattle.grammar.specs.declared.mistakes.Found.TheVariants.{Word as FoundWord};

use crate::names::{KindName, SimpleKind};
use std::fmt;
use text::words::{Place, Word};

/// What stands at the place of a mistake.
#[derive(Clone, Copy)]
pub enum Found<'a> {
    Word(&'a [u8]),
    EndOfLine,
    EndOfPaper,
}

/// What a map is applied to.
#[derive(Clone, Copy)]
pub enum Part {
    Whole,
    LeftHalf,
    RightHalf,
}

/// A map at a kind where it does not start.
#[derive(Clone, Copy)]
pub struct Misfit {
    /// The kind that the map starts at; None is any pair.
    pub start: Option<SimpleKind>,
    pub part: Part,
    pub kind: KindName,
}

/// What was expected at the place of a mistake.
#[derive(Clone, Copy)]
pub enum Expected {
    KindLine,
    Kind,
    LeftHalf,
    RightHalf,
    MapLine,
    Map,
    Clearance,
    Assignment,
    Then,
    MapOfHalf,
    ItemsLine,
    MoreItems,
    Annotation,
    Item(SimpleKind),
    PairItem,
    EndOfLine,
    Fitting(Misfit),
}

/// A mistake of a paper. It prints as a sentence.
#[derive(Clone, Copy)]
pub struct Mistake<'a> {
    pub place: Place,
    pub found: Found<'a>,
    pub expected: Expected,
}

// So many bytes of a word are shown.
const SHOWN: usize = 40;

impl<'a> Mistake<'a> {
    /// The mistake that the word is.
    pub fn at(word: Word<'a>, expected: Expected) -> Mistake<'a>
        ensures place { result.place ≡ word.entry.place }
        ensures found { result.found ≡ FoundWord word.entry.text }
        ensures expected { result.expected ≡ expected }
    {
        Mistake {
            place: word.place,
            found: Found::Word(word.text),
            expected,
        }
    }
}

impl Expected {
    // The expectation in words, but that of a map that fits.
    fn words(self) -> &'static str {
        match self {
            Expected::KindLine => "a line with `kind` and a kind",
            Expected::Kind => "a kind: flag, count, clearance, condition or pair",
            Expected::LeftHalf => "the left half of the pair: flag, count, clearance or condition",
            Expected::RightHalf =>
                "the right half of the pair: flag, count, clearance or condition",
            Expected::MapLine => "a line with `map` and a map",
            Expected::Map => "a map: present, cleared, under, left or right",
            Expected::Clearance => "a clearance from 1 (top) to 4 (public)",
            Expected::Assignment => "an assignment from 0 to 63",
            Expected::Then => "`then` and a map, or the end of the line",
            Expected::MapOfHalf => "a map of the half: present, cleared or under",
            Expected::ItemsLine => "a line with `items` and annotations",
            Expected::MoreItems => "another line with `items`, or the end of the paper",
            Expected::Annotation => "an annotation",
            Expected::Item(SimpleKind::Flag) => "a flag: 0 (no) or 1 (yes)",
            Expected::Item(SimpleKind::Count) => "a count from 0 to 1000000",
            Expected::Item(SimpleKind::Clearance) => "a clearance from 0 (none) to 4 (public)",
            Expected::Item(SimpleKind::Condition) => "the 64 bits of a monotone condition",
            Expected::PairItem => "two annotations with a comma between them",
            Expected::EndOfLine => "the end of the line",
            Expected::Fitting(_) => "a map that starts at the kind",
        }
    }
}

impl Misfit {
    // What would fit.
    fn remedy(self) -> &'static str {
        match self.kind {
            KindName::Simple(SimpleKind::Flag) => "no map starts at flag",
            KindName::Simple(SimpleKind::Count) => "expected present",
            KindName::Simple(SimpleKind::Clearance) => "expected cleared",
            KindName::Simple(SimpleKind::Condition) => "expected under",
            KindName::Pair(_, _) => "expected left or right",
        }
    }
}

// Writes the first bytes of a word, those that are no printable ASCII as \xNN.
fn show<W: fmt::Write>(text: &[u8], f: &mut fmt::Formatter<W>) -> fmt::Result {
    for &b in text.iter().take(SHOWN) {
        if (b' '..=b'~').contains(&b) {
            f.write_char(char::from(b))?;
        } else {
            write!(f, "\\x{b:02X}")?;
        }
    }
    if text.len() > SHOWN {
        f.write_str("...")
    } else {
        Ok(())
    }
}

impl fmt::Display for Found<'_> {
    fn fmt<W: fmt::Write>(&self, f: &mut fmt::Formatter<W>) -> fmt::Result {
        match *self {
            Found::Word(text) => {
                f.write_char('`')?;
                show(text, f)?;
                f.write_char('`')
            }
            Found::EndOfLine => f.write_str("the end of the line"),
            Found::EndOfPaper => f.write_str("the end of the paper"),
        }
    }
}

impl fmt::Display for Part {
    fn fmt<W: fmt::Write>(&self, f: &mut fmt::Formatter<W>) -> fmt::Result {
        match self {
            Part::Whole => f.write_str("the kind"),
            Part::LeftHalf => f.write_str("the left half"),
            Part::RightHalf => f.write_str("the right half"),
        }
    }
}

impl fmt::Display for Misfit {
    fn fmt<W: fmt::Write>(&self, f: &mut fmt::Formatter<W>) -> fmt::Result {
        match self.start {
            Some(start) => write!(f, "which starts at {start}")?,
            None => f.write_str("which starts at a pair")?,
        }
        write!(f, ", but {} is {}; {}", self.part, self.kind, self.remedy())
    }
}

impl fmt::Display for Expected {
    fn fmt<W: fmt::Write>(&self, f: &mut fmt::Formatter<W>) -> fmt::Result {
        if let Expected::Fitting(misfit) = *self {
            return write!(f, "{misfit}");
        }
        write!(f, "expected {}", self.words())
    }
}

impl fmt::Display for Mistake<'_> {
    fn fmt<W: fmt::Write>(&self, f: &mut fmt::Formatter<W>) -> fmt::Result {
        write!(
            f,
            "line {}, column {}: found {}, {}",
            self.place.line, self.place.column, self.found, self.expected
        )
    }
}
