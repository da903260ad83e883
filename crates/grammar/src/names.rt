// The kinds and maps that a paper names, their words, and which map starts at which kind.
ghost use Rattle.std.specs.Prelude.{◌≡◌, ℕ, List, Some, Decides, MatchOption, ◌≢◌};
ghost use Rattle.std.specs.List.{Contains};
ghost use Rattle.grammar.specs.Keywords.{kind_bytes, kind_words, map_bytes};
ghost use Rattle.grammar.specs.Starts.{start_of, word_start, Starts};

use std::fmt;

/// A kind that has no halves.
#[derive(Clone, Copy, PartialEq, Eq)]
pub enum SimpleKind {
    Flag,
    Count,
    Clearance,
    Condition,
}

/// The kind of the annotations of a paper.
#[derive(Clone, Copy)]
pub enum KindName {
    Simple(SimpleKind),
    Pair(SimpleKind, SimpleKind),
}

/// A map from a simple kind: `cleared` with a clearance from 1 to 4, `under` with an assignment from 0 to 63.
// Numbers, since a type with these bounds would ask more of who makes a map.
#[derive(Clone, Copy)]
pub enum SimpleMap {
    Present,
    Cleared(u8),
    Under(u8),
}

/// A map, or the half that it takes of a pair and what it does then.
#[derive(Clone, Copy)]
pub enum MapName {
    Direct(SimpleMap),
    Left(Option<SimpleMap>),
    Right(Option<SimpleMap>),
}

/// The first word of a map.
#[derive(Clone, Copy)]
pub enum MapWord {
    Present,
    Cleared,
    Under,
    Left,
    Right,
}

/// What a paper names by a word.
pub trait Keyword: Copy + 'static {
    ghost bytes: { Self → List ℕ };

    /// All values.
    fn all() -> &'static [Self]
        ensures { (k : Self) → Contains result.now k };

    /// The word that names the value.
    fn word(self) -> &'static str
        ensures { result.now ≡ bytes self };
}

impl Keyword for SimpleKind {
    ghost bytes = { kind_bytes };

    fn all() -> &'static [SimpleKind] {
        &[
            SimpleKind::Flag,
            SimpleKind::Count,
            SimpleKind::Clearance,
            SimpleKind::Condition,
        ]
    }

    fn word(self) -> &'static str {
        match self {
            SimpleKind::Flag => "flag",
            SimpleKind::Count => "count",
            SimpleKind::Clearance => "clearance",
            SimpleKind::Condition => "condition",
        }
    }
}

impl Keyword for MapWord {
    ghost bytes = { map_bytes };

    fn all() -> &'static [MapWord] {
        &[
            MapWord::Present,
            MapWord::Cleared,
            MapWord::Under,
            MapWord::Left,
            MapWord::Right,
        ]
    }

    fn word(self) -> &'static str {
        match self {
            MapWord::Present => "present",
            MapWord::Cleared => "cleared",
            MapWord::Under => "under",
            MapWord::Left => "left",
            MapWord::Right => "right",
        }
    }
}

/// What a word names.
pub fn named<K: Keyword>(word: &[u8]) -> Option<K>
    ensures { MatchOption result ((k : K) → word.now ≢ K.bytes k) (λ k. word.now ≡ K.bytes k) }
{
    K::all()
        .iter()
        .copied()
        .find(|k| k.word().as_bytes() == word)
}

impl fmt::Display for SimpleKind {
    ghost output = { λ k. Some (kind_bytes k) };

    fn fmt<W: fmt::Write>(&self, f: &mut fmt::Formatter<W>) -> fmt::Result {
        f.write_str(self.word())
    }
}

impl fmt::Display for MapWord {
    ghost output = { λ m. Some (map_bytes m) };

    fn fmt<W: fmt::Write>(&self, f: &mut fmt::Formatter<W>) -> fmt::Result {
        f.write_str(self.word())
    }
}

impl fmt::Display for KindName {
    ghost output = { λ k. Some (kind_words k) };

    fn fmt<W: fmt::Write>(&self, f: &mut fmt::Formatter<W>) -> fmt::Result {
        match *self {
            KindName::Simple(kind) => write!(f, "{kind}"),
            KindName::Pair(left, right) => write!(f, "pair {left} {right}"),
        }
    }
}

impl MapWord {
    /// The simple kind that a map with this first word starts at; None where it starts at any pair.
    pub fn start(self) -> Option<SimpleKind>
        ensures { result ≡ word_start self }
    {
        match self {
            MapWord::Present => Some(SimpleKind::Count),
            MapWord::Cleared => Some(SimpleKind::Clearance),
            MapWord::Under => Some(SimpleKind::Condition),
            MapWord::Left => None,
            MapWord::Right => None,
        }
    }
}

// Written beside the start of a `MapWord`, since a map from a simple kind always has one, and no Option.
impl SimpleMap {
    /// The kind that the map starts at.
    pub fn start(self) -> SimpleKind
        ensures { result ≡ start_of self }
    {
        match self {
            SimpleMap::Present => SimpleKind::Count,
            SimpleMap::Cleared(_) => SimpleKind::Clearance,
            SimpleMap::Under(_) => SimpleKind::Condition,
        }
    }
}

impl MapName {
    /// Whether the map starts at the kind.
    pub fn starts_at(self, kind: KindName) -> bool
        ensures { Decides result (Starts self kind) }
    {
        match (self, kind) {
            (MapName::Direct(m), KindName::Simple(k)) => m.start() == k,
            (MapName::Left(then), KindName::Pair(half, _))
            | (MapName::Right(then), KindName::Pair(_, half)) => {
                then.is_none_or(|m| m.start() == half)
            }
            _ => false,
        }
    }
}

impl fmt::Display for SimpleMap {
    fn fmt<W: fmt::Write>(&self, f: &mut fmt::Formatter<W>) -> fmt::Result {
        match *self {
            SimpleMap::Present => write!(f, "{}", MapWord::Present),
            SimpleMap::Cleared(c) => write!(f, "{} {c}", MapWord::Cleared),
            SimpleMap::Under(b) => write!(f, "{} {b}", MapWord::Under),
        }
    }
}

impl fmt::Display for MapName {
    fn fmt<W: fmt::Write>(&self, f: &mut fmt::Formatter<W>) -> fmt::Result {
        match *self {
            MapName::Direct(m) => write!(f, "{m}"),
            MapName::Left(None) => write!(f, "{}", MapWord::Left),
            MapName::Right(None) => write!(f, "{}", MapWord::Right),
            MapName::Left(Some(m)) => write!(f, "{} then {m}", MapWord::Left),
            MapName::Right(Some(m)) => write!(f, "{} then {m}", MapWord::Right),
        }
    }
}
