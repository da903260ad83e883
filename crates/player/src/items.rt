// Annotations as a paper writes them: a number, or two with a comma between them for a pair.
ghost use Rattle.std.specs.Prelude.{◌≡◌, ℕ, min, List, ◌∷◌, ◌++◌, IfOk, MatchOption, MatchResult, refl};
ghost use Rattle.grammar.specs.declared.names.SimpleMap.{SimpleMap as OneMap};
ghost use Rattle.grammar.specs.declared.names.SimpleMap.TheVariants.{Present as CalledPresent, Cleared as CalledCleared, Under as CalledUnder};
ghost use Rattle.truth_tables.specs.Tables.{code, function};
ghost use Rattle.kinds.specs.Flags.{flag_code};
ghost use Rattle.kinds.specs.Clearances.{rank};
ghost use Rattle.text.specs.Lines.{word_bytes};
ghost use Rattle.player.specs.Items.{Spells};

use grammar::mistakes::{Expected, Mistake};
use grammar::names::{SimpleKind, SimpleMap};
use kinds::clearances::Clearance;
use kinds::codes::Coded;
use kinds::conditions::Condition;
use kinds::counts::Count;
use kinds::flags::Flag;
use kinds::pairs::Pair;
use kinds::semiring::Kind;
use maps::{Cleared, Map, Present, Under};
use std::fmt::Display;
use text::numbers::number;
use text::split::at_comma;
use text::words::Word;

/// A kind whose annotations a paper can write.
pub trait Item: Kind {
    // Which bytes write the annotation that a value stands for.
    ghost written: { List ℕ → Self → Type 0 };

    /// The annotation that the word writes, or a mistake at the word or a part of it.
    fn read_item<'a>(word: Word<'a>) -> Result<Self, Mistake<'a>>
        ensures { IfOk result (written (word_bytes word.entry)) };
}

/// A kind without halves, its words, and its map to flags.
pub trait Simple: Item + Display {
    type ToFlag: Map<Self, Flag> + Drop;

    // What a paper calls a map, if it names it.
    ghost called: { Self.ToFlag → OneMap → Type 0 };

    /// The map that a paper calls so, where it starts at this kind and has its number within its bounds.
    fn to_flag(map: SimpleMap) -> Option<Self::ToFlag>
        ensures { MatchOption result ((m : Self.ToFlag) → called m map → ⊥) (λ m. called m map) };
}

/// The map from flags to flags that changes nothing. No paper names it: none of the maps that papers name starts at flags.
#[derive(Clone, Copy, Debug)]
pub struct Unchanged;

/// The annotation whose code the word writes; a mistake at the word where it writes none.
pub fn coded_item<'a, K: Coded>(word: Word<'a>, kind: SimpleKind) -> Result<K, Mistake<'a>>
    ensures { MatchResult result (λ v. Spells (K.number v) (word_bytes word.entry)) (λ e. (e.place ≡ word.entry.place) × ((v : K) → Spells (K.number v) (word_bytes word.entry) → ⊥)) }
{
    let mistake = Mistake::at(word, Expected::Item(kind));
    let code = number(word.text).ok_or(mistake)?;
    K::read(code).ok_or(mistake)
}

// Each simple kind has an implementation of its own: one for all kinds with codes would overlap with that of pairs.
impl Item for Flag {
    ghost written = { λ bs x. Spells (flag_code x.yes) bs };

    fn read_item<'a>(word: Word<'a>) -> Result<Flag, Mistake<'a>> {
        coded_item(word, SimpleKind::Flag)
    }
}

impl Map<Flag, Flag> for Unchanged {
    ghost image = { λ _ x. x };

    ghost keeps = { λ _. record { on = λ a. a; keeps = record { keeps_zero = refl; keeps_one = refl; keeps_plus = λ a b. refl; keeps_times = λ a b. refl }; agrees = λ x. refl } };

    fn map(&self, x: Flag) -> Flag {
        x
    }
}

impl Simple for Flag {
    type ToFlag = Unchanged;

    ghost called = { λ _ _. ⊥ };

    fn to_flag(_map: SimpleMap) -> Option<Unchanged> {
        None
    }
}

impl Item for Count {
    ghost written = { λ bs x. Spells (min x.times 1000000) bs };

    fn read_item<'a>(word: Word<'a>) -> Result<Count, Mistake<'a>> {
        coded_item(word, SimpleKind::Count)
    }
}

impl Simple for Count {
    type ToFlag = Present;

    ghost called = { λ _ n. n ≡ CalledPresent };

    fn to_flag(map: SimpleMap) -> Option<Present> {
        match map {
            SimpleMap::Present => Some(Present),
            _ => None,
        }
    }
}

impl Item for Clearance {
    ghost written = { λ bs x. Spells (rank x) bs };

    fn read_item<'a>(word: Word<'a>) -> Result<Clearance, Mistake<'a>> {
        coded_item(word, SimpleKind::Clearance)
    }
}

impl Simple for Clearance {
    type ToFlag = Cleared;

    ghost called = { λ m n. n ≡ CalledCleared (rank m.from) };

    fn to_flag(map: SimpleMap) -> Option<Cleared> {
        match map {
            SimpleMap::Cleared(from) => Cleared::new(from),
            _ => None,
        }
    }
}

impl Item for Condition {
    ghost written = { λ bs x. Spells (code (function x.bits)) bs };

    fn read_item<'a>(word: Word<'a>) -> Result<Condition, Mistake<'a>> {
        coded_item(word, SimpleKind::Condition)
    }
}

impl Simple for Condition {
    type ToFlag = Under;

    ghost called = { λ m n. n ≡ CalledUnder m.at };

    fn to_flag(map: SimpleMap) -> Option<Under> {
        match map {
            SimpleMap::Under(at) => Under::new(at),
            _ => None,
        }
    }
}

impl<L: Item, R: Item> Item for Pair<L, R> {
    ghost written = { λ bs p. (l : List ℕ) × (r : List ℕ) × (bs ≡ l ++ (44 ∷ r)) × L.written l p.left × R.written r p.right };

    fn read_item<'a>(word: Word<'a>) -> Result<Pair<L, R>, Mistake<'a>> {
        let (left, right) = at_comma(word).ok_or(Mistake::at(word, Expected::PairItem))?;
        let left = L::read_item(left)?;
        let right = R::read_item(right)?;
        Ok(Pair { left, right })
    }
}
