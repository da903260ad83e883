// Annotations told in words, on the heap. What `Display` prints is one text or nothing that is known; `told` also says what is known of a
// pair one of whose halves does not say what it prints.
ghost use Rattle.std.specs.Prelude.{◌≡◌, ℕ, min, List, IfOk, string_bytes, decimal};
ghost use Rattle.truth_tables.specs.Tables.{code, function};
ghost use Rattle.truth_tables.specs.Words.{words as condition_words};
ghost use Rattle.kinds.specs.Wording.{flag_word, clearance_word, pair_words};

use crate::clearances::Clearance;
use crate::conditions::Condition;
use crate::counts::Count;
use crate::flags::Flag;
use crate::pairs::Pair;
use std::alloc::{AllocError, Global};

/// An annotation that can be told in words.
pub trait Worded: Copy {
    // Which bytes tell the annotation that the value stands for.
    ghost told: { Self → List ℕ → Type 0 };

    /// Its words.
    fn words(self, heap: Global) -> Result<String, AllocError>
        ensures { IfOk result (λ s. told self (string_bytes s)) };
}

impl Worded for Flag {
    ghost told = { λ x bs. bs ≡ flag_word x.yes };

    fn words(self, heap: Global) -> Result<String, AllocError> {
        self.to_string(heap)
    }
}

impl Worded for Count {
    ghost told = { λ x bs. bs ≡ decimal (min x.times 1000000) };

    fn words(self, heap: Global) -> Result<String, AllocError> {
        self.to_string(heap)
    }
}

impl Worded for Clearance {
    ghost told = { λ x bs. bs ≡ clearance_word x };

    fn words(self, heap: Global) -> Result<String, AllocError> {
        self.to_string(heap)
    }
}

impl Worded for Condition {
    ghost told = { λ x bs. bs ≡ condition_words (code (function x.bits)) };

    fn words(self, heap: Global) -> Result<String, AllocError> {
        self.to_string(heap)
    }
}

// A pair in brackets, as `(yes, 3)`.
impl<L: Worded, R: Worded> Worded for Pair<L, R> {
    ghost told = { λ p bs. (l : List ℕ) × (r : List ℕ) × L.told p.left l × R.told p.right r × (bs ≡ pair_words l r) };

    fn words(self, heap: Global) -> Result<String, AllocError> {
        let left = self.left.words(heap)?;
        let right = self.right.words(heap)?;
        format!(in heap; "({left}, {right})")
    }
}
