// How often: 0 to 1,000,000, where a larger number is held at 1,000,000.
ghost use Rattle.std.specs.Prelude.{◌≡◌, min, Some, decimal};
ghost use Rattle.kinds.specs.Upto.{held, counts};
ghost use Rattle.std.proofs.Common.{lit≤};
ghost use Rattle.kinds.specs.NumberLaws.{counts_lawful, by_number};
ghost use Rattle.std.proofs.Math.Path.{fst_path};

use crate::codes::Coded;
use crate::semiring::Kind;
use std::fmt;

/// The largest count.
pub const MOST: u32 = 1_000_000;

/// A number above the largest count stands for the largest count, so counts are compared by `same`, and no comparison is derived.
#[derive(Clone, Copy, Debug)]
pub struct Count {
    pub times: u32,
}

impl Count {
    /// The number that it stands for.
    pub fn held(self) -> u32
        ensures { result ≡ min self.times 1000000 }
    {
        self.times.min(MOST)
    }
}

impl Kind for Count {
    ghost ring = { counts 1000000 };

    ghost means = { λ c. held 1000000 c.times };

    ghost lawful = { counts_lawful 1000000 (lit≤ tt) };

    fn zero() -> Count {
        Count { times: 0 }
    }

    fn one() -> Count {
        Count { times: 1 }
    }

    #[tactic(auto, using(crate::specs::NumberLaws::held_same))]
    fn plus(self, other: Count) -> Count {
        Count {
            times: (self.held() + other.held()).min(MOST),
        }
    }

    #[tactic(auto, using(crate::specs::NumberLaws::held_same))]
    fn times(self, other: Count) -> Count {
        // In 64 bits, where the product does not wrap: a product that stops at the top of 32 bits takes twice the time in a row.
        let product = u64::from(self.held()) * u64::from(other.held());
        Count {
            times: u32::try_from(product.min(u64::from(MOST))).unwrap_or(MOST),
        }
    }

    fn same(self, other: Count) -> bool {
        self.held() == other.held()
    }
}

impl Coded for Count {
    ghost number = { λ c. min c.times 1000000 };

    ghost one_code = { record { same_code = λ x y e. fst_path e; same_meaning = λ x y e. by_number e } };

    fn read(code: u64) -> Option<Count> {
        // The test comes first: after it the conversion costs nothing.
        Some(code)
            .filter(|code| *code <= u64::from(MOST))
            .and_then(|code| u32::try_from(code).ok())
            .map(|times| Count { times })
    }

    fn code(self) -> u64 {
        u64::from(self.held())
    }
}

impl fmt::Display for Count {
    ghost output = { λ c. Some (decimal (min c.times 1000000)) };

    fn fmt<W: fmt::Write>(&self, f: &mut fmt::Formatter<W>) -> fmt::Result {
        write!(f, "{}", self.held())
    }
}
