// When: a monotone Boolean function of six variables x0 to x5, held as its truth table. Bit i, counted from the lowest, is its
// value where variable xj has bit j of i.
ghost use Rattle.std.specs.Prelude.{◌≡◌, ◌≤◌, MatchOption};
ghost use Rattle.std.proofs.Common.{ap};
ghost use Rattle.truth_tables.specs.Tables.{code, function, Closed, Variable};
ghost use Rattle.kinds.specs.Codes.{Reads};
ghost use Rattle.kinds.specs.Conditions.{conditions};
ghost use Rattle.kinds.specs.ConditionLaws.{conditions_lawful};
ghost use Rattle.truth_tables.proofs.Closing.{same_function};

use crate::codes::Coded;
use crate::semiring::Kind;

/// Bits that are not closed upward stand for the condition with the fewest ones that has all of theirs.
pub use truth_tables::TruthTable as Condition;

impl Kind for Condition {
    ghost ring = { conditions 6 };

    ghost means = { λ c. function c.bits };

    ghost lawful = { conditions_lawful 6 };

    fn zero() -> Condition {
        Condition::constant(false)
    }

    fn one() -> Condition {
        Condition::constant(true)
    }

    fn plus(self, other: Condition) -> Condition {
        self.either(other)
    }

    fn times(self, other: Condition) -> Condition {
        self.both(other)
    }

    fn same(self, other: Condition) -> bool {
        self.alike(other)
    }
}

impl Coded for Condition {
    ghost number = { λ c. code (function c.bits) };

    ghost one_code = { record { same_code = λ x y e. ap code e; same_meaning = λ x y e. same_function (function x.bits) (function y.bits) e } };

    fn read(number: u64) -> Option<Condition>
        ensures reads { Reads (λ (c : Condition). code (function c.bits)) number result }
        ensures cases { MatchOption result (Closed number → ⊥) (λ v. Closed number × (v.bits ≡ number)) }
    {
        let table = Condition { bits: number };
        table.is_closed().then_some(table)
    }

    fn code(self) -> u64 {
        self.closed().bits
    }
}

/// The condition that variable j is true, for j from 0 to 5: `Condition::variable` under a name of this crate, for those who know kinds alone.
pub fn variable(j: usize) -> Option<Condition>
    ensures { MatchOption result (6 ≤ j) (λ c. Variable j c.bits) }
{
    Condition::variable(j)
}
