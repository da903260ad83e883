// Monotone Boolean functions of six variables x0 to x5, held as 64 bits. Bit i, counted from the lowest, is the value where
// variable xj has bit j of i. Bits that are not closed upward stand for the function with the fewest ones that has all of theirs.
#![tactic(auto)]

ghost use Rattle.std.specs.Prelude.{◌≡◌, ℕ, ◌-◌, ◌^◌, ◌<◌, ◌≤◌, true, false, ◌&&◌, if◌then◌else◌, Decides, MatchOption, Some, ◌≢◌, nat_lt};
ghost use Rattle.truth_tables.specs.Monotone.{agree, always, never, or_of, and_of};
ghost use Rattle.truth_tables.specs.Words.{together, words};
ghost use Rattle.truth_tables.specs.Tables.{assignment, bit, code, function, least_at, set_without, Closed, Closes, Variable};

use std::fmt;

/// The 64 values of a function, or bits that stand for one.
#[derive(Clone, Copy, Debug)]
pub struct TruthTable {
    pub bits: u64,
}

// The truth tables of the six variables.
const VARIABLES: [u64; 6] = [
    0xAAAA_AAAA_AAAA_AAAA,
    0xCCCC_CCCC_CCCC_CCCC,
    0xF0F0_F0F0_F0F0_F0F0,
    0xFF00_FF00_FF00_FF00,
    0xFFFF_0000_FFFF_0000,
    0xFFFF_FFFF_0000_0000,
];

impl TruthTable {
    /// The values of the function that the bits stand for: each step adds, for one variable, what holds without it.
    pub fn closed(self) -> TruthTable
        ensures code { result.bits ≡ code (function self.bits) }
        ensures closes { Closes self.bits result.bits }
    {
        let mut x = self.bits;
        for (j, variable) in VARIABLES.iter().enumerate() {
            let shift = 1usize << j;
            x |= (x << shift) & *variable;
        }
        TruthTable { bits: x }
    }

    /// Whether the bits are closed: then they are those of the function that they stand for, and otherwise of no function.
    pub fn is_closed(self) -> bool
        ensures closed { Decides result (Closed self.bits) }
        ensures code { Decides result (code (function self.bits) ≡ self.bits) }
        ensures other { result ≡ false → (y : ℕ) → code (function y) ≢ self.bits }
    {
        self.closed().bits == self.bits
    }

    /// Always true, or never.
    pub fn constant(value: bool) -> TruthTable
        ensures { function result.bits ≡ (if value then always 6 else never 6) }
    {
        TruthTable {
            bits: if value { u64::MAX } else { 0 },
        }
    }

    /// True where one of the two is.
    #[tactic(auto, using(crate::proofs::Closing::function_or))]
    pub fn either(self, other: TruthTable) -> TruthTable
        ensures { function result.bits ≡ or_of 6 (function self.bits) (function other.bits) }
    {
        TruthTable {
            bits: self.bits | other.bits,
        }
    }

    /// True where both are.
    pub fn both(self, other: TruthTable) -> TruthTable
        ensures { function result.bits ≡ and_of 6 (function self.bits) (function other.bits) }
    {
        TruthTable {
            bits: self.closed().bits & other.closed().bits,
        }
    }

    /// Whether the two stand for one function. It is not `PartialEq`, which would be written by hand too, and promise less than this clause.
    pub fn alike(self, other: TruthTable) -> bool
        ensures { result ≡ agree 6 (function self.bits).0 (function other.bits).0 }
    {
        self.closed().bits == other.closed().bits
    }

    /// The value at the assignment of i, whose lowest six bits are the variables.
    pub fn value_at(self, i: u8) -> bool
        ensures { result ≡ (function self.bits).0 (assignment 6 i) }
    {
        (self.closed().bits >> (i % 64)) % 2 == 1
    }

    /// The truth table of variable j, for j from 0 to 5.
    pub fn variable(j: usize) -> Option<TruthTable>
        ensures { MatchOption result (6 ≤ j) (λ t. Variable j t.bits) }
    {
        VARIABLES.get(j).map(|bits| TruthTable { bits: *bits })
    }

    // Whether variable j is true in the assignment of i, and bit i is set without it too.
    #[tactic(auto, unfolding(crate::specs::Tables::set_without))]
    fn holds_without(self, i: u8, j: u8) -> bool
        requires { (i < 64) × (j < 6) }
        ensures { result ≡ set_without self.bits i j }
    {
        (i >> j) % 2 == 1 && (self.bits >> (i - (1 << j))) % 2 == 1
    }

    /// Whether i is below 64, its bit is set, and none that has one variable less is.
    pub fn is_least(self, i: u8) -> bool
        ensures { result ≡ (nat_lt i 64 && least_at self.bits i) }
    {
        i < 64 && (self.bits >> i) % 2 == 1 && (0u8..6).all(|j| !self.holds_without(i, j))
    }
}

/// The function in words: `never`, `always`, or the least sets of variables that make it true, as `x0 and x1 or x2`.
impl fmt::Display for TruthTable {
    ghost output = { λ t. Some (words (code (function t.bits))) };

    fn fmt<W: fmt::Write>(&self, f: &mut fmt::Formatter<W>) -> fmt::Result {
        let table = self.closed();
        match table.bits {
            0 => write!(f, "never"),
            u64::MAX => write!(f, "always"),
            _ => {
                // A loop with an `if`: a chain with `filter` inside this generic function is not proved. No separator stands before the first.
                let mut or = "";
                for i in 0u8..64 {
                    if table.is_least(i) {
                        write!(f, "{or}{}", Together(i))?;
                        or = " or ";
                    }
                }
                Ok(())
            }
        }
    }
}

// The variables that are true in the assignment of a number, as `x0 and x2`.
#[derive(Clone, Copy, Debug)]
struct Together(u8);

impl fmt::Display for Together {
    ghost output = { λ t. Some (together t.0) };

    fn fmt<W: fmt::Write>(&self, f: &mut fmt::Formatter<W>) -> fmt::Result {
        // A loop with an `if`, as above; no separator stands before the first.
        let mut and = "";
        for j in 0u8..6 {
            if (self.0 >> j) % 2 == 1 {
                write!(f, "{and}x{j}")?;
                and = " and ";
            }
        }
        Ok(())
    }
}
