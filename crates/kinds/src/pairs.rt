// Two kinds side by side, half by half. The halves may be pairs themselves.
ghost use Rattle.kinds.specs.Pairs.{pairs};
ghost use Rattle.kinds.specs.PairLaws.{pairs_lawful};
ghost use Rattle.kinds.specs.Wording.{pair_output};

use crate::semiring::Kind;
use std::fmt;

#[derive(Clone, Copy, Debug)]
pub struct Pair<L, R> {
    pub left: L,
    pub right: R,
}

impl<L: Kind, R: Kind> Kind for Pair<L, R> {
    ghost ring = { pairs L.ring R.ring };

    ghost means = { λ p. (L.means p.left, R.means p.right) };

    ghost lawful = { pairs_lawful L.lawful R.lawful };

    fn zero() -> Pair<L, R> {
        Pair {
            left: L::zero(),
            right: R::zero(),
        }
    }

    fn one() -> Pair<L, R> {
        Pair {
            left: L::one(),
            right: R::one(),
        }
    }

    fn plus(self, other: Pair<L, R>) -> Pair<L, R> {
        Pair {
            left: self.left.plus(other.left),
            right: self.right.plus(other.right),
        }
    }

    fn times(self, other: Pair<L, R>) -> Pair<L, R> {
        Pair {
            left: self.left.times(other.left),
            right: self.right.times(other.right),
        }
    }

    fn same(self, other: Pair<L, R>) -> bool {
        self.left.same(other.left) & self.right.same(other.right)
    }
}

/// In brackets, as `(yes, 3)`.
impl<L: fmt::Display, R: fmt::Display> fmt::Display for Pair<L, R> {
    ghost output = { λ p. pair_output (L.output p.left) (R.output p.right) };

    fn fmt<W: fmt::Write>(&self, f: &mut fmt::Formatter<W>) -> fmt::Result {
        write!(f, "({}, {})", self.left, self.right)
    }
}
