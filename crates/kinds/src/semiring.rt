// The interface of annotation kinds. Code that is generic over `Kind` is proved once, for every lawful kind.
ghost use Rattle.std.specs.Prelude.{◌≡◌};
ghost use Rattle.kinds.specs.Semiring.{Semiring, Lawful};

/// A plain value of the type has no invariant, and stands for one annotation; several may stand for one.
pub trait Kind: Copy {
    // The kind's annotations and their operations.
    ghost ring: { Semiring };

    // The annotation that a plain value stands for.
    ghost means: { Self → ring.carrier };

    fn zero() -> Self
        ensures { means result ≡ ring.zero };

    fn one() -> Self
        ensures { means result ≡ ring.one };

    fn plus(self, other: Self) -> Self
        ensures { means result ≡ ring.plus (means self) (means other) };

    fn times(self, other: Self) -> Self
        ensures { means result ≡ ring.times (means self) (means other) };

    /// Whether the two stand for one annotation. It is not `PartialEq`: as a bound that would ask more of each kind,
    /// and a further law would have to tie its `eq` to what values mean.
    fn same(self, other: Self) -> bool
        ensures { result ≡ ring.same (means self) (means other) };

    // What each implementation shows: the laws of a commutative semiring, and that sameness is equality.
    ghost lawful: { Lawful ring };
}

/// Every kind is lawful.
pub fn lawful<K: Kind>()
    ensures { Lawful K.ring }
{}
