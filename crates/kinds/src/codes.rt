// Codes: the numbers by which the annotations of a kind are written down.
ghost use Rattle.std.specs.Prelude.{◌≡◌, ℕ};
ghost use Rattle.kinds.specs.Codes.{spelled, Reads, OneCode};

use crate::semiring::Kind;

/// A kind whose annotations have codes. It stands in place of `TryFrom<u64>` and `Into<u64>`, which have no place for the law that
/// ties the two, `one_code`. An implementation's `read` is its table of codes, and an enum's number is had by `as` alone.
pub trait Coded: Kind {
    // The code of the annotation that a value stands for.
    ghost number: { Self → ℕ };

    /// The annotation with this code, or none where there is no such annotation.
    fn read(code: u64) -> Option<Self>
        ensures { Reads number code result };

    /// The code of the annotation that the value stands for.
    fn code(self) -> u64
        ensures { result ≡ number self };

    // Each annotation has one code, and no two have the same.
    ghost one_code: { OneCode number Self.means };
}

/// The annotation whose code these eight bytes spell, the most significant first, or none where there is no such annotation.
pub fn read_code<K: Coded>(bytes: [u8; 8]) -> Option<K>
    ensures { Reads K.number (spelled 8 bytes) result }
{
    K::read(u64::from_be_bytes(bytes))
}
