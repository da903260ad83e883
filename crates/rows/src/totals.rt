// A whole row of annotations joined or counted, proved once for every kind.
ghost use Rattle.std.specs.Prelude.{◌≡◌, map};
ghost use Rattle.rows.specs.Rows.{total, product, nonzero};

use kinds::semiring::Kind;

/// How many annotations of a row are not zero.
pub fn count_nonzero<K: Kind>(row: &[K]) -> usize
    ensures { result ≡ nonzero K.ring (map K.means row.now) }
{
    // A fold, since counting what `filter` lets through takes twice the time; no count passes the row's length, so none wraps.
    row.iter().fold(0, |count, x| {
        count.wrapping_add(usize::from(!x.same(K::zero())))
    })
}

/// The sum of a row.
pub fn sum_row<K: Kind>(row: &[K]) -> K
    ensures { K.means result ≡ total K.ring (map K.means row.now) }
{
    row.iter().fold(K::zero(), |sum, x| sum.plus(*x))
}

/// The product of a row.
pub fn multiply_row<K: Kind>(row: &[K]) -> K
    ensures { K.means result ≡ product K.ring (map K.means row.now) }
{
    row.iter().fold(K::one(), |product, x| product.times(*x))
}
