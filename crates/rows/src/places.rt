// Work on rows of annotations place by place, over lent slices, proved once for every kind. Two rows go by `enumerate` and `get`:
// of what is written through a `zip` over `iter_mut` a proof learns nothing. `add_row` and `add_scaled_row` are not one function over a
// closure, nor `scale_row` and `clear_row`: its contract would range over the operations that the closure may stand for, and is longer
// than the loops. `clear_row` is no `fill`, which asks that a clone cannot fail, as no kind says.
ghost use Rattle.std.specs.Prelude.{◌≡◌, min, length, slice_index_or};
ghost use Rattle.rows.specs.Rows.{Rewritten};

use kinds::semiring::Kind;

/// Adds each annotation of `source` to the one at its place in `target`, as far as the shorter row goes.
pub fn add_row<K: Kind>(target: &mut [K], source: &[K])
    ensures target { Rewritten K.means (min (length target.old) (length source.now)) (λ i d. K.ring.plus (K.means (slice_index_or target.old i d)) (K.means (slice_index_or source.now i d))) target.old target.new }
    ensures source { source.exit.now ≡ source.entry.now }
{
    for (i, x) in target.iter_mut().enumerate() {
        let Some(y) = source.get(i) else {
            break;
        };
        *x = x.plus(*y);
    }
}

/// Adds `by` times each annotation of `source` to the one at its place in `target`, as far as the shorter row goes.
pub fn add_scaled_row<K: Kind>(target: &mut [K], source: &[K], by: K)
    ensures target { Rewritten K.means (min (length target.old) (length source.now)) (λ i d. K.ring.plus (K.means (slice_index_or target.old i d)) (K.ring.times (K.means by) (K.means (slice_index_or source.now i d)))) target.old target.new }
    ensures source { source.exit.now ≡ source.entry.now }
{
    for (i, x) in target.iter_mut().enumerate() {
        let Some(y) = source.get(i) else {
            break;
        };
        *x = x.plus(by.times(*y));
    }
}

/// Multiplies each annotation of a row by `by`.
pub fn scale_row<K: Kind>(target: &mut [K], by: K)
    ensures { Rewritten K.means (length target.old) (λ i d. K.ring.times (K.means by) (K.means (slice_index_or target.old i d))) target.old target.new }
{
    for x in target.iter_mut() {
        *x = by.times(*x);
    }
}

/// Sets each annotation of a row to zero.
pub fn clear_row<K: Kind>(target: &mut [K])
    ensures { Rewritten K.means (length target.old) (λ _ _. K.ring.zero) target.old target.new }
{
    for x in target.iter_mut() {
        *x = K::zero();
    }
}
