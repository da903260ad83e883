// A row of annotations mapped to a coarser kind, with its sum and its product before the map and after it.
ghost use Rattle.std.specs.Prelude.{◌≡◌, true, map, IfOk};
ghost use Rattle.rows.specs.Rows.{total, product};
ghost use Rattle.rows.specs.Coarsenings.{JoinsBothWays};

use crate::totals::{multiply_row, sum_row};
use kinds::semiring::Kind;
use maps::Map;
use std::alloc::{AllocError, Global};

/// A row joined by one operation, before a map and after it.
#[derive(Clone, Copy, Debug)]
pub struct BothWays<K, L> {
    /// The join of the row.
    pub join: K,
    /// Its image: first joined, then mapped.
    pub mapped: L,
    /// The join of the images: first mapped, then joined.
    pub of_images: L,
}

impl<K: Kind, L: Kind> BothWays<K, L> {
    /// A join of a row and the join of its images, with the image of the first.
    pub fn new<M: Map<K, L>>(m: &M, join: K, of_images: L) -> BothWays<K, L>
        ensures { result ≡ record { join = join; mapped = M.image m.now join; of_images = of_images } }
    {
        BothWays {
            join,
            mapped: m.map(join),
            of_images,
        }
    }

    /// Whether mapping before and after gave the same.
    pub fn agree(self) -> bool
        ensures { result ≡ L.ring.same (L.means self.mapped) (L.means self.of_images) }
    {
        self.mapped.same(self.of_images)
    }
}

/// What `coarsen` found.
#[derive(Drop)]
pub struct Coarsening<K: Kind, L: Kind> {
    /// The image of each annotation, in order.
    pub images: Vec<L>,
    pub sum: BothWays<K, L>,
    pub product: BothWays<K, L>,
    /// Whether mapping before and after gave the same sum and the same product.
    pub agree: bool,
}

/// The images of a row under a map.
pub fn map_row<K: Kind, L: Kind, M: Map<K, L>>(
    heap: Global,
    m: &M,
    row: &[K],
) -> Result<Vec<L>, AllocError>
    ensures { IfOk result (λ v. v.items ≡ map (M.image m.now) row.now) }
{
    row.iter().map(|x| m.map(*x)).collect(heap)
}

/// Maps a row, adds it up and multiplies it, before the map and after it. Unless memory is short, both orders agree.
pub fn coarsen<K: Kind, L: Kind, M: Map<K, L>>(
    heap: Global,
    m: &M,
    row: &[K],
) -> Result<Coarsening<K, L>, AllocError>
    ensures images { IfOk result (λ c. c.images.items ≡ map (M.image m.now) row.now) }
    ensures sums { IfOk result (λ c. JoinsBothWays K.means L.means (M.image m.now) (total K.ring) (total L.ring) row.now c.sum) }
    ensures products { IfOk result (λ c. JoinsBothWays K.means L.means (M.image m.now) (product K.ring) (product L.ring) row.now c.product) }
    ensures agree { IfOk result (λ c. c.agree ≡ true) }
{
    let images = map_row(heap, m, row)?;
    let sum = BothWays::new(m, sum_row(row), sum_row(&images));
    let product = BothWays::new(m, multiply_row(row), multiply_row(&images));
    let agree = sum.agree() & product.agree();
    Ok(Coarsening {
        images,
        sum,
        product,
        agree,
    })
}
