// Plays a paper that was read: chooses the kinds and the map, coarsens the annotations, and tells what came out.
ghost use Rattle.std.specs.Prelude.{◌≡◌, length, IfOk, vec_len};

use crate::items::{Item, Simple};
use grammar::mistakes::{Expected, Found, Mistake};
use grammar::names::{KindName, MapName, SimpleKind, SimpleMap};
use kinds::clearances::Clearance;
use kinds::conditions::Condition;
use kinds::counts::Count;
use kinds::flags::Flag;
use kinds::pairs::Pair;
use kinds::semiring::Kind;
use maps::{Chain, Left, Map, Right};
use papers::statements::{Failure, Paper, read_paper};
use rows::coarsening::{BothWays, Coarsening, coarsen};
use std::alloc::{AllocError, Global};
use std::fmt::{Display, Write};
use text::words::{Place, Word};

// The annotations that the words write, in order. A loop, since a closure cannot name the lifetime of the mistake that it would give.
fn read_items<'a, K: Item>(heap: Global, words: &[Word<'a>]) -> Result<Vec<K>, Failure<'a>>
    ensures { IfOk result (λ v. vec_len v ≡ length words.now) }
{
    let mut items = Vec::new(heap);
    for word in words {
        items.push(K::read_item(*word)?)?;
    }
    Ok(items)
}

// Tells a join of a row, its image, and the join of the images.
fn tell_both_ways<K: Kind + Display, L: Kind + Display>(
    out: &mut String,
    what: &str,
    both: BothWays<K, L>,
) -> Result<(), AllocError> {
    let BothWays {
        join,
        mapped,
        of_images,
    } = both;
    writeln!(out, "{what}: {join} -> {mapped}")?;
    writeln!(out, "{what} of the images: {of_images}")
}

// Tells the items with their images, the joins, and whether mapping before and after agree.
fn tell<K: Kind + Display, L: Kind + Display>(
    out: &mut String,
    items: &[K],
    c: &Coarsening<K, L>,
) -> Result<(), AllocError> {
    for (i, (item, image)) in items.iter().zip(&c.images).enumerate() {
        writeln!(out, "item {i}: {item} -> {image}")?;
    }
    tell_both_ways(out, "sum", c.sum)?;
    tell_both_ways(out, "product", c.product)?;
    let verdict = if c.agree { "agree" } else { "DIFFER" };
    writeln!(out, "mapping before and mapping after {verdict}")
}

// A map that a paper cannot name at this kind: the reader of papers lets none through.
fn no_map<'a>() -> Mistake<'a> {
    Mistake {
        place: Place { line: 2, column: 1 },
        found: Found::EndOfLine,
        expected: Expected::Map,
    }
}

// A paper that is played, and the memory for what comes out.
#[derive(Drop)]
struct Player<'a> {
    heap: Global,
    paper: Paper<'a>,
}

impl<'a> Player<'a> {
    // Plays the paper under a map from K to L.
    fn under<K: Item + Display, L: Kind + Display, M: Map<K, L>>(
        &self,
        map: &M,
    ) -> Result<String, Failure<'a>> {
        let items: Vec<K> = read_items(self.heap, &self.paper.items)?;
        let c = coarsen(self.heap, map, &items)?;
        let mut out = format!(in self.heap;
            "kind: {}\nmap: {}\n",
            self.paper.kind, self.paper.map
        )?;
        tell(&mut out, &items, &c)?;
        Ok(out)
    }

    // Plays a paper of the simple kind K.
    fn simple<K: Simple>(&self) -> Result<String, Failure<'a>> {
        let MapName::Direct(map) = self.paper.map else {
            return Err(no_map().into());
        };
        let map = K::to_flag(map).ok_or(no_map())?;
        self.under::<K, Flag, _>(&map)
    }

    // Plays the paper under the map to a half of the kind H, and then H's own map to flags.
    fn chained<P: Item + Display, H: Simple, M: Map<P, H> + Drop>(
        &self,
        half: M,
        then: SimpleMap,
    ) -> Result<String, Failure<'a>> {
        let then = H::to_flag(then).ok_or(no_map())?;
        let map: Chain<M, H::ToFlag, H> = Chain::new(half, then);
        self.under::<P, Flag, _>(&map)
    }

    // Plays a paper of pairs of L and R. A match, since each arm is a map of another type.
    fn pair<L: Simple, R: Simple>(&self) -> Result<String, Failure<'a>> {
        match self.paper.map {
            MapName::Left(None) => self.under::<Pair<L, R>, L, _>(&Left),
            MapName::Right(None) => self.under::<Pair<L, R>, R, _>(&Right),
            MapName::Left(Some(then)) => self.chained::<Pair<L, R>, L, _>(Left, then),
            MapName::Right(Some(then)) => self.chained::<Pair<L, R>, R, _>(Right, then),
            MapName::Direct(_) => Err(no_map().into()),
        }
    }

    // Plays a paper of pairs whose left half is of the kind L. A kind's name becomes a type by a match alone, here and in `play`.
    fn left<L: Simple>(&self, right: SimpleKind) -> Result<String, Failure<'a>> {
        match right {
            SimpleKind::Flag => self.pair::<L, Flag>(),
            SimpleKind::Count => self.pair::<L, Count>(),
            SimpleKind::Clearance => self.pair::<L, Clearance>(),
            SimpleKind::Condition => self.pair::<L, Condition>(),
        }
    }
}

/// Reads a paper and plays it: what it did in words, or what is wrong with the paper.
pub fn play<'a>(heap: Global, text: &'a [u8]) -> Result<String, Failure<'a>> {
    let paper = read_paper(heap, text)?;
    let kind = paper.kind;
    let player = Player { heap, paper };
    match kind {
        KindName::Simple(SimpleKind::Flag) => player.simple::<Flag>(),
        KindName::Simple(SimpleKind::Count) => player.simple::<Count>(),
        KindName::Simple(SimpleKind::Clearance) => player.simple::<Clearance>(),
        KindName::Simple(SimpleKind::Condition) => player.simple::<Condition>(),
        KindName::Pair(SimpleKind::Flag, right) => player.left::<Flag>(right),
        KindName::Pair(SimpleKind::Count, right) => player.left::<Count>(right),
        KindName::Pair(SimpleKind::Clearance, right) => player.left::<Clearance>(right),
        KindName::Pair(SimpleKind::Condition, right) => player.left::<Condition>(right),
    }
}
