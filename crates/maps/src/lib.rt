// Maps from one kind to another that keep zero, one, plus and times.
#![tactic(auto)]

ghost use Rattle.std.specs.Prelude.{◌≡◌, ◌<◌, ◌≤◌, MatchOption, nat_le, nat_lt, refl};
ghost use Rattle.std.proofs.Common.{ap, sym};
ghost use Rattle.std.proofs.Math.Nat.{min-eq_left};
ghost use Rattle.kinds.specs.Clearances.{rank};
ghost use Rattle.truth_tables.specs.Tables.{assignment, function};
ghost use Rattle.kinds.specs.ClearanceLaws.{rank_le};
ghost use Rattle.maps.specs.Maps.{Mapping};
ghost use Rattle.maps.specs.MapLaws.{above_held, present_keeps, cleared_keeps, under_keeps, left_keeps, right_keeps, chain_maps};

use kinds::clearances::Clearance;
use kinds::codes::Coded;
use kinds::conditions::Condition;
use kinds::counts::Count;
use kinds::flags::Flag;
use kinds::pairs::Pair;
use kinds::semiring::Kind;
use std::marker::PhantomData;

/// A map from the kind K to the kind L.
pub trait Map<K: Kind, L: Kind> {
    // The image of a plain value.
    ghost image: { Self → K → L };

    fn map(&self, x: K) -> L
        ensures { result ≡ image self.now x };

    // What each implementation shows: every annotation has one image, and zero, one, plus and times are kept.
    ghost keeps: { (m : Self) → Mapping K.ring L.ring K.means L.means (image m) };
}

/// Every map gives each annotation one image, and keeps zero, one, plus and times.
pub fn homomorphism<K: Kind, L: Kind, M: Map<K, L>>(m: &M)
    ensures { Mapping K.ring L.ring K.means L.means (M.image m.now) }
{}

/// Whether a count is above 0.
#[derive(Clone, Copy, Debug)]
pub struct Present;

impl Map<Count, Flag> for Present {
    ghost image = { λ _ x. record { yes = nat_lt 0 x.times } };

    ghost keeps = { λ _. record { on = λ n. nat_lt 0 n.0; keeps = present_keeps; agrees = λ x. sym (above_held x.times) } };

    fn map(&self, x: Count) -> Flag {
        Flag { yes: 0 < x.times }
    }
}

/// Whether a clearance is at least `from`, which is not none.
#[derive(Clone, Copy, Debug)]
pub struct Cleared {
    from: Clearance,
    ghost ok: { 1 ≤ rank from },
}

impl Cleared {
    /// The map from this rank up, or none unless it is from 1 to 4.
    // A number, since a clearance here would ask more of callers.
    pub fn new(from: u8) -> Option<Cleared>
        ensures { MatchOption result ((1 ≤ from → from ≤ 4 → ⊥)) (λ m. rank m.from ≡ from) }
    {
        // A match, since in a closure of `map` nothing says that the clearance is not none.
        match Clearance::read(u64::from(from)) {
            None | Some(Clearance::None) => None,
            Some(from) => Some(Cleared { from }),
        }
    }
}

impl Map<Clearance, Flag> for Cleared {
    ghost image = { λ m x. record { yes = nat_le (rank m.from) (rank x) } };

    ghost keeps = { λ m. record { on = λ n. nat_le (rank m.from) n.0; keeps = cleared_keeps (rank m.from) m.ok (rank_le m.from); agrees = λ x. ap (nat_le (rank m.from)) (sym (min-eq_left (rank_le x))) } };

    fn map(&self, x: Clearance) -> Flag {
        Flag {
            yes: self.from <= x,
        }
    }
}

/// The value of a condition under assignment number `at`: variable xj is true where `at` has bit j.
#[derive(Clone, Copy, Debug)]
pub struct Under {
    at: u8,
    ghost ok: { at < 64 },
}

impl Under {
    /// The map under this assignment, or none where its number is above 63.
    pub fn new(at: u8) -> Option<Under>
        ensures { MatchOption result (64 ≤ at) (λ m. m.at ≡ at) }
    {
        // An `if`, since in a closure of `then` nothing says that the number is below 64.
        if at < 64 { Some(Under { at }) } else { None }
    }
}

impl Map<Condition, Flag> for Under {
    ghost image = { λ m x. record { yes = (function x.bits).0 (assignment 6 m.at) } };

    ghost keeps = { λ m. record { on = λ f. f.0 (assignment 6 m.at); keeps = under_keeps 6 (assignment 6 m.at); agrees = λ x. refl } };

    fn map(&self, x: Condition) -> Flag {
        Flag {
            yes: x.value_at(self.at),
        }
    }
}

/// The left half of a pair. `Left` and `Right` are two types, since they give values of two types, `K` and `L`.
#[derive(Clone, Copy, Debug)]
pub struct Left;

impl<K: Kind, L: Kind> Map<Pair<K, L>, K> for Left {
    ghost image = { λ _ x. x.left };

    ghost keeps = { λ _. record { on = λ a. a.0; keeps = left_keeps K.ring L.ring; agrees = λ x. refl } };

    fn map(&self, x: Pair<K, L>) -> K {
        x.left
    }
}

/// The right half of a pair.
#[derive(Clone, Copy, Debug)]
pub struct Right;

impl<K: Kind, L: Kind> Map<Pair<K, L>, L> for Right {
    ghost image = { λ _ x. x.right };

    ghost keeps = { λ _. record { on = λ a. a.1; keeps = right_keeps K.ring L.ring; agrees = λ x. refl } };

    fn map(&self, x: Pair<K, L>) -> L {
        x.right
    }
}

/// The first map, then the second; M is the kind between them.
#[derive(Clone, Copy, Debug)]
pub struct Chain<F, G, M> {
    pub first: F,
    pub second: G,
    pub between: PhantomData<M>,
}

impl<F, G, M> Chain<F, G, M> {
    pub fn new(first: F, second: G) -> Chain<F, G, M>
        ensures { (result.first ≡ first) × (result.second ≡ second) }
    {
        Chain {
            first,
            second,
            between: PhantomData,
        }
    }
}

impl<K: Kind, L: Kind, M: Kind, F: Map<K, M>, G: Map<M, L>> Map<K, L> for Chain<F, G, M> {
    ghost image = { λ c x. G.image c.second (F.image c.first x) };

    ghost keeps = { λ c. chain_maps (F.keeps c.first) (G.keeps c.second) };

    fn map(&self, x: K) -> L {
        self.second.map(self.first.map(x))
    }
}
