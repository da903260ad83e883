// Equality of trees and forests, and that nothing depends on the order in which a forest is listed.
ghost use Rattle.std.specs.Prelude.{◌≡◌, ℕ, Decides};
ghost use Rattle.formats.specs.Trees.{tree};
ghost use Rattle.uxml.specs.Forests.{ForestOf, same_tree, Equal};
ghost use Rattle.uxml.specs.Normal.{Normal};
ghost use Rattle.uxml.specs.Equality.{Same, EqualAnswers};
ghost use Rattle.uxml.specs.Laws.{Equivalence, RelatesEqualScopes};

use kinds::semiring::Kind;

/// Equality of trees is an equivalence.
pub fn equality_of_trees<K: Kind>()
    ensures { Equivalence (Same K.ring) }
{}

/// Two normal trees are the same exactly when they have equal labels and equal child forests.
pub fn same_trees_are_equal<K: Kind>()
    ensures { (l m : ℕ) (f g : ForestOf K.ring) → Normal K.ring f → Normal K.ring g → Decides (same_tree K.ring (tree l f) (tree m g)) ((l ≡ m) × Equal K.ring f g) }
{}

/// In equal scopes a query has equal answers: equal forests, the same steps, the same set of trees built.
pub fn equal_scopes_have_equal_answers<K: Kind>()
    ensures { RelatesEqualScopes K.ring (EqualAnswers K.ring) }
{}
