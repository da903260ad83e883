// Normal forests: no zero and no tree twice, at every level. Every operation gives one.
ghost use Rattle.std.specs.Prelude.{ℕ};
ghost use Rattle.formats.specs.Trees.{Forest};
ghost use Rattle.uxml.specs.Forests.{ForestOf, union, scale, sum_over, single, below_tree, only};
ghost use Rattle.uxml.specs.Normal.{Normal};
ghost use Rattle.uxml.specs.Images.{image};
ghost use Rattle.uxml.specs.Evaluation.{evaluate};
ghost use Rattle.uxml.specs.Laws.{ListsItsTrees, KeepsNormal, KeepsBothNormal, MakesNormal, SumsNormal, AnswersNormal, AddsImages};

use kinds::semiring::Kind;

/// A normal forest lists exactly the trees whose annotation is not zero, each at its annotation.
pub fn normal_forests_list_their_trees<K: Kind>()
    ensures { (f : ForestOf K.ring) → Normal K.ring f → ListsItsTrees K.ring f }
{}

/// Union, multiples, sums, single trees, all below a tree and the trees of one label are normal.
pub fn operations_give_normal_forests<K: Kind>()
    ensures unions { KeepsBothNormal K.ring (union K.ring) }
    ensures multiples { (c : K.ring.carrier) → KeepsNormal K.ring (scale K.ring c) }
    ensures sums { SumsNormal K.ring (sum_over K.ring) }
    ensures singles { MakesNormal K.ring (single K.ring) }
    ensures descendants { MakesNormal K.ring (below_tree K.ring) }
    ensures labelled { (l : ℕ) → KeepsNormal K.ring (only K.ring l) }
{}

/// In a normal scope a query gives a normal forest and builds normal trees.
pub fn queries_give_normal_forests<K: Kind>()
    ensures { AnswersNormal K.ring (evaluate K.ring) }
{}

/// The forest that item numbers and a list stand for is normal, and equal siblings are added.
pub fn loads_add_equal_siblings<K: Kind>()
    ensures { (h : ℕ → K.ring.carrier) (f : Forest ℕ) → AddsImages K.ring h f (image K.ring h f) }
{}

/// The image of a document of another kind is normal, and trees whose images are equal are added.
pub fn images_add_equal_siblings<J: Kind, K: Kind>()
    ensures { (h : J.ring.carrier → K.ring.carrier) (f : ForestOf J.ring) → AddsImages K.ring h f (image K.ring h f) }
{}
