// What each command of a query gives, tree by tree: the annotation of every tree in the forest that it gives.
ghost use Rattle.formats.specs.Queries.{none, document, tree_of, held, both, scaled, make, named, child, below, only_of, for_each, let_be, if_name, if_alike};
ghost use Rattle.uxml.specs.Forests.{below_tree};
ghost use Rattle.uxml.specs.Laws.{GivesNothing, GivesADocument, GivesATree, GivesAForest, GivesTheSum, GivesTheMultiple, GivesANewTree, GivesANamedTree, GivesTheChildren, GivesAllBelow, GivesThoseLabelled, GivesForEach, GivesWithTheForest, GivesByLabel, GivesByTwoLabels, IsAllBelow};

use kinds::semiring::Kind;

/// NONE: the empty forest.
pub fn none_gives_nothing<K: Kind>()
    ensures { GivesNothing K.ring none }
{}

/// DOC: the document in a slot.
pub fn doc_gives_a_document<K: Kind>()
    ensures { GivesADocument K.ring document }
{}

/// TREE: a tree variable, at annotation one.
pub fn tree_gives_a_tree<K: Kind>()
    ensures { GivesATree K.ring tree_of }
{}

/// HELD: a forest variable.
pub fn held_gives_a_forest<K: Kind>()
    ensures { GivesAForest K.ring held }
{}

/// UNION: each tree has the plus of both.
pub fn union_gives_the_sum<K: Kind>()
    ensures { GivesTheSum K.ring both }
{}

/// SCALE: each annotation times an item.
pub fn scale_gives_the_multiple<K: Kind>()
    ensures { GivesTheMultiple K.ring scaled }
{}

/// MAKE: one tree with a label and the children given, at annotation one.
pub fn make_gives_a_new_tree<K: Kind>()
    ensures { GivesANewTree K.ring make }
{}

/// NAMED: the same with the label of a tree variable.
pub fn named_gives_a_named_tree<K: Kind>()
    ensures { GivesANamedTree K.ring named }
{}

/// CHILD: the sum, over the trees t, of t's annotation times t's child forest.
pub fn child_gives_the_children<K: Kind>()
    ensures { GivesTheChildren K.ring child }
{}

/// BELOW: the sum, over the trees t, of t's annotation times all that is below t.
pub fn below_gives_all_below<K: Kind>()
    ensures { GivesAllBelow K.ring below }
{}

/// ONLY: the trees with a label.
pub fn only_gives_those_labelled<K: Kind>()
    ensures { GivesThoseLabelled K.ring only_of }
{}

/// FOR: the sum, over the trees t, of t's annotation times the body with the new tree variable t.
pub fn for_gives_the_sum_over_trees<K: Kind>()
    ensures { GivesForEach K.ring for_each }
{}

/// LET: the body with the new forest variable.
pub fn let_gives_the_body<K: Kind>()
    ensures { GivesWithTheForest K.ring let_be }
{}

/// IFNAME: the first query if a variable has the label, else the second.
pub fn ifname_chooses_by_a_label<K: Kind>()
    ensures { GivesByLabel K.ring if_name }
{}

/// ALIKE: the first query if two variables have equal labels, else the second.
pub fn alike_chooses_by_two_labels<K: Kind>()
    ensures { GivesByTwoLabels K.ring if_alike }
{}

/// All that is below a tree: itself at one, plus the sum over its children c of c's annotation times all that is below c.
pub fn below_is_the_tree_and_all_below_its_children<K: Kind>()
    ensures { IsAllBelow K.ring (below_tree K.ring) }
{}
