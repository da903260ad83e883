// Worked examples, computed over the definitions.
#![tactic(auto)]

ghost use Rattle.std.specs.Prelude.{◌≡◌, true};
ghost use Rattle.worked_examples.specs.Showing.{all_hold};
ghost use Rattle.kinds.specs.Flags.{flags};
ghost use Rattle.kinds.specs.Upto.{ranks};
ghost use Rattle.maps.specs.Maps.{Homomorphism};
ghost use Rattle.worked_examples.specs.Examples.{examples, counting, pairing, public_only, right_half};
ghost use Rattle.worked_examples.specs.ZeroItem.{ZeroItemGivesNothing};

use kinds::semiring::Kind;

/// Every row of the table holds, and the two maps in it keep zero, one, plus and times.
pub fn examples_hold()
    ensures rows { all_hold examples ≡ true }
    ensures clearances { Homomorphism (ranks 4) flags public_only }
    ensures halves { Homomorphism pairing counting right_half }
{}

/// A new tree times the item zero is the empty forest, in three steps, in every lawful kind.
pub fn zero_item_gives_nothing<K: Kind>()
    ensures { ZeroItemGivesNothing K.ring 3 }
{}
