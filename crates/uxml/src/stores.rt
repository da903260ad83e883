// Stores and uses: the stock is a set, and every state of a use is normal, with labels in range.
ghost use Rattle.std.specs.Prelude.{List};
ghost use Rattle.uxml.specs.Forests.{TreeOf};
ghost use Rattle.uxml.specs.Stores.{meet};
ghost use Rattle.uxml.specs.Laws.{MeetsAsASet, NormalState, UsesLeave};
ghost use Rattle.uxml.specs.Labels.{CheckedCall, LabelledState, UsesLeaveWith};

use kinds::semiring::Kind;

/// A tree is in the stock after trees were met exactly when it was before or is among them, and no tree is there twice.
pub fn stocks_are_sets<K: Kind>()
    ensures { (ts s : List (TreeOf K.ring)) → MeetsAsASet K.ring (meet K.ring) ts s }
{}

/// After each call of a use: 16 normal documents, all in the stock, which has normal trees, none of them twice.
pub fn uses_leave_normal_states<K: Kind>()
    ensures { UsesLeave K.ring (NormalState K.ring) }
{}

/// Where bytes are bytes, queries were checked and carried documents have labels from 1 to 65,535, so has every tree of every state;
/// label 0 marks documents in the stock, and nothing else.
pub fn uses_keep_labels_in_range<K: Kind>()
    ensures { UsesLeaveWith K.ring CheckedCall LabelledState }
{}
