// Why a call is refused, and where.
ghost use Rattle.std.specs.Prelude.{◌≡◌};
ghost use Rattle.formats.specs.Refusals.{refusal_number};

/// The grounds of refusal, in the order of their numbers.
#[derive(Clone, Copy, Debug, PartialEq, Eq)]
pub enum Refusal {
    /// 1: the tables of a store concerned have lengths out of range.
    IllSized,
    /// 2: a slot above 15.
    NoSuchSlot,
    /// 3: working memory of under 33 annotations for each tree of the receiving table.
    WorkTooShort,
    /// 4: a document above 65,536 bytes, a query above 1,024.
    TooLong,
    /// 5: bytes that end too early.
    CutShort,
    /// 6: a byte that is unknown or out of place.
    OutOfPlace,
    /// 7: label 0.
    LabelZero,
    /// 8: an item that is not in the list.
    NoSuchItem,
    /// 9: a 33rd open tree, a command enclosed by 17, a ninth binder, a write of a tree of over 32 levels.
    TooDeep,
    /// 10: a variable that is not bound here, or is of the other sort.
    NotBound,
    /// 11: bytes after the end.
    BytesLeft,
    /// 12: the call would pass the budget, the tree limit or the entry limit.
    LimitPassed,
    /// 13: too few bytes or items for what is written.
    NoRoom,
    /// 14: what would be written is above 65,536 bytes.
    ResultTooLong,
}

/// A refusal with its place: the offset of the command concerned, or as the refusal's description says.
#[derive(Clone, Copy, Debug, PartialEq, Eq)]
pub struct Fault {
    pub refusal: Refusal,
    pub place: usize,
}

impl Refusal {
    /// The refusal's number, 1 to 14.
    pub fn number(self) -> u8
        ensures { result ≡ refusal_number self }
    {
        // an enum's number is had by `as` alone, and counts from 0
        self as u8 + 1
    }
}
