// The commands of a document, with their operands.

/// OPEN with its label and its item, CLOSE, or END.
#[derive(Clone, Copy, Debug, PartialEq, Eq)]
pub enum Event {
    Opens(u16, u16),
    Closes,
    Ends,
}
