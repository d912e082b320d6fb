/// How a call over a ledger that a caller holds ended.
#[derive(Clone, Copy, Debug, PartialEq, Eq)]
pub enum Ending {
    /// It did what it is for.
    Done,
    /// The ledger is closed; nothing changed.
    Closed,
    /// No number is left for a further line; nothing changed.
    Full,
    /// Memory ran out.
    NoMemory,
}
