use no_memory::NoMemory;
use report::{Printed, Word, push_line};

/// The line of an accepted rollback, over the ledger after it. (Own)
#[derive(Clone, Copy)]
pub struct RolledLine {
    /// The slot of the block that is the last one again.
    pub slot: u64,
    /// The epoch of that slot.
    pub epoch: u64,
    /// How many frozen entries are counted. No rollback lowers it.
    pub counted: u64,
    /// How many frozen entries there are.
    pub entries: u64,
}

impl Printed for RolledLine {
    ghost use Rattle.follow_lines.specs.Words.{words_of_rolled};

    ghost words = { λ r. words_of_rolled r.slot r.epoch r.counted r.entries };

    fn push_line(&self, out: &mut Vec<u8>, line: u64) -> Result<(), NoMemory> {
        push_line(
            out,
            line,
            &[
                Word::Text("rolled"),
                Word::Text("slot"),
                Word::Number(self.slot),
                Word::Text("epoch"),
                Word::Number(self.epoch),
                Word::Text("counted"),
                Word::Number(self.counted),
                Word::Text("of"),
                Word::Number(self.entries),
            ],
        )
    }
}
