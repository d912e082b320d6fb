use follow_records::rules::ROLLBACK_UNKNOWN;
use no_memory::NoMemory;
use report::{Printed, Word, push_line};

/// The line of a rollback to a slot that no block of this epoch on the chain has. (Own)
#[derive(Clone, Copy)]
pub struct UnknownLine {
    /// The slot of the ledger.
    pub last: u64,
}

impl Printed for UnknownLine {
    ghost use Rattle.follow_lines.specs.Words.{words_of_unknown};

    ghost words = { λ u. words_of_unknown u.last };

    fn push_line(&self, out: &mut Vec<u8>, line: u64) -> Result<(), NoMemory> {
        push_line(
            out,
            line,
            &[
                Word::Text("refused"),
                Word::Number(u64::from(ROLLBACK_UNKNOWN)),
                Word::Text("RollbackUnknown"),
                Word::Text("last"),
                Word::Number(self.last),
            ],
        )
    }
}
