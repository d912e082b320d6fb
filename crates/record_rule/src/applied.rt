ghost use Rattle.std.specs.Prelude.{◌≡◌, None};

use epoch_rule::of_ledger_state::LedgerState;
use tx_records::{EpochReport, Reply};

/// A ledger after a record, and what the record was answered.
#[derive(Drop)]
pub struct Applied {
    /// The ledger after it; the one that was given if the record was refused or is a print.
    pub ledger: LedgerState,
    pub reply: Reply,
    /// The report of the boundary that a block of the next epoch crossed, if it broke no rule.
    pub report: Option<EpochReport>,
}

impl Applied {
    /// A record that crossed no boundary.
    pub(crate) fn within_epoch(ledger: LedgerState, reply: Reply) -> Applied
        ensures { result ≡ record { ledger = ledger; reply = reply; report = None } }
    {
        Applied {
            ledger,
            reply,
            report: None,
        }
    }
}
