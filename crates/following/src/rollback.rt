ghost use Rattle.std.specs.Prelude.{◌≡◌};
ghost use Rattle.following.specs.Moves.{GoesBack, outcome_over};
ghost use Rattle.undo_log.specs.Back.{AllUndoable};

use crate::followed::Followed;
use follow_loop::{FollowAnswered, FollowOutcome};
use follow_view::of_ledger_state::LedgerState;
use std::alloc::Global;
use tx_records::Reply;

/// The state after a rollback to the block of a slot.
pub(crate) fn after_rollback(alloc: Global, state: Followed, slot: u64) -> FollowAnswered<Followed>
    requires { AllUndoable state.log.entries state.held.ledger }
    ensures { GoesBack state.held.ledger state.log slot result }
{
    let Followed { held, log } = state;
    let mut log = log;
    match log.back(held.ledger.into_value(), slot) {
        Ok((ledger, reply)) => {
            // (law: its marks are in order)
            log.is_in_order();
            let outcome = outcome_over(&ledger, reply);
            Ok((Followed::of_parts(alloc, ledger, log)?, outcome))
        }
        Err(error) => {
            drop(log);
            Err(error.into())
        }
    }
}

/// The outcome of a rollback with this reply, over the ledger that it left.
fn outcome_over(ledger: &LedgerState, reply: Reply) -> FollowOutcome
    ensures { result ≡ outcome_over ledger.now reply }
{
    match reply {
        Reply::Accepted | Reply::AcceptedFailedScripts => FollowOutcome::Rolled,
        Reply::Refused(_) => FollowOutcome::Unknown {
            last: ledger.slot(),
        },
    }
}
