ghost use Rattle.std.specs.Prelude.{◌≡◌, ◌+◌, ◌≤◌, ◌^◌, true, map, OnOk};
ghost use Rattle.cert_deleg.specs.of_live_ledger.Moved.{HasMoved};
ghost use Rattle.ledger_model.specs.CertRules.{cert_checks};
ghost use Rattle.ledger_model.specs.Changes.{changed_by};
ghost use Rattle.ledger_model.specs.Checks.{at_place, first_among, per_place};
ghost use Rattle.ledger_model.specs.Draft.{draft_after, last_draft};
ghost use Rattle.ledger_model.specs.Flows.{flows_of_cert, flows_of_certs};
ghost use Rattle.rule_checks.specs.Answered.{IsAnswered};
ghost use Rattle.tx_records.specs.TxLimits.{is_within_limits};

use crate::part::{CertPart, part_of};
use cert_deleg::of_live_ledger::Draft;
use cert_deleg::{account, pool};
use govcert::{cold_key, drep};
use tx_records::{Cert, Tx, TxFault};

/// Applies a transaction's certificates to the draft, in order, or refuses the first that breaks a
/// rule, with its index.
pub fn certify(draft: &mut Draft, tx: &Tx) -> Result<(), TxFault>
    requires within { is_within_limits tx.now ≡ true }
    requires begun { draft.old.ledger ≡ draft_after draft.old.start tx.now 0 }
    requires few { draft.old.changes ≤ 2 ^ 30 }
    ensures rule { IsAnswered (first_among (per_place
        (λ k c. cert_checks draft.old.start (draft_after draft.old.start tx.now k) c) tx.now.certs)) result }
    ensures ledger { OnOk result (draft.new.ledger ≡ last_draft draft.old.start tx.now) }
    ensures moved { OnOk result (HasMoved (flows_of_certs draft.old.start tx.now) draft.old draft.new) }
    ensures start { draft.new.start ≡ draft.old.start }
{
    let certs = tx.certs.as_slice();
    for (place, c) in certs.iter().enumerate() {
        act(draft, place as u32, c)?;
    }
    Ok(())
}

/// Applies a certificate to the draft, or refuses with the first rule it breaks, at this index.
fn act(draft: &mut Draft, place: u32, c: &Cert) -> Result<(), TxFault>
    requires few { draft.old.changes ≤ 2 ^ 31 }
    ensures rule { IsAnswered
        (first_among (map (at_place place) (cert_checks draft.old.start draft.old.ledger c.now))) result }
    ensures ledger { OnOk result (draft.new.ledger ≡ changed_by c.now draft.old.ledger) }
    ensures moved { OnOk result (HasMoved (flows_of_cert draft.old.ledger c.now) draft.old draft.new) }
    ensures start { draft.new.start ≡ draft.old.start }
    ensures few { draft.new.changes ≤ draft.old.changes + 1 }
{
    match part_of(c) {
        CertPart::Account(said) => account::cert(draft, place, &said),
        CertPart::Pool(said) => pool::cert(draft, place, &said),
        CertPart::Drep(said) => drep::cert(draft, place, &said),
        CertPart::ColdKey(said) => cold_key::cert(draft, place, &said),
    }
}
