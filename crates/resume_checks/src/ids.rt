//! The ids of transactions that outputs and proposals name.
ghost use Rattle.std.specs.Prelude.{◌≡◌, true};
ghost use Rattle.std.specs.List.{list_all};
ghost use Rattle.checkpoint_model.specs.Resumable.{uses_ids};
ghost use Rattle.gov_ids.specs.Orders.{txid_cmp};
ghost use Rattle.ledger_model.specs.Ledger.{Ledger};
ghost use Rattle.maps.specs.Maps.{has_member};
ghost use Rattle.text_forms.specs.Ids.{is_rising};

use crate::order::has_member;
use book_records::Output;
use gov_actions::Proposal;
use gov_ids::{OutRef, TxId};

/// Whether the transaction of each output and of each proposal is a used one.
pub fn uses_ids(outputs: &[(OutRef, Output)], proposals: &[Proposal], used: &[TxId]) -> bool
    requires { is_rising txid_cmp used.now ≡ true }
    ensures { (l : Ledger) → result ≡ uses_ids (record l {
      outputs = outputs.now;
      proposals = proposals.now;
      used = used.now;
    }) }
{
    outputs_use(outputs, used) && proposals_use(proposals, used)
}

/// Whether the transaction of each output is one of these.
fn outputs_use(outputs: &[(OutRef, Output)], used: &[TxId]) -> bool
    requires { is_rising txid_cmp used.now ≡ true }
    ensures { result ≡ list_all (λ o. has_member txid_cmp used.now o.0.tx) outputs.now }
{
    for (at, _) in outputs {
        if !has_member(used, &at.tx) {
            return false;
        }
    }
    true
}

/// Whether the transaction of each proposal is one of these.
fn proposals_use(proposals: &[Proposal], used: &[TxId]) -> bool
    requires { is_rising txid_cmp used.now ≡ true }
    ensures { result ≡ list_all (λ p. has_member txid_cmp used.now p.id.tx) proposals.now }
{
    for proposal in proposals {
        if !has_member(used, &proposal.id.tx) {
            return false;
        }
    }
    true
}
