//! All lines of what is frozen.
ghost use Rattle.std.specs.Prelude.{◌≡◌, ◌++◌, flat_map};
ghost use Rattle.certificate_model.specs.Certificate.{snapshot_lines, whole_proposal_lines};
ghost use Rattle.frozen_print.specs.Words.{frozen_lines, voter_lines};
ghost use Rattle.gov_ids.specs.Orders.{credential_cmp};
ghost use Rattle.gov_model.specs.Snapshot.{Snapshot};
ghost use Rattle.report.specs.Taking.{HasPut};
ghost use Rattle.snapshots.specs.Frozen.{frozen_copy_of};
ghost use Rattle.view_map.specs.View.{frozen_of};

use crate::governance::put_governance;
use crate::proposals::put_proposals;
use crate::voters::put_voters;
use accounts::AccountBook;
use byte_lines::SinkFault;
use gov_ids::PoolId;
use report::LineTaker;
use snapshots::Frozen;
use state_lines::put_params;

// Hands over the lines of the voters and of the proposals.
fn put_votings<T: LineTaker>(
    to: &mut T,
    text: &mut Vec<u8>,
    line: u64,
    f: &Frozen,
    mark: &[(PoolId, u64)],
    accounts: &AccountBook,
) -> Result<(), SinkFault>
    ensures { HasPut T.with_line T.IsPart line (T.taken to.old)
        (voter_lines f.now mark.now (frozen_of credential_cmp accounts.now) ++ flat_map whole_proposal_lines f.now.proposals)
        (T.taken to.new) (T.faults to.old) (T.faults to.new) result }
{
    put_voters(to, text, line, f, mark, accounts)?;
    put_proposals(to, text, line, f.proposals.as_slice())
}

// Hands over all lines, by the parts that are held.
fn put_parts<T: LineTaker>(
    to: &mut T,
    text: &mut Vec<u8>,
    line: u64,
    f: &Frozen,
    mark: &[(PoolId, u64)],
    accounts: &AccountBook,
) -> Result<(), SinkFault>
    ensures { HasPut T.with_line T.IsPart line (T.taken to.old)
        (frozen_lines f.now mark.now (frozen_of credential_cmp accounts.now))
        (T.taken to.new) (T.faults to.old) (T.faults to.new) result }
{
    put_governance(to, text, line, f)?;
    put_params(to, text, line, &f.start.params)?;
    put_votings(to, text, line, f, mark, accounts)
}

/// Hands over the lines of what is frozen of an epoch, in order: the certificate's first part.
/// It reads the frozen copy, the stakes of the pools of mark in lovelace, and the book with the
/// frozen entries. After an error a prefix of the lines was taken. (Own)
pub fn put_frozen<T: LineTaker>(
    to: &mut T,
    text: &mut Vec<u8>,
    line: u64,
    f: &Frozen,
    mark: &[(PoolId, u64)],
    accounts: &AccountBook,
) -> Result<(), SinkFault>
    ensures { (s : Snapshot) → f.now ≡ frozen_copy_of s → mark.now ≡ s.mark → frozen_of credential_cmp accounts.now ≡ s.entries →
        HasPut T.with_line T.IsPart line (T.taken to.old) (snapshot_lines s) (T.taken to.new)
        (T.faults to.old) (T.faults to.new) result }
{
    put_parts(to, text, line, f, mark, accounts)
}
