//! The account entries.
ghost use Rattle.std.specs.Prelude.{[], ◌∷◌, map};
ghost use Rattle.gov_ids.specs.Orders.{credential_cmp};
ghost use Rattle.report.specs.Taking.{HasPut};
ghost use Rattle.text_model.specs.StateLines.{account_words};
ghost use Rattle.view_map.specs.View.{frozen_of};

use accounts::{AccountBook, Entry};
use byte_lines::SinkFault;
use gov_ids::Credential;
use report::{LineTaker, put_one};
use state_lines::StateLine;

// Hands over the line of an entry.
fn put_entry<T: LineTaker>(
    to: &mut T,
    text: &mut Vec<u8>,
    line: u64,
    credential: &Credential,
    entry: &Entry,
) -> Result<(), SinkFault>
    ensures { HasPut T.with_line T.IsPart line (T.taken to.old) (account_words (credential.now, entry.now) ∷ [])
        (T.taken to.new) (T.faults to.old) (T.faults to.new) result }
{
    put_one(to, text, line, &StateLine::Account(credential, entry))
}

// Hands over the lines of the entries of the last freeze, in order.
pub(crate) fn put_entries<T: LineTaker>(
    to: &mut T,
    text: &mut Vec<u8>,
    line: u64,
    accounts: &AccountBook,
) -> Result<(), SinkFault>
    ensures { HasPut T.with_line T.IsPart line (T.taken to.old) (map account_words (frozen_of credential_cmp accounts.now))
        (T.taken to.new) (T.faults to.old) (T.faults to.new) result }
{
    for (credential, entry) in accounts.frozen_past(None) {
        put_entry(to, text, line, &credential, &entry)?;
    }
    Ok(())
}
