//! With what each line of a snapshot begins, where no other crate says so.

use crate::heads::CertificateLines;
use crate::stakes::PoolStakeLines;
use book_kinds::{ExpiryLines, PoolAccountLines};
use checkpoint_lists::of_named_kinds::NamedLines;
use gov_ids::{Account, Credential, PoolId};
use line_kinds::LineReader;
use no_memory::NoMemory;

impl NamedLines for CertificateLines {
    ghost use Rattle.std.specs.Prelude.{codes};

    ghost name = { codes "certificate " };

    fn named() {}
}

impl NamedLines for PoolStakeLines {
    ghost use Rattle.std.specs.Prelude.{codes};

    ghost name = { codes "mark " };

    fn named() {}
}

/// The lines of DReps with their expiries.
pub(crate) struct FrozenDreps;

impl LineReader for FrozenDreps {
    type Item = (Credential, u64);

    ghost use Rattle.text_forms.specs.Books.{is_frozen_drep};
    ghost use Rattle.text_forms.specs.Snapshots.{expiry_words};

    ghost words = { expiry_words };

    ghost form = { is_frozen_drep };

    fn read_line(text: &mut Vec<u8>, line: &[u8]) -> Result<Option<(Credential, u64)>, NoMemory> {
        <ExpiryLines as LineReader>::read_line(text, line)
    }
}

impl NamedLines for FrozenDreps {
    ghost use Rattle.std.specs.Prelude.{codes};

    ghost name = { codes "drep " };

    fn named() {}
}

/// The lines of pools of mark with their reward accounts.
pub(crate) struct PoolsOfMark;

impl LineReader for PoolsOfMark {
    type Item = (PoolId, Option<Account>);

    ghost use Rattle.book_kinds.specs.Frozen.{is_pool_account_line, pool_account_line};

    ghost words = { pool_account_line };

    ghost form = { is_pool_account_line };

    fn read_line(
        text: &mut Vec<u8>,
        line: &[u8],
    ) -> Result<Option<(PoolId, Option<Account>)>, NoMemory> {
        <PoolAccountLines as LineReader>::read_line(text, line)
    }
}

impl NamedLines for PoolsOfMark {
    ghost use Rattle.std.specs.Prelude.{codes};

    ghost name = { codes "pool " };

    fn named() {}
}
