//! The stakes of pools at the last three boundaries.
ghost use Rattle.std.specs.Prelude.{◌≡◌, map};
ghost use Rattle.book_kinds.specs.Outputs.{stake_in};

use gov_ids::{PoolId, read_pool};
use line_kinds::{LineKind, read_number, word};
use no_memory::NoMemory;
use state_lines::{SnapshotName, push_snapshot_line};

/// Reads the stake of a pool.
fn read_stake(texts: &[&str]) -> Option<(PoolId, u64)>
    ensures { result ≡ stake_in (map (λ w. w.now) texts.now) }
{
    let pool = read_pool(word(texts, 2))?;
    let stake = read_number(word(texts, 3))?;
    Some((pool, stake))
}

/// The lines of the stakes at the last boundary. (Own)
pub struct MarkLines;

impl LineKind for MarkLines {
    type Item = (PoolId, u64);

    ghost use Rattle.std.specs.Prelude.{codes};
    ghost use Rattle.text_forms.specs.Books.{is_stake};
    ghost use Rattle.text_model.specs.StateLines.{snapshot_words};
    ghost use Rattle.book_kinds.specs.Outputs.{stake_in};

    ghost words = { snapshot_words (codes "mark") };

    ghost form = { is_stake };

    ghost reading = { stake_in };

    fn laws() {}

    fn read(texts: &[&str]) -> Option<(PoolId, u64)> {
        read_stake(texts)
    }

    fn push(stake: &(PoolId, u64), out: &mut Vec<u8>) -> Result<(), NoMemory> {
        push_snapshot_line(out, 0, SnapshotName::Mark, stake)
    }
}

/// The lines of the stakes at the boundary before the last one. (Own)
pub struct SetLines;

impl LineKind for SetLines {
    type Item = (PoolId, u64);

    ghost use Rattle.std.specs.Prelude.{codes};
    ghost use Rattle.text_forms.specs.Books.{is_stake};
    ghost use Rattle.text_model.specs.StateLines.{snapshot_words};
    ghost use Rattle.book_kinds.specs.Outputs.{stake_in};

    ghost words = { snapshot_words (codes "set") };

    ghost form = { is_stake };

    ghost reading = { stake_in };

    fn laws() {}

    fn read(texts: &[&str]) -> Option<(PoolId, u64)> {
        read_stake(texts)
    }

    fn push(stake: &(PoolId, u64), out: &mut Vec<u8>) -> Result<(), NoMemory> {
        push_snapshot_line(out, 0, SnapshotName::Set, stake)
    }
}

/// The lines of the stakes two boundaries before the last one. (Own)
pub struct GoLines;

impl LineKind for GoLines {
    type Item = (PoolId, u64);

    ghost use Rattle.std.specs.Prelude.{codes};
    ghost use Rattle.text_forms.specs.Books.{is_stake};
    ghost use Rattle.text_model.specs.StateLines.{snapshot_words};
    ghost use Rattle.book_kinds.specs.Outputs.{stake_in};

    ghost words = { snapshot_words (codes "go") };

    ghost form = { is_stake };

    ghost reading = { stake_in };

    fn laws() {}

    fn read(texts: &[&str]) -> Option<(PoolId, u64)> {
        read_stake(texts)
    }

    fn push(stake: &(PoolId, u64), out: &mut Vec<u8>) -> Result<(), NoMemory> {
        push_snapshot_line(out, 0, SnapshotName::Go, stake)
    }
}
