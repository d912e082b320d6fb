//! The lines of the stream, one after another.
ghost use Rattle.std.specs.Prelude.{◌≡◌, ◌+◌, ◌*◌, ◌<◌, ◌≤◌, []};
ghost use Rattle.load_model.specs.Amounts.{registration_count, spent_before};
ghost use Rattle.gen_load.specs.Position.{Gives, IsLoad, IsSoundPosition, bytes_from};

use crate::accounts::spent_by;
use crate::epochs::{FUNDS, push_epoch_line};
use crate::genesis::push_genesis_line;
use crate::line::LineBuffer;
use crate::position::{EpochLine, Load, NextLine, Position, line_after, line_after_registration};
use crate::registrations::push_registration_line;

/// Writes the genesis.
fn push_first(line: &mut LineBuffer, load: Load) -> Position
    requires empty { line.old ≡ [] }
    requires load { IsLoad load }
    ensures sound { IsSoundPosition load result }
    ensures gives { Gives (bytes_from load NextLine.Genesis) line.new (bytes_from load result.next) }
{
    let _seed = load.seed;
    push_genesis_line(line);
    line.push(b"\n");
    Position {
        next: NextLine::Registration(0),
        spent: 0,
    }
}

/// What the registrations up to this one take, in lovelace; those before it took `spent`.
fn spent_with(load: Load, registration: u32, spent: u64) -> u64
    requires load { IsLoad load }
    requires registration { registration < registration_count load.accounts }
    requires spent { spent ≡ spent_before load.seed load.accounts registration }
    requires most { spent ≤ 1000501 * registration }
    ensures spent { result ≡ spent_before load.seed load.accounts (registration + 1) }
    ensures most { result ≤ 1000501 * (registration + 1) }
{
    spent + spent_by(load.seed, load.accounts, registration)
}

/// Writes a registration.
fn push_registration(line: &mut LineBuffer, load: Load, registration: u32, spent: u64) -> Position
    requires empty { line.old ≡ [] }
    requires load { IsLoad load }
    requires registration { registration < registration_count load.accounts }
    requires spent { spent ≡ spent_before load.seed load.accounts registration }
    requires most { spent ≤ 1000501 * registration }
    ensures sound { IsSoundPosition load result }
    ensures gives { Gives (bytes_from load (NextLine.Registration registration)) line.new (bytes_from load result.next) }
{
    let spent_now = spent_with(load, registration, spent);
    let left = FUNDS - spent_now;
    push_registration_line(line, load.seed, load.accounts, registration, left);
    line.push(b"\n");
    Position {
        next: line_after_registration(load.accounts, registration),
        spent: spent_now,
    }
}

/// Writes a line of an epoch, if there is one.
fn push_of_epoch(
    line: &mut LineBuffer,
    load: Load,
    epoch: u32,
    part: EpochLine,
    spent: u64,
) -> Position
    requires empty { line.old ≡ [] }
    requires load { IsLoad load }
    requires epoch { epoch ≤ load.epochs }
    requires spent { spent ≡ spent_before load.seed load.accounts (registration_count load.accounts) }
    requires most { spent ≤ 1000501 * registration_count load.accounts }
    ensures sound { IsSoundPosition load result }
    ensures gives { Gives (bytes_from load (NextLine.Epoch epoch part)) line.new (bytes_from load result.next) }
{
    if epoch == load.epochs {
        return Position {
            next: NextLine::Epoch(epoch, part),
            spent,
        };
    }
    push_epoch_line(line, load, epoch, part, spent);
    line.push(b"\n");
    Position {
        next: line_after(epoch, part),
        spent,
    }
}

/// Writes the next line, if there is one, and returns the position after it.
pub(crate) fn push_next_line(line: &mut LineBuffer, load: Load, position: Position) -> Position
    requires empty { line.old ≡ [] }
    requires sound { IsSoundPosition load position }
    ensures sound { IsSoundPosition load result }
    ensures gives { Gives (bytes_from load position.next) line.new (bytes_from load result.next) }
{
    let spent = position.spent;
    match position.next {
        NextLine::Genesis => push_first(line, load),
        NextLine::Registration(registration) => push_registration(line, load, registration, spent),
        NextLine::Epoch(epoch, part) => push_of_epoch(line, load, epoch, part, spent),
    }
}
