//! The position of the source in its stream.
ghost use Rattle.std.specs.Prelude.{◌≡◌, ◌<◌, ◌≤◌};
ghost use Rattle.load_model.specs.Amounts.{registration_count};
ghost use Rattle.gen_load.specs.Position.{after_epoch_line, after_registration};

use crate::accounts::registrations_of;

/// The parameters of the stream.
#[derive(Clone, Copy)]
pub(crate) struct Load {
    pub(crate) seed: u64,
    pub(crate) accounts: u32,
    pub(crate) epochs: u32,
}

/// A line of an epoch.
#[derive(Clone, Copy)]
pub(crate) enum EpochLine {
    FirstBlock,
    Proposal,
    Votes,
    VotesAgain,
    Rewards,
    LastBlock,
}

/// A line of the stream: registrations and epochs are numbered from 0.
/// The first line of the epoch after the last one is the end.
#[derive(Clone, Copy)]
pub(crate) enum NextLine {
    Genesis,
    Registration(u32),
    Epoch(u32, EpochLine),
}

/// The line that comes next, and what the registrations before it took, in lovelace.
#[derive(Clone, Copy)]
pub(crate) struct Position {
    pub(crate) next: NextLine,
    pub(crate) spent: u64,
}

/// The line after a registration.
pub(crate) fn line_after_registration(accounts: u32, registration: u32) -> NextLine
    requires accounts { accounts ≤ 1000000 }
    requires registration { registration < registration_count accounts }
    ensures { result ≡ after_registration accounts registration }
{
    if registration + 1 < registrations_of(accounts) {
        NextLine::Registration(registration + 1)
    } else {
        NextLine::Epoch(0, EpochLine::FirstBlock)
    }
}

/// The line after one of an epoch.
pub(crate) fn line_after(epoch: u32, part: EpochLine) -> NextLine
    requires { epoch < 100 }
    ensures { result ≡ after_epoch_line epoch part }
{
    match part {
        EpochLine::FirstBlock => NextLine::Epoch(epoch, EpochLine::Proposal),
        EpochLine::Proposal => NextLine::Epoch(epoch, EpochLine::Votes),
        EpochLine::Votes => NextLine::Epoch(epoch, EpochLine::VotesAgain),
        EpochLine::VotesAgain => NextLine::Epoch(epoch, EpochLine::Rewards),
        EpochLine::Rewards => NextLine::Epoch(epoch, EpochLine::LastBlock),
        EpochLine::LastBlock => NextLine::Epoch(epoch + 1, EpochLine::FirstBlock),
    }
}
