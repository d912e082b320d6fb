//! The lines of an epoch.
ghost use Rattle.std.specs.Prelude.{◌≡◌, ◌+◌, ◌-◌, ◌^◌, ◌<◌, ◌≤◌, [], length};
ghost use Rattle.load_model.specs.Amounts.{fee, funds, place_before_proposal, proposal_deposit, proposal_name, spent_by_all, spent_by_epochs, votes_name};
ghost use Rattle.load_model.specs.Stream.{block_line, proposal_line, proposing, rewarding, votes_line, voting};
ghost use Rattle.gen_load.specs.Position.{IsLoad, line_of_epoch};

use crate::accounts::{
    FEE, account_of_epoch, drep_of_epoch, end_of, first_of, pulse_of_epoch, registrations_of,
};
use crate::line::LineBuffer;
use crate::parts::Part::{Hash28, Hash32, Number, Text};
use crate::parts::push_parts;
use crate::position::{EpochLine, Load};

/// The lovelace in the output of the genesis.
pub(crate) const FUNDS: u64 = 10_000_000_000;
/// The deposit of a proposal, in lovelace.
const PROPOSAL_DEPOSIT: u64 = 10;

/// Writes the line of a block.
fn push_block_line(line: &mut LineBuffer, slot: u64, pulse: u64)
    requires { line.old ≡ [] }
    ensures text { line.new ≡ block_line slot pulse }
    ensures short { length line.new ≤ 2000 }
{
    push_parts(
        line,
        &[
            Text("{\"kind\":\"block\",\"slot\":"),
            Number(slot),
            Text(",\"pulse\":"),
            Number(pulse),
            Text("}"),
        ],
    );
}

/// Writes the line of a transaction that proposes a withdrawal.
fn push_proposal_line(line: &mut LineBuffer, name: u64, place: u64, left: u64, amount: u64)
    requires empty { line.old ≡ [] }
    requires name { 0 < name }
    ensures text { line.new ≡ proposing name place left amount }
    ensures short { length line.new ≤ 2000 }
{
    push_parts(
        line,
        &[
            Text("{\"kind\":\"tx\",\"id\":\""),
            Hash32(name),
            Text("\",\"inputs\":[\""),
            Hash32(name - 1),
            Text("#"),
            Number(place),
            Text("\"],\"outputs\":[[\"1k"),
            Hash28(1),
            Text("\","),
            Number(left),
            Text(",0]],\"fee\":1,\"size\":0,\"proposals\":[{\"deposit\":10,\"return\":\"1k"),
            Hash28(1000),
            Text("\",\"action\":{\"type\":\"TreasuryWithdrawals\",\"targets\":[[\"1k"),
            Hash28(1000),
            Text("\","),
            Number(amount),
            Text("]]}}]}"),
        ],
    );
}

/// Writes the line of a transaction that delegates a vote, and votes on the proposal before it.
fn push_votes_line(line: &mut LineBuffer, name: u64, left: u64, account: u64, drep: u64)
    requires empty { line.old ≡ [] }
    requires name { 0 < name }
    ensures text { line.new ≡ voting name left account drep }
    ensures short { length line.new ≤ 2000 }
{
    push_parts(
        line,
        &[
            Text("{\"kind\":\"tx\",\"id\":\""),
            Hash32(name),
            Text("\",\"inputs\":[\""),
            Hash32(name - 1),
            Text("#0\"],\"outputs\":[[\"1k"),
            Hash28(1),
            Text("\","),
            Number(left),
            Text(",0]],\"fee\":1,\"size\":0,\"certs\":[{\"cert\":\"delegate\",\"cred\":\"k"),
            Hash28(account),
            Text("\",\"drep\":\"k"),
            Hash28(drep),
            Text("\"}],\"votes\":[{\"voter\":\"drep:k"),
            Hash28(30),
            Text("\",\"action\":\""),
            Hash32(name - 1),
            Text("#0\",\"vote\":\"yes\"},{\"voter\":\"drep:k"),
            Hash28(31),
            Text("\",\"action\":\""),
            Hash32(name - 1),
            Text("#0\",\"vote\":\"no\"}]}"),
        ],
    );
}

/// Writes the line of a reward update.
fn push_rewards_line(line: &mut LineBuffer, epoch: u64, account: u64)
    requires { line.old ≡ [] }
    ensures text { line.new ≡ rewarding epoch account }
    ensures short { length line.new ≤ 2000 }
{
    push_parts(
        line,
        &[
            Text("{\"kind\":\"rewards\",\"epoch\":"),
            Number(epoch),
            Text(",\"fromReserves\":5,\"fromFees\":0,\"toTreasury\":2,\"rewards\":[[\"k"),
            Hash28(account),
            Text("\",3]]}"),
        ],
    );
}

/// The number in the name of the proposal of an epoch.
fn proposal_name_of(accounts: u32, epoch: u32) -> u64
    requires { accounts ≤ 1000000 }
    ensures name { result ≡ proposal_name accounts epoch }
    ensures some { 0 < result }
    ensures most { result ≤ 2 ^ 34 }
{
    2 + u64::from(registrations_of(accounts)) + 2 * u64::from(epoch)
}

/// The number in the name of the votes of an epoch.
fn votes_name_of(accounts: u32, epoch: u32) -> u64
    requires { accounts ≤ 1000000 }
    ensures name { result ≡ votes_name accounts epoch }
    ensures some { 0 < result }
{
    proposal_name_of(accounts, epoch) + 1
}

/// The place of the output that the proposal of an epoch takes.
fn place_before(accounts: u32, epoch: u32) -> u64
    requires some { 0 < accounts }
    requires accounts { accounts ≤ 1000000 }
    ensures { result ≡ place_before_proposal accounts epoch }
{
    if epoch != 0 {
        return 0;
    }
    let last = registrations_of(accounts) - 1;
    u64::from(end_of(accounts, last) - first_of(last))
}

/// The lovelace that the proposal of an epoch withdraws.
fn amount_of(epoch: u32) -> u64
    ensures { result ≡ 10 + epoch }
{
    10 + u64::from(epoch)
}

/// The lovelace that the epochs before one take.
fn spent_by_epochs_before(epoch: u32) -> u64
    requires { epoch ≤ 100 }
    ensures spent { result ≡ spent_by_epochs epoch }
    ensures most { result ≤ 1200 }
{
    (PROPOSAL_DEPOSIT + FEE + FEE) * u64::from(epoch)
}

/// The lovelace left after the proposal of an epoch; all registrations took `spent`.
fn left_after_proposal(spent: u64, epoch: u32) -> u64
    requires spent { spent ≤ 2001002000 }
    requires epoch { epoch < 100 }
    ensures { result ≡ funds - (spent + spent_by_epochs epoch + proposal_deposit + fee) }
{
    FUNDS - (spent + spent_by_epochs_before(epoch) + PROPOSAL_DEPOSIT + FEE)
}

/// The lovelace left after the votes of an epoch.
fn left_after_votes(spent: u64, epoch: u32) -> u64
    requires spent { spent ≤ 2001002000 }
    requires epoch { epoch < 100 }
    ensures { result ≡ funds - (spent + spent_by_epochs (epoch + 1)) }
{
    FUNDS - (spent + spent_by_epochs_before(epoch + 1))
}

/// Writes the line of the proposal of an epoch.
fn push_proposal(line: &mut LineBuffer, load: Load, epoch: u32, spent: u64)
    requires empty { line.old ≡ [] }
    requires load { IsLoad load }
    requires epoch { epoch < load.epochs }
    requires spent { spent ≡ spent_by_all load.seed load.accounts }
    requires most { spent ≤ 2001002000 }
    ensures text { line.new ≡ proposal_line load.seed load.accounts epoch }
    ensures short { length line.new ≤ 2000 }
{
    let name = proposal_name_of(load.accounts, epoch);
    let place = place_before(load.accounts, epoch);
    let left = left_after_proposal(spent, epoch);
    let amount = amount_of(epoch);
    push_proposal_line(line, name, place, left, amount);
}

/// Writes the line of the votes of an epoch.
fn push_votes(line: &mut LineBuffer, load: Load, epoch: u32, spent: u64)
    requires empty { line.old ≡ [] }
    requires load { IsLoad load }
    requires epoch { epoch < load.epochs }
    requires spent { spent ≡ spent_by_all load.seed load.accounts }
    requires most { spent ≤ 2001002000 }
    ensures text { line.new ≡ votes_line load.seed load.accounts epoch }
    ensures short { length line.new ≤ 2000 }
{
    let name = votes_name_of(load.accounts, epoch);
    let left = left_after_votes(spent, epoch);
    let account = account_of_epoch(load.seed, load.accounts, epoch);
    let drep = drep_of_epoch(epoch);
    push_votes_line(line, name, left, account, drep);
}

/// Writes a line of an epoch; all registrations took `spent` lovelace.
pub(crate) fn push_epoch_line(
    line: &mut LineBuffer,
    load: Load,
    epoch: u32,
    part: EpochLine,
    spent: u64,
)
    requires empty { line.old ≡ [] }
    requires load { IsLoad load }
    requires epoch { epoch < load.epochs }
    requires spent { spent ≡ spent_by_all load.seed load.accounts }
    requires most { spent ≤ 2001002000 }
    ensures text { line.new ≡ line_of_epoch load epoch part }
    ensures short { length line.new ≤ 2000 }
{
    let first_slot = 10 * u64::from(epoch);
    match part {
        EpochLine::FirstBlock => {
            push_block_line(line, first_slot + 5, pulse_of_epoch(load.seed, epoch));
        }
        EpochLine::Proposal => push_proposal(line, load, epoch, spent),
        EpochLine::Votes => push_votes(line, load, epoch, spent),
        EpochLine::VotesAgain => push_votes(line, load, epoch, spent),
        EpochLine::Rewards => {
            let account = account_of_epoch(load.seed, load.accounts, epoch);
            push_rewards_line(line, u64::from(epoch), account);
        }
        EpochLine::LastBlock => push_block_line(line, first_slot + 10, 1),
    }
}
