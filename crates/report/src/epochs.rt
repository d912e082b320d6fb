//! The lines of a boundary.
ghost use Rattle.std.specs.Prelude.{◌≡◌, ◌++◌, OnOk, flat_map, zip};
ghost use Rattle.text_model.specs.ActionWords.{kind_text, need_text, verdict_text, why_text};
ghost use Rattle.text_model.specs.EpochLines.{epoch_words, paid_words, removed_words, retired_words, role_texts, role_words, stake_words, tally_words, to_text};
ghost use Rattle.text_model.specs.Replies.{words_of_block};
ghost use Rattle.text_model.specs.Words.{line_of, spaced};
ghost use Rattle.report.specs.WordTexts.{word_text};

use crate::lines::Printed;
use crate::parts::{Word, push_line, push_parts};
use crate::words::{end_line, push_digits, push_word};
use gov_ids::{Account, Drep};
use no_memory::NoMemory;
use text_model::of_gov_actions::{ActionKind, Need, Tally, Verdict};
use text_model::of_tx_records::{EpochReport, Paid, Removed, Retired, Why};

/// The type of an action, as in lines. (Own)
pub fn kind_name(kind: ActionKind) -> &'static str
    ensures { result.now ≡ kind_text kind }
{
    match kind {
        ActionKind::NoConfidence => "NoConfidence",
        ActionKind::UpdateCommittee => "UpdateCommittee",
        ActionKind::NewConstitution => "NewConstitution",
        ActionKind::HardForkInitiation => "HardForkInitiation",
        ActionKind::ParameterChange => "ParameterChange",
        ActionKind::TreasuryWithdrawals => "TreasuryWithdrawals",
        ActionKind::Info => "Info",
    }
}

/// What became of a proposal.
fn verdict_name(verdict: Verdict) -> &'static str
    ensures { result.now ≡ verdict_text verdict }
{
    match verdict {
        Verdict::Ratified => "ratified",
        Verdict::Expired => "expired",
        Verdict::Waiting => "waiting",
    }
}

/// Why a proposal is removed.
fn why_name(why: Why) -> &'static str
    ensures { result.now ≡ why_text why }
{
    match why {
        Why::Enacted => "enacted",
        Why::Expired => "expired",
        Why::Dropped => "dropped",
    }
}

/// What a role must reach.
fn need_word(need: Need) -> Word<'static>
    ensures { word_text result ≡ need_text need }
{
    match need {
        Need::Nothing => Word::Text("none"),
        Need::Never => Word::Text("never"),
        Need::Share(share) => Word::Fraction(share.num(), share.den()),
    }
}

/// Where a deposit goes.
fn to_word(to: &Option<Account>) -> Word<'_>
    ensures { word_text result ≡ to_text to.now }
{
    match to {
        None => Word::Text("treasury"),
        Some(account) => Word::Account(account),
    }
}

/// Appends the line of the epoch that begins. After `NoMemory` the buffer may hold anything. (Own)
pub fn push_epoch_line(out: &mut Vec<u8>, line: u64, report: &EpochReport) -> Result<(), NoMemory>
    ensures { OnOk result (out.new.items ≡ out.old.items ++ line_of line (epoch_words report.now)) }
{
    push_line(
        out,
        line,
        &[
            Word::Text("epoch"),
            Word::Number(report.epoch),
            Word::Text("frozen"),
            Word::Number(report.frozen),
            Word::Text("dormant"),
            Word::Number(report.dormant),
        ],
    )
}

/// Appends the line of a DRep's stake. After `NoMemory` the buffer may hold anything. (Own)
pub fn push_stake_line(out: &mut Vec<u8>, line: u64, stake: &(Drep, u64)) -> Result<(), NoMemory>
    ensures { OnOk result (out.new.items ≡ out.old.items ++ line_of line (stake_words stake.now)) }
{
    push_line(
        out,
        line,
        &[
            Word::Text("stake"),
            Word::Drep(&stake.0),
            Word::Number(stake.1),
        ],
    )
}

/// Appends the line of a target of an enacted withdrawal. (Own)
/// After `NoMemory` the buffer may hold anything.
pub fn push_paid_line(out: &mut Vec<u8>, line: u64, paid: &Paid) -> Result<(), NoMemory>
    ensures { OnOk result (out.new.items ≡ out.old.items ++ line_of line (paid_words paid.now)) }
{
    let word = if paid.kept { "kept" } else { "paid" };
    push_line(
        out,
        line,
        &[
            Word::Text(word),
            Word::Account(&paid.account),
            Word::Number(paid.amount),
        ],
    )
}

/// Appends the line of a removed proposal. After `NoMemory` the buffer may hold anything. (Own)
pub fn push_removed_line(out: &mut Vec<u8>, line: u64, removed: &Removed) -> Result<(), NoMemory>
    ensures { OnOk result (out.new.items ≡ out.old.items ++ line_of line (removed_words removed.now)) }
{
    push_line(
        out,
        line,
        &[
            Word::Text("removed"),
            Word::Action(&removed.id),
            Word::Text(why_name(removed.why)),
            Word::Text("refund"),
            Word::Number(removed.amount),
            to_word(&removed.to),
        ],
    )
}

/// Appends the line of a reaped pool. After `NoMemory` the buffer may hold anything. (Own)
pub fn push_retired_line(out: &mut Vec<u8>, line: u64, retired: &Retired) -> Result<(), NoMemory>
    ensures { OnOk result (out.new.items ≡ out.old.items ++ line_of line (retired_words retired.now)) }
{
    push_line(
        out,
        line,
        &[
            Word::Text("retired"),
            Word::Pool(&retired.pool),
            Word::Text("refund"),
            Word::Number(retired.amount),
            to_word(&retired.to),
        ],
    )
}

/// Adds a role's count and need.
fn push_role(out: &mut Vec<u8>, role: &str, count: (u64, u64), need: Need) -> Result<(), NoMemory>
    ensures { OnOk result (out.new.items ≡ out.old.items ++ spaced (role_words (role.now, count, need))) }
{
    push_parts(
        out,
        &[
            Word::Text(role),
            Word::Fraction(count.0, count.1),
            Word::Text("need"),
            need_word(need),
        ],
    )
}

/// Adds the counts and needs of the roles.
fn push_roles(
    out: &mut Vec<u8>,
    counts: &[(u64, u64); 3],
    needs: &[Need; 3],
) -> Result<(), NoMemory>
    ensures { OnOk result (out.new.items ≡ out.old.items
        ++ spaced (flat_map (λ x. role_words (x.0, x.1.0, x.1.1)) (zip role_texts (zip counts.now needs.now)))) }
{
    push_role(out, "committee", counts[0], needs[0])?;
    push_role(out, "drep", counts[1], needs[1])?;
    push_role(out, "pool", counts[2], needs[2])
}

/// Appends the line of a proposal's tally. After `NoMemory` the buffer may hold anything. (Own)
pub fn push_tally_line(out: &mut Vec<u8>, line: u64, tally: &Tally) -> Result<(), NoMemory>
    ensures { OnOk result (out.new.items ≡ out.old.items ++ line_of line (tally_words tally.now)) }
{
    push_digits(out, line)?;
    push_tally(out, tally)?;
    end_line(out)
}

/// Adds a tally.
fn push_tally(out: &mut Vec<u8>, tally: &Tally) -> Result<(), NoMemory>
    ensures { OnOk result (out.new.items ≡ out.old.items ++ spaced (tally_words tally.now)) }
{
    push_parts(
        out,
        &[
            Word::Text("tally"),
            Word::Action(&tally.id),
            Word::Text(kind_name(tally.kind)),
        ],
    )?;
    push_roles(out, &tally.counts, &tally.needs)?;
    push_word(out, verdict_name(tally.verdict))
}

impl Printed for EpochReport {
    ghost use Rattle.text_model.specs.EpochLines.{epoch_words};

    ghost words = { epoch_words };

    fn push_line(&self, out: &mut Vec<u8>, line: u64) -> Result<(), NoMemory> {
        push_epoch_line(out, line, self)
    }
}

impl Printed for (Drep, u64) {
    ghost use Rattle.text_model.specs.EpochLines.{stake_words};

    ghost words = { stake_words };

    fn push_line(&self, out: &mut Vec<u8>, line: u64) -> Result<(), NoMemory> {
        push_stake_line(out, line, self)
    }
}

impl Printed for Tally {
    ghost use Rattle.text_model.specs.EpochLines.{tally_words};

    ghost words = { tally_words };

    fn push_line(&self, out: &mut Vec<u8>, line: u64) -> Result<(), NoMemory> {
        push_tally_line(out, line, self)
    }
}

impl Printed for Paid {
    ghost use Rattle.text_model.specs.EpochLines.{paid_words};

    ghost words = { paid_words };

    fn push_line(&self, out: &mut Vec<u8>, line: u64) -> Result<(), NoMemory> {
        push_paid_line(out, line, self)
    }
}

impl Printed for Removed {
    ghost use Rattle.text_model.specs.EpochLines.{removed_words};

    ghost words = { removed_words };

    fn push_line(&self, out: &mut Vec<u8>, line: u64) -> Result<(), NoMemory> {
        push_removed_line(out, line, self)
    }
}

impl Printed for Retired {
    ghost use Rattle.text_model.specs.EpochLines.{retired_words};

    ghost words = { retired_words };

    fn push_line(&self, out: &mut Vec<u8>, line: u64) -> Result<(), NoMemory> {
        push_retired_line(out, line, self)
    }
}

/// Appends the line of an accepted block of this slot in this epoch. (Own)
/// After it `counted` of `entries` frozen entries are counted.
/// After `NoMemory` the buffer may hold anything.
pub fn push_block_line(
    out: &mut Vec<u8>,
    line: u64,
    slot: u64,
    epoch: u64,
    counted: u64,
    entries: u64,
) -> Result<(), NoMemory>
    ensures { OnOk result (out.new.items ≡ out.old.items ++ line_of line (words_of_block slot epoch counted entries)) }
{
    push_line(
        out,
        line,
        &[
            Word::Text("block"),
            Word::Text("slot"),
            Word::Number(slot),
            Word::Text("epoch"),
            Word::Number(epoch),
            Word::Text("counted"),
            Word::Number(counted),
            Word::Text("of"),
            Word::Number(entries),
        ],
    )
}
