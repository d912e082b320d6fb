//! The counts of a summary.
ghost use Rattle.std.specs.Prelude.{◌≡◌, ◌+◌, ◌^◌, ◌≤◌, IfOk, OnErr};
ghost use Rattle.std.specs.List.{count_by};
ghost use Rattle.load_model.specs.Summary.{is_expired_verdict, is_ratified_verdict, is_waiting_verdict};
ghost use Rattle.load_summary.specs.Counting.{IsCounted, SummaryIsCounted, accepted_counted, block_counted, crossing_counted, nothing_counted, other_counted, refused_counted, reply_counted, summary_with};

use gov_actions::{Tally, Verdict};
use load_model::LoadSummary;
use no_memory::NoMemory;
use tx_records::{EpochReport, Pots, Reply};

/// How many records were answered so far, and how. A count above 64 bits is `NoMemory`:
/// a benchmark stream has at most 2,601 records, 100 boundaries, and 100 proposals at each.
#[derive(Clone, Copy)]
pub struct LoadCounts {
    /// The genesis and each record after it.
    pub records: u64,
    /// Transactions and reward updates.
    pub accepted: u64,
    pub refused: u64,
    /// Accepted blocks.
    pub blocks: u64,
    /// Tallies of all boundaries, by verdict.
    pub ratified: u64,
    pub expired: u64,
    pub waiting: u64,
}

/// A count with some more.
fn more(count: u64, n: u64) -> Result<u64, NoMemory>
    ensures ok { IfOk result (λ sum. sum ≡ count + n) }
    ensures full { OnErr result (2 ^ 64 ≤ count + n) }
{
    count.checked_add(n).ok_or(NoMemory)
}

/// How many tallies end with each verdict: ratified, expired, waiting.
fn verdicts_of(tallies: &[Tally]) -> (u64, u64, u64)
    ensures ratified { result.0 ≡ count_by (λ t. is_ratified_verdict t.verdict) tallies.now }
    ensures expired { result.1 ≡ count_by (λ t. is_expired_verdict t.verdict) tallies.now }
    ensures waiting { result.2 ≡ count_by (λ t. is_waiting_verdict t.verdict) tallies.now }
{
    let ratified = tallies
        .iter()
        .filter(|tally| is_ratified(tally.verdict))
        .count();
    let expired = tallies
        .iter()
        .filter(|tally| is_expired(tally.verdict))
        .count();
    let waiting = tallies
        .iter()
        .filter(|tally| is_waiting(tally.verdict))
        .count();
    (ratified as u64, expired as u64, waiting as u64)
}

/// Whether a verdict is "ratified".
fn is_ratified(verdict: Verdict) -> bool
    ensures { result ≡ is_ratified_verdict verdict }
{
    matches!(verdict, Verdict::Ratified)
}

/// Whether a verdict is "expired".
fn is_expired(verdict: Verdict) -> bool
    ensures { result ≡ is_expired_verdict verdict }
{
    matches!(verdict, Verdict::Expired)
}

/// Whether a verdict is "waiting".
fn is_waiting(verdict: Verdict) -> bool
    ensures { result ≡ is_waiting_verdict verdict }
{
    matches!(verdict, Verdict::Waiting)
}

impl LoadCounts {
    /// The counts before the first record.
    pub fn new() -> LoadCounts
        ensures { result ≡ nothing_counted }
    {
        LoadCounts {
            records: 0,
            accepted: 0,
            refused: 0,
            blocks: 0,
            ratified: 0,
            expired: 0,
            waiting: 0,
        }
    }

    /// Counts a record that was refused.
    fn count_refused(&mut self) -> Result<(), NoMemory>
        ensures { IsCounted self.old (refused_counted self.old) self.new result }
    {
        let records = more(self.records, 1)?;
        let refused = more(self.refused, 1)?;
        *self = LoadCounts {
            records,
            refused,
            ..*self
        };
        Ok(())
    }

    /// Counts a transaction or a reward update that was accepted.
    fn count_accepted(&mut self) -> Result<(), NoMemory>
        ensures { IsCounted self.old (accepted_counted self.old) self.new result }
    {
        let records = more(self.records, 1)?;
        let accepted = more(self.accepted, 1)?;
        *self = LoadCounts {
            records,
            accepted,
            ..*self
        };
        Ok(())
    }

    /// Counts a transaction or a reward update, or whatever was refused, by its reply.
    pub fn count_reply(&mut self, reply: &Reply) -> Result<(), NoMemory>
        ensures { IsCounted self.old (reply_counted self.old reply.now) self.new result }
    {
        match reply {
            Reply::Refused(_) => self.count_refused(),
            Reply::Accepted | Reply::AcceptedFailedScripts => self.count_accepted(),
        }
    }

    /// Counts an accepted block of the current epoch.
    pub fn count_block(&mut self) -> Result<(), NoMemory>
        ensures { IsCounted self.old (block_counted self.old) self.new result }
    {
        let records = more(self.records, 1)?;
        let blocks = more(self.blocks, 1)?;
        *self = LoadCounts {
            records,
            blocks,
            ..*self
        };
        Ok(())
    }

    /// Counts an accepted block that crosses a boundary, and the tallies of that boundary.
    pub fn count_crossing(&mut self, report: &EpochReport) -> Result<(), NoMemory>
        ensures { IsCounted self.old (crossing_counted self.old report.now.tallies) self.new result }
    {
        let (ratified, expired, waiting) = verdicts_of(report.tallies.as_slice());
        let counts = LoadCounts {
            records: more(self.records, 1)?,
            blocks: more(self.blocks, 1)?,
            ratified: more(self.ratified, ratified)?,
            expired: more(self.expired, expired)?,
            waiting: more(self.waiting, waiting)?,
            ..*self
        };
        *self = counts;
        Ok(())
    }

    /// Counts the genesis, or a print: each is a record and nothing else.
    pub fn count_other(&mut self) -> Result<(), NoMemory>
        ensures { IsCounted self.old (other_counted self.old) self.new result }
    {
        let records = more(self.records, 1)?;
        *self = LoadCounts { records, ..*self };
        Ok(())
    }

    /// The summary of these counts, the three numbers of the stream, and the pots at the end.
    pub fn summary(&self, seed: u64, accounts: u32, epochs: u32, pots: Pots) -> LoadSummary
        ensures { result ≡ summary_with seed accounts epochs self.now pots }
    {
        LoadSummary {
            seed,
            accounts: u64::from(accounts),
            epochs: u64::from(epochs),
            records: self.records,
            accepted: self.accepted,
            refused: self.refused,
            blocks: self.blocks,
            ratified: self.ratified,
            expired: self.expired,
            waiting: self.waiting,
            pots,
        }
    }
}

/// The summary of a replay counts its genesis and its records one by one, with the last pots.
pub fn summary_is_counted()
    ensures { SummaryIsCounted }
{}
