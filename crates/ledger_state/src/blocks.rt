ghost use Rattle.std.specs.Prelude.{◌≡◌, ◌+◌, ◌^◌, ◌<◌, ◌≤◌, min};
ghost use Rattle.drep_pulser.specs.Pulsers.{GoesOnIn, IsPulserOf, done_by, total_of_pulser};
ghost use Rattle.gov_ids.specs.Orders.{credential_cmp};
ghost use Rattle.gov_model.specs.Snapshot.{Snapshot};
ghost use Rattle.ledger_state.specs.Blocks.{block_answer};
ghost use Rattle.run_model.specs.Step.{block_checks};
ghost use Rattle.view_map.specs.View.{frozen_of};

use accounts::AccountBook;
use coin_frac::Steps;
use drep_pulser::{Counting, Pulser};
use live_ledger::LiveLedger;
use rule_checks::{Check, first_of};
use std::marker::Brand;
use std::sync::ledger::{Blank, Ledger};
use tx_records::Rule;
use tx_records::rules::{EPOCH_SKIPPED, SLOT_NOT_LATER, ZERO_PULSE};

/// The first rule that a block breaks, or whether it begins the next epoch.
/// (TICK of the formal specification; the rules are own)
pub fn answer(live: &LiveLedger, slot: u64, pulse: u32) -> Result<bool, Rule>
    requires lasting { 1 ≤ live.now.ledger.epoch_length }
    requires early { live.now.ledger.epoch ≤ 2 ^ 62 }
    ensures { result ≡ block_answer live.now.ledger slot pulse }
{
    first_of(&block_checks(live, slot, pulse))?;
    Ok(slot / u64::from(live.epoch_length()) == live.epoch() + 1)
}

/// The rules on a block. (TICK of the formal specification; the rules are own)
pub fn block_checks(live: &LiveLedger, slot: u64, pulse: u32) -> [Check; 3]
    requires lasting { 1 ≤ live.now.ledger.epoch_length }
    requires early { live.now.ledger.epoch ≤ 2 ^ 62 }
    ensures { result ≡ block_checks live.now.ledger slot pulse }
{
    let last = live.slot();
    let epoch = live.epoch();
    let entered = slot / u64::from(live.epoch_length());
    [
        Check::keeping(SLOT_NOT_LATER, u128::from(last), slot <= last),
        Check::keeping(EPOCH_SKIPPED, u128::from(epoch), epoch + 1 < entered),
        Check::plain(ZERO_PULSE, pulse == 0),
    ]
}

/// The count after the next `n` frozen entries, or all that are left. An ended one stays.
/// It takes no memory. (The DRep pulser of cardano-ledger)
pub fn advanced(pulser: Pulser, book: &AccountBook, n: u32) -> Pulser
    requires some { 1 ≤ n }
    requires goes_on { GoesOnIn (frozen_of credential_cmp book.now) pulser }
    ensures counts { (f : Snapshot) → f.entries ≡ frozen_of credential_cmp book.now → IsPulserOf f pulser →
        IsPulserOf f result }
    ensures done { done_by result ≡ min (total_of_pulser pulser) (done_by pulser + n) }
{
    match pulser {
        Pulser::Counting(counting) => pulsed::<Brand>(Blank::new(1), counting, book, n),
        Pulser::Counted(counted) => Pulser::Counted(counted),
    }
}

/// A count that goes on, after the next `n` frozen entries or all that are left.
fn pulsed<L: Ledger>(blank: Blank, counting: Counting, book: &AccountBook, n: u32) -> Pulser
    requires name { blank.name ≡ L.name }
    requires parts { blank.parts ≡ L.parts }
    requires one { 0 < L.parts }
    requires some { 1 ≤ n }
    requires goes_on { GoesOnIn (frozen_of credential_cmp book.now) (Pulser.Counting counting) }
    ensures counts { (f : Snapshot) → f.entries ≡ frozen_of credential_cmp book.now →
        IsPulserOf f (Pulser.Counting counting) → IsPulserOf f result }
    ensures done { done_by result ≡ min counting.total (counting.done + n) }
{
    let mut steps = Steps::<L>::open(blank);
    counting.pulse(book, n, &mut steps)
}
