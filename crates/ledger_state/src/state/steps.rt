ghost use Rattle.std.specs.Prelude.{◌≡◌, ◌<◌, ◌^◌, IfOk, None, OnOk, Some, is_some, true};
ghost use Rattle.ledger_model.specs.Checks.{answer_of, first_among};
ghost use Rattle.ledger_state.specs.Blocks.{StaysInEpoch, block_answer};
ghost use Rattle.rule_checks.specs.Told.{told_with};
ghost use Rattle.run_model.specs.SoundWorld.{IsSoundWorld};
ghost use Rattle.run_model.specs.Step.{block_checks, in_order_of_credential, pulsed, reward_checks, step};
ghost use Rattle.tx_records.specs.RecordLimits.{is_within_limits};
ghost use Rattle.tx_records.specs.declared.record.Record.TheVariants as records;

use super::LedgerState;
use crate::blocks::{advanced, answer, block_checks};
use crate::rewards::{given_by, in_order, taken_by};
use coin_frac::NoMemory;
use rule_checks::{Check, Told, first_of};
use tx_records::rules::{
    FEES_TOO_SMALL, RESERVES_TOO_SMALL, REWARDS_ALREADY_GIVEN, REWARDS_NOT_BALANCED, WRONG_EPOCH,
};
use tx_records::{Reply, Rewards, Rule};

impl LedgerState {
    /// The first rule that a block of this slot breaks, or whether it begins the next epoch.
    /// (TICK of the formal specification; the rules are own)
    pub fn check_block(&self, slot: u64, pulse: u32) -> Result<bool, Rule>
        ensures { result ≡ block_answer self.now.ledger slot pulse }
    {
        answer(self.live(), slot, pulse)
    }

    /// Adds every rule that such a block breaks.
    /// (TICK of the formal specification; the rules are own)
    pub fn tell_block(&self, slot: u64, pulse: u32, told: &mut Told) -> Result<(), NoMemory>
        ensures { OnOk result (told.new ≡ told_with (block_checks self.now.ledger slot pulse) told.old) }
    {
        told.add(&block_checks(self.live(), slot, pulse))
    }

    /// The state after a block within the epoch that counts the next `pulse` entries; its reply.
    /// A refused block changes nothing. It takes no memory.
    /// (TICK of the formal specification; the DRep pulser of cardano-ledger)
    pub fn block(self, slot: u64, pulse: u32) -> (LedgerState, Reply)
        requires early { slot < 2 ^ 62 }
        requires current { StaysInEpoch self.ledger slot pulse }
        ensures { result ≡ step self (records.Block slot pulse) }
    {
        match self.check_block(slot, pulse) {
            Ok(_) => (self.pulsed(slot, pulse), Reply::Accepted),
            Err(rule) => (self, Reply::Refused(rule)),
        }
    }

    /// The state after such a block that breaks no rule.
    fn pulsed(self, slot: u64, pulse: u32) -> LedgerState
        requires early { slot < 2 ^ 62 }
        requires current { StaysInEpoch self.ledger slot pulse }
        requires unbroken { first_among (block_checks self.ledger slot pulse) ≡ None }
        ensures { result ≡ pulsed slot pulse self }
    {
        let LedgerState {
            alloc,
            live,
            snapshots,
            pending,
            frozen,
            pulser,
        } = self;
        let live = live.at_slot(slot);
        let pulser = advanced(pulser, live.stake().book(), pulse);
        LedgerState {
            alloc,
            live,
            snapshots,
            pending,
            frozen,
            pulser,
        }
    }

    /// Whether a reward update is pending.
    fn has_pending(&self) -> bool
        ensures { result ≡ is_some self.now.pending }
    {
        self.pending.is_some()
    }

    /// The first rule that a reward update breaks.
    /// (RewardUpdate of the formal specification; that it is a record is own)
    pub fn check_rewards(&self, update: &Rewards) -> Result<(), Rule>
        requires { is_within_limits (records.Rewards update.now) ≡ true }
        ensures { result ≡ answer_of (reward_checks self.now update.now) }
    {
        first_of(&self.reward_checks(update))
    }

    /// Adds every rule that a reward update breaks.
    /// (RewardUpdate of the formal specification; that it is a record is own)
    pub fn tell_rewards(&self, update: &Rewards, told: &mut Told) -> Result<(), NoMemory>
        requires { is_within_limits (records.Rewards update.now) ≡ true }
        ensures { OnOk result (told.new ≡ told_with (reward_checks self.now update.now) told.old) }
    {
        told.add(&self.reward_checks(update))
    }

    /// The rules on a reward update.
    fn reward_checks(&self, update: &Rewards) -> [Check; 5]
        requires { is_within_limits (records.Rewards update.now) ≡ true }
        ensures { result ≡ reward_checks self.now update.now }
    {
        let epoch = self.epoch();
        let (taken, given) = (taken_by(update), given_by(update));
        let (reserves, fees) = (self.reserves(), self.fees());
        let lacks_reserves = reserves < update.from_reserves;
        let lacks_fees = fees < update.from_fees;
        [
            Check::keeping(WRONG_EPOCH, u128::from(epoch), update.epoch != epoch),
            Check::plain(REWARDS_ALREADY_GIVEN, self.has_pending()),
            Check::keeping_two(REWARDS_NOT_BALANCED, taken, given, taken != given),
            Check::keeping(RESERVES_TOO_SMALL, u128::from(reserves), lacks_reserves),
            Check::keeping(FEES_TOO_SMALL, u128::from(fees), lacks_fees),
        ]
    }

    /// Makes a reward update pending, its rewards by credential; returns the state and the reply.
    /// A refused update changes nothing. After an out-of-memory error there is no state.
    /// (RewardUpdate of the formal specification; that it is a record is own)
    pub fn rewards(self, update: &Rewards) -> Result<(LedgerState, Reply), NoMemory>
        requires { is_within_limits (records.Rewards update.now) ≡ true }
        ensures { IfOk result (λ r. r ≡ step self (records.Rewards update.now)) }
    {
        match self.check_rewards(update) {
            Ok(()) => Ok((self.given(update)?, Reply::Accepted)),
            Err(rule) => Ok((self, Reply::Refused(rule))),
        }
    }

    /// The state after a reward update that breaks no rule.
    fn given(self, update: &Rewards) -> Result<LedgerState, NoMemory>
        requires within { is_within_limits (records.Rewards update.now) ≡ true }
        requires unbroken { first_among (reward_checks self update.now) ≡ None }
        ensures { IfOk result (λ s. s ≡ record self { pending = Some (in_order_of_credential update.now) }) }
    {
        match in_order(self.alloc, update) {
            Ok(ordered) => Ok(self.with_pending(ordered)),
            Err(error) => {
                drop(self);
                Err(error)
            }
        }
    }

    /// With this reward update pending.
    fn with_pending(self, update: Rewards) -> LedgerState
        requires { IsSoundWorld (record self { pending = Some update }) }
        ensures { result ≡ record self { pending = Some update } }
    {
        let LedgerState {
            alloc,
            live,
            snapshots,
            pending: _none,
            frozen,
            pulser,
        } = self;
        LedgerState {
            alloc,
            live,
            snapshots,
            pending: Some(update),
            frozen,
            pulser,
        }
    }
}
