ghost use Rattle.std.specs.Prelude.{◌≡◌, ◌==◌, find, map, option_map};
ghost use Rattle.text_model.specs.of_tx_records.RuleTexts.{rule_texts, text_of_rule};
ghost use Rattle.report.specs.RuleNames.{text_seen};

use text_model::of_tx_records::rules;

/// A rule's number, its name, and the words of the numbers that it keeps.
#[derive(Clone, Copy)]
pub(crate) struct RuleText {
    pub(crate) number: u16,
    pub(crate) name: &'static str,
    pub(crate) words: &'static [&'static str],
}

/// A line of the table.
macro_rules! rule {
    ($number:ident, $name:literal $(, $word:literal)*) => {
        RuleText { number: rules::$number, name: $name, words: &[$($word),*] }
    };
}

/// One line a rule.
static RULE_TEXTS: [RuleText; 65] = [
    rule!(MALFORMED, "Malformed"),
    rule!(TOO_LONG, "TooLong"),
    rule!(GENESIS_AGAIN, "GenesisAgain"),
    rule!(SLOT_NOT_LATER, "SlotNotLater", "last"),
    rule!(EPOCH_SKIPPED, "EpochSkipped", "now"),
    rule!(ZERO_PULSE, "ZeroPulse"),
    rule!(WRONG_EPOCH, "WrongEpoch", "now"),
    rule!(REWARDS_ALREADY_GIVEN, "RewardsAlreadyGiven"),
    rule!(REWARDS_NOT_BALANCED, "RewardsNotBalanced", "in", "out"),
    rule!(RESERVES_TOO_SMALL, "ReservesTooSmall", "have"),
    rule!(FEES_TOO_SMALL, "FeesTooSmall", "have"),
    rule!(TX_ID_USED, "TxIdUsed"),
    rule!(NOT_WITNESSED, "NotWitnessed"),
    rule!(NO_INPUTS, "NoInputs"),
    rule!(INPUT_MISSING, "InputMissing"),
    rule!(INPUT_REPEATED, "InputRepeated"),
    rule!(TX_TOO_LARGE, "TxTooLarge", "max"),
    rule!(OUTSIDE_VALIDITY, "OutsideValidity", "slot"),
    rule!(FEE_TOO_SMALL, "FeeTooSmall", "min"),
    rule!(OUTPUT_TOO_SMALL, "OutputTooSmall", "min"),
    rule!(OUTPUT_WRONG_NETWORK, "OutputWrongNetwork"),
    rule!(TOO_MANY_COLLATERAL, "TooManyCollateral", "max"),
    rule!(NO_COLLATERAL, "NoCollateral"),
    rule!(COLLATERAL_MISSING, "CollateralMissing"),
    rule!(COLLATERAL_NOT_KEY, "CollateralNotKey"),
    rule!(COLLATERAL_TOO_SMALL, "CollateralTooSmall", "have"),
    rule!(TREASURY_VALUE_WRONG, "TreasuryValueWrong", "is"),
    rule!(COLLATERAL_ASSETS_WRONG, "CollateralAssetsWrong"),
    rule!(WITHDRAWAL_WRONG_NETWORK, "WithdrawalWrongNetwork"),
    rule!(WITHDRAWAL_NO_ACCOUNT, "WithdrawalNoAccount"),
    rule!(WITHDRAWAL_NOT_DELEGATED, "WithdrawalNotDelegated"),
    rule!(WITHDRAWAL_NOT_WHOLE, "WithdrawalNotWhole", "balance"),
    rule!(ACCOUNT_REGISTERED, "AccountRegistered"),
    rule!(ACCOUNT_UNKNOWN, "AccountUnknown"),
    rule!(DEPOSIT_WRONG, "DepositWrong", "want"),
    rule!(REFUND_WRONG, "RefundWrong", "want"),
    rule!(BALANCE_NOT_ZERO, "BalanceNotZero", "balance"),
    rule!(POOL_UNKNOWN, "PoolUnknown"),
    rule!(DREP_UNKNOWN, "DrepUnknown"),
    rule!(DREP_REGISTERED, "DrepRegistered"),
    rule!(POOL_COST_TOO_LOW, "PoolCostTooLow", "min"),
    rule!(POOL_WRONG_NETWORK, "PoolWrongNetwork"),
    rule!(RETIREMENT_EPOCH_WRONG, "RetirementEpochWrong", "now"),
    rule!(COLD_KEY_UNKNOWN, "ColdKeyUnknown"),
    rule!(COLD_KEY_RESIGNED, "ColdKeyResigned"),
    rule!(POOL_KEY_IN_USE, "PoolKeyInUse"),
    rule!(PROPOSAL_DEPOSIT_WRONG, "ProposalDepositWrong", "want"),
    rule!(RETURN_WRONG_NETWORK, "ReturnWrongNetwork"),
    rule!(RETURN_ACCOUNT_UNKNOWN, "ReturnAccountUnknown"),
    rule!(UPDATE_MALFORMED, "UpdateMalformed"),
    rule!(POLICY_WRONG, "PolicyWrong"),
    rule!(TARGET_WRONG_NETWORK, "TargetWrongNetwork"),
    rule!(TARGET_UNKNOWN, "TargetUnknown"),
    rule!(ZERO_WITHDRAWAL, "ZeroWithdrawal"),
    rule!(CONFLICTING_UPDATE, "ConflictingUpdate"),
    rule!(TERM_TOO_SMALL, "TermTooSmall"),
    rule!(PREVIOUS_WRONG, "PreviousWrong"),
    rule!(CANNOT_FOLLOW, "CannotFollow"),
    rule!(ACTION_UNKNOWN, "ActionUnknown"),
    rule!(VOTER_UNKNOWN, "VoterUnknown"),
    rule!(VOTER_NOT_ALLOWED, "VoterNotAllowed"),
    rule!(VOTING_EXPIRED, "VotingExpired"),
    rule!(VOTER_NOT_SEATED, "VoterNotSeated"),
    rule!(NOT_BALANCED, "NotBalanced", "consumed", "produced"),
    rule!(
        ASSET_NOT_BALANCED,
        "AssetNotBalanced",
        "consumed",
        "produced"
    ),
];

/// The table, which is that of the definitions.
fn table() -> &'static [RuleText]
    ensures { map text_seen result.now ≡ rule_texts }
{
    &RULE_TEXTS
}

/// The text with this number.
fn text_in(texts: &[RuleText], number: u16) -> Option<&RuleText>
    ensures { option_map (λ t. t.now) result ≡ find (λ t. t.number == number) texts.now }
{
    texts.iter().find(|text| text.number == number)
}

/// The text of the rule with this number.
pub(crate) fn text_of(number: u16) -> Option<&'static RuleText>
    ensures { option_map (λ t. text_seen t.now) result ≡ text_of_rule number }
{
    text_in(table(), number)
}
