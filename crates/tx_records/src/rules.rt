//! The numbers of the rules of refusal, as printed. (Own)
//! The definitions of the ledger say when each rule is broken.

// Lines.
/// Malformed: The line is no record: what of it is wrong is given.
pub const MALFORMED: u16 = 1;
/// TooLong: The line is longer than the limit.
pub const TOO_LONG: u16 = 2;
/// GenesisAgain: A second genesis.
pub const GENESIS_AGAIN: u16 = 3;

// Blocks.
/// SlotNotLater: The slot is not above the last one. Keeps `last`.
pub const SLOT_NOT_LATER: u16 = 10;
/// EpochSkipped: The slot's epoch is above the current one by more than 1. Keeps `now`.
pub const EPOCH_SKIPPED: u16 = 11;
/// ZeroPulse: The pulse is 0.
pub const ZERO_PULSE: u16 = 12;

// Reward updates.
/// WrongEpoch: The update is not for the current epoch. Keeps `now`.
pub const WRONG_EPOCH: u16 = 20;
/// RewardsAlreadyGiven: An update is pending.
pub const REWARDS_ALREADY_GIVEN: u16 = 21;
/// RewardsNotBalanced: What the update takes is not what it gives. Keeps `in` and `out`.
pub const REWARDS_NOT_BALANCED: u16 = 22;
/// ReservesTooSmall: It takes more than the reserves. Keeps `have`.
pub const RESERVES_TOO_SMALL: u16 = 23;
/// FeesTooSmall: It takes more than the fee pot. Keeps `have`.
pub const FEES_TOO_SMALL: u16 = 24;

// Transactions: id, inputs, size, time, fee, outputs, collateral, treasury value.
/// TxIdUsed: The id is that of an accepted transaction or of a genesis output.
pub const TX_ID_USED: u16 = 30;
/// NotWitnessed: A witness is missing.
pub const NOT_WITNESSED: u16 = 31;
/// NoInputs: There is no input.
pub const NO_INPUTS: u16 = 32;
/// InputMissing: An input is no unspent output.
pub const INPUT_MISSING: u16 = 33;
/// InputRepeated: An input is earlier in the list too.
pub const INPUT_REPEATED: u16 = 34;
/// TxTooLarge: The size is above maxTxSize. Keeps `max`.
pub const TX_TOO_LARGE: u16 = 35;
/// OutsideValidity: The last slot is before the first allowed, or not below the end. Keeps `slot`.
pub const OUTSIDE_VALIDITY: u16 = 36;
/// FeeTooSmall: The fee is below the least fee. Keeps `min`.
pub const FEE_TOO_SMALL: u16 = 37;
/// OutputTooSmall: An output, or the collateral return, holds less than its size requires.
/// Keeps `min`.
pub const OUTPUT_TOO_SMALL: u16 = 38;
/// OutputWrongNetwork: An output, or the collateral return, is of another network.
pub const OUTPUT_WRONG_NETWORK: u16 = 39;
/// TooManyCollateral: There are more collateral inputs than allowed. Keeps `max`.
pub const TOO_MANY_COLLATERAL: u16 = 40;
/// NoCollateral: There are scripts and no collateral.
pub const NO_COLLATERAL: u16 = 41;
/// CollateralMissing: A collateral input is no unspent output, or is earlier in the list too.
pub const COLLATERAL_MISSING: u16 = 42;
/// CollateralNotKey: There are scripts, and a collateral input belongs to a script.
pub const COLLATERAL_NOT_KEY: u16 = 43;
/// CollateralTooSmall: There are scripts, and the collateral is below its return
/// or does not cover its part of the fee. Keeps `have`.
pub const COLLATERAL_TOO_SMALL: u16 = 44;
/// TreasuryValueWrong: The stated treasury is not the treasury. Keeps `is`.
pub const TREASURY_VALUE_WRONG: u16 = 45;
/// CollateralAssetsWrong: The collateral and its return differ in the quantity of an asset.
pub const COLLATERAL_ASSETS_WRONG: u16 = 46;

// Withdrawals.
/// WithdrawalWrongNetwork: A withdrawal is from an account of another network.
pub const WITHDRAWAL_WRONG_NETWORK: u16 = 50;
/// WithdrawalNoAccount: A withdrawal is from an account that is not registered.
pub const WITHDRAWAL_NO_ACCOUNT: u16 = 51;
/// WithdrawalNotDelegated: A withdrawal is from a key account that delegates its vote to nobody.
pub const WITHDRAWAL_NOT_DELEGATED: u16 = 52;
/// WithdrawalNotWhole: A withdrawal is not the whole balance. Keeps `balance`.
pub const WITHDRAWAL_NOT_WHOLE: u16 = 53;

// Certificates.
/// AccountRegistered: An account is registered again.
pub const ACCOUNT_REGISTERED: u16 = 60;
/// AccountUnknown: An account that is not registered leaves or delegates.
pub const ACCOUNT_UNKNOWN: u16 = 61;
/// DepositWrong: A registration states another deposit. Keeps `want`.
pub const DEPOSIT_WRONG: u16 = 62;
/// RefundWrong: An unregistration states another refund than the stored deposit. Keeps `want`.
pub const REFUND_WRONG: u16 = 63;
/// BalanceNotZero: An account leaves with a balance. Keeps `balance`.
pub const BALANCE_NOT_ZERO: u16 = 64;
/// PoolUnknown: A pool is named that is not registered.
pub const POOL_UNKNOWN: u16 = 65;
/// DrepUnknown: A DRep is named that is not registered.
pub const DREP_UNKNOWN: u16 = 66;
/// DrepRegistered: A DRep is registered again.
pub const DREP_REGISTERED: u16 = 67;
/// PoolCostTooLow: A pool asks for less than minPoolCost. Keeps `min`.
pub const POOL_COST_TOO_LOW: u16 = 68;
/// PoolWrongNetwork: A pool's reward account is of another network.
pub const POOL_WRONG_NETWORK: u16 = 69;
/// RetirementEpochWrong: A retirement is not after the current epoch,
/// or more than eMax epochs ahead. Keeps `now`.
pub const RETIREMENT_EPOCH_WRONG: u16 = 70;
/// ColdKeyUnknown: The cold key is no member, and no live UpdateCommittee adds it.
pub const COLD_KEY_UNKNOWN: u16 = 71;
/// ColdKeyResigned: The cold key resigned.
pub const COLD_KEY_RESIGNED: u16 = 72;
/// PoolKeyInUse: From version 11.0 on, a pool takes a key that another pool has
/// in its terms or its future terms.
pub const POOL_KEY_IN_USE: u16 = 73;

// Proposals.
/// ProposalDepositWrong: A proposal's deposit is not govActionDeposit. Keeps `want`.
pub const PROPOSAL_DEPOSIT_WRONG: u16 = 80;
/// ReturnWrongNetwork: A return account is of another network.
pub const RETURN_WRONG_NETWORK: u16 = 81;
/// ReturnAccountUnknown: A return account is not registered.
pub const RETURN_ACCOUNT_UNKNOWN: u16 = 82;
/// UpdateMalformed: An update is empty, or sets a parameter to 0 that may not be 0.
pub const UPDATE_MALFORMED: u16 = 83;
/// PolicyWrong: The policy is not the constitution's script.
pub const POLICY_WRONG: u16 = 84;
/// TargetWrongNetwork: A target of a withdrawal is of another network.
pub const TARGET_WRONG_NETWORK: u16 = 85;
/// TargetUnknown: A target of a withdrawal is not registered.
pub const TARGET_UNKNOWN: u16 = 86;
/// ZeroWithdrawal: A withdrawal from the treasury adds up to 0.
pub const ZERO_WITHDRAWAL: u16 = 87;
/// ConflictingUpdate: A credential is both removed from the committee and added.
pub const CONFLICTING_UPDATE: u16 = 88;
/// TermTooSmall: A new term is not above the current epoch.
pub const TERM_TOO_SMALL: u16 = 89;
/// PreviousWrong: The previous action is neither the last enacted one of the purpose
/// nor a live proposal of it.
pub const PREVIOUS_WRONG: u16 = 90;
/// CannotFollow: The version does not follow its parent's.
pub const CANNOT_FOLLOW: u16 = 91;

// Votes.
/// ActionUnknown: The action of a vote is not live.
pub const ACTION_UNKNOWN: u16 = 100;
/// VoterUnknown: The voter is no hot key, no registered DRep and no registered pool.
pub const VOTER_UNKNOWN: u16 = 101;
/// VoterNotAllowed: The voter's role does not vote on the action.
pub const VOTER_NOT_ALLOWED: u16 = 102;
/// VotingExpired: The action has expired.
pub const VOTING_EXPIRED: u16 = 103;
/// VoterNotSeated: From version 11.0 on, a hot key votes that no member of the committee has.
pub const VOTER_NOT_SEATED: u16 = 104;

// The balance.
/// NotBalanced: What the transaction takes is not what it gives. Keeps `consumed` and `produced`.
pub const NOT_BALANCED: u16 = 110;
/// AssetNotBalanced: What the transaction takes and mints of an asset
/// is not what it gives and burns of it. Keeps `consumed` and `produced`.
pub const ASSET_NOT_BALANCED: u16 = 111;
