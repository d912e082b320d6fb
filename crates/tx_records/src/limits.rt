//! The limits of the formats. docs/use/formats.md lists them; each number is here alone. (Own)

pub use gov_actions::of_coin_frac::SUPPLY_LIMIT;

/// The longest line, in bytes, its line feed not counted.
pub const LINE_LIMIT: u32 = 16_777_216;
/// The longest stream, in bytes.
pub const STREAM_LIMIT: u64 = 281_474_976_710_656;

/// The bound of a slot, a term and an expiry: each is below 2^62.
pub const SLOT_LIMIT: u64 = 4_611_686_018_427_387_904;
/// The bound of a network: 0 means the test networks, 1 mainnet.
pub const NETWORK_LIMIT: u8 = 2;
/// The least major version of a genesis.
pub const LEAST_MAJOR: u32 = 10;

/// The most outputs of a transaction.
pub const OUTPUT_LIMIT: u32 = 65_535;
/// The most entries of a transaction's inputs, collateral, withdrawals, certificates, proposals
/// and votes, each.
pub const TX_LIST_LIMIT: u32 = 65_536;
/// The most entries of every other list of a record.
pub const LIST_LIMIT: u32 = 16_777_216;
