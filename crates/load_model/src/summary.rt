use tx_records::Pots;

/// The result of the replay of a benchmark stream. (Own)
#[derive(Clone, Copy)]
pub struct LoadSummary {
    /// The three numbers that determine the stream.
    pub seed: u64,
    pub accounts: u64,
    pub epochs: u64,
    /// How many records the stream has, with its genesis.
    pub records: u64,
    /// How many transactions and reward updates were accepted.
    pub accepted: u64,
    /// How many records were refused.
    pub refused: u64,
    /// How many blocks were accepted.
    pub blocks: u64,
    /// How many tallies, over all boundaries, ended with each verdict.
    pub ratified: u64,
    pub expired: u64,
    pub waiting: u64,
    /// The pots at the end.
    pub pots: Pots,
}
