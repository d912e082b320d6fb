use coin_frac::Unit;
use gov_ids::Credential;
use listed::Listed;

/// What a proposal lacks of the need of DReps; stakes in lovelace. (Own)
#[derive(Drop)]
pub enum Short {
    /// No vote of DReps ratifies it.
    Never,
    /// The Yes of all silent DReps together does not reach the need.
    None {
        yes: u64,
        total: u64,
        need: Unit,
    },
    /// The fewest silent DReps whose Yes reaches it, each with its stake.
    /// The count is before they vote; `short` is the count of Yes without the last of them.
    Least {
        chosen: Listed<(Credential, u64)>,
        yes: u64,
        total: u64,
        need: Unit,
        short: u64,
    },
}
