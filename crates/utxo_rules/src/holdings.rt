ghost use Rattle.std.specs.Prelude.{◌≡◌, ◌+◌, ◌<◌, ◌≤◌, ◌^◌, not};
ghost use Rattle.maps.specs.Words.{is_empty};
ghost use Rattle.utxo_rules.specs.Spent.{both};

use book_records::Output;

/// What unspent outputs hold.
#[derive(Clone, Copy)]
pub struct Spent {
    /// In lovelace.
    pub lovelace: u128,
    /// Whether one of them holds a native asset.
    pub has_assets: bool,
}

/// What no output holds.
pub const NOTHING: Spent = Spent {
    lovelace: 0,
    has_assets: false,
};

/// What an unspent output holds.
pub fn held_in(output: &Output) -> Spent
    ensures lovelace { result.lovelace ≡ output.now.lovelace }
    ensures fits { result.lovelace ≤ u64.MAX }
    ensures assets { result.has_assets ≡ not (is_empty output.now.assets) }
{
    Spent {
        lovelace: u128::from(output.lovelace),
        has_assets: !output.assets.is_empty(),
    }
}

/// What both hold.
pub fn both(some: Spent, others: Spent) -> Spent
    requires { some.lovelace + others.lovelace < 2 ^ 128 }
    ensures { result ≡ both some others }
{
    Spent {
        lovelace: some.lovelace + others.lovelace,
        has_assets: some.has_assets || others.has_assets,
    }
}
