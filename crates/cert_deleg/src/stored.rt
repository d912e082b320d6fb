ghost use Rattle.std.specs.Prelude.{◌≡◌};
ghost use Rattle.book_records.specs.declared.Registered.{Registered};
ghost use Rattle.maps.specs.Words.{amount};

use book_records::Registered;

/// The deposit that is stored for an account, in lovelace, or 0 where it is not registered.
pub fn deposit_of(account: Option<Registered>) -> u64
    ensures { result ≡ amount (λ (r : Registered). r.deposit) account }
{
    account.map_or(0, |registered| registered.deposit)
}

/// The balance of an account, in lovelace, or 0 where it is not registered.
pub fn rewards_of(account: Option<Registered>) -> u64
    ensures { result ≡ amount (λ (r : Registered). r.rewards) account }
{
    account.map_or(0, |registered| registered.rewards)
}
