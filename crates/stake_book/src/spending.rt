ghost use Rattle.std.specs.Prelude.{◌≡◌, ◌-◌, ◌≤◌, Some, OnOk, OnErr};
ghost use Rattle.gov_ids.specs.declared.Credential.{Credential};
ghost use Rattle.coin_frac.specs.declared.TheConstants.{SUPPLY_LIMIT};
ghost use Rattle.stake_book.specs.Stakes.{stake_at, with_stake};
ghost use Rattle.stake_book.specs.Sums.{weight_in};

use crate::lower_stake;
use crate::summed::SummedAccounts;
use book_records::Output;
use coin_frac::NoMemory;
use utxo_set::Spender;

// A spent output takes its lovelace from the stake of its stake part.
impl Spender for SummedAccounts {
    ghost use Rattle.std.specs.Prelude.{◌≡◌, ◌-◌, ◌≤◌, Some};
    ghost use Rattle.gov_ids.specs.declared.Credential.{Credential};
    ghost use Rattle.coin_frac.specs.declared.TheConstants.{SUPPLY_LIMIT};
    ghost use Rattle.stake_book.specs.Stakes.{stake_at, with_stake};
    ghost use Rattle.stake_book.specs.Sums.{weight_in};

    ghost can_spend = { λ a o. ((c : Credential) → o.address.stake ≡ Some c → o.lovelace ≤ stake_at a.live c)
        × (weight_in (with_stake o.address.stake (λ c. stake_at a.live c - o.lovelace) a).live ≤ SUPPLY_LIMIT) };

    ghost spent_by = { λ o a. with_stake o.address.stake (λ c. stake_at a.live c - o.lovelace) a };

    fn spend(&mut self, output: &Output) -> Result<(), NoMemory>
        requires { ((c : Credential) → output.now.address.stake ≡ Some c →
            output.now.lovelace ≤ stake_at self.old.live c)
            × (weight_in (with_stake output.now.address.stake
            (λ c. stake_at self.old.live c - output.now.lovelace) self.old).live ≤ SUPPLY_LIMIT) }
        ensures ok { OnOk result (self.new ≡
            with_stake output.now.address.stake (λ c. stake_at self.old.live c - output.now.lovelace) self.old) }
        ensures err { OnErr result (self.new ≡ self.old) }
    {
        lower_stake(self, output.address.stake, output.lovelace)?;
        Ok(())
    }
}
