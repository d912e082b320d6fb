ghost use Rattle.std.specs.Prelude.{◌≡◌, true, IfOk, OnOk, OnErr};
ghost use Rattle.gov_ids.specs.Orders.{credential_cmp};
ghost use Rattle.maps.specs.Maps.{has_key};
ghost use Rattle.stake_book.specs.Paid.{with_payment};
ghost use Rattle.stake_book.specs.Stakes.{AreKept, HasRoom, accounts_of};
ghost use Rattle.view_map.specs.View.{frozen_of};

use crate::StakeBook;
use crate::changes::EntryChange;
use coin_frac::NoMemory;
use gov_ids::Credential;

impl StakeBook {
    /// Adds lovelace to the reward balance of an account and returns whether it is registered.
    /// Where it is not, or after `NoMemory`, nothing changes.
    /// (EPOCH and POOLREAP of the formal specification)
    pub fn pay(&mut self, c: &Credential, amount: u64) -> Result<bool, NoMemory>
        requires room { has_key credential_cmp (accounts_of self.old) c.now ≡ true → HasRoom amount self.old }
        ensures paid { IfOk result (λ b. b ≡ has_key credential_cmp (accounts_of self.old) c.now) }
        ensures registered { OnOk result (accounts_of self.new ≡ with_payment c.now amount (accounts_of self.old)) }
        ensures outputs { self.new.outputs ≡ self.old.outputs }
        ensures frozen { frozen_of credential_cmp self.new.accounts ≡ frozen_of credential_cmp self.old.accounts }
        ensures err { OnErr result (self.new ≡ self.old) }
        ensures kept { AreKept self.old }
    {
        let before = self.accounts.change(*c, &EntryChange::Pay(amount))?;
        Ok(before.registered.is_some())
    }
}
