//! The book of registered DReps, with the dormant count.
#![tactic(auto)]

ghost use Rattle.std.specs.Prelude.{◌≡◌, ◌+◌, ◌-◌, ◌^◌, ◌<◌, ◌≤◌, [], map, option_map, IfOk, OnOk, OnErr, if◌then◌else◌};
ghost use Rattle.gov_ids.specs.Orders.{credential_cmp};
ghost use Rattle.maps.specs.Maps.{IsMap, value_at, with_value, without_key, entry_after};
ghost use Rattle.maps.specs.Replaced.{with_option};
ghost use Rattle.book_records.specs.Dormancy.{is_kept_active, extended, with_dormant_added, AllFit};
ghost use Rattle.drep_book.specs.Dreps.{Dreps};

pub use book_records::DrepState;
use gov_ids::Credential;
use gov_ids::of_no_memory::NoMemory;
use maps::keys_past;
use std::alloc::Global;
use std::collections::BTreeMap;
use std::marker::Model;

/// The registered DReps with their deposits and expiries, and the dormant count:
/// how many epochs ended without a proposal since a transaction last proposed.
/// (GState of the formal specification; how the count acts is own)
#[derive(Debug, Drop)]
pub struct DrepBook {
    dreps: BTreeMap<Credential, DrepState>,
    dormant: u64,
}

impl Model for DrepBook {
    ghost use Rattle.gov_ids.specs.Orders.{credential_cmp};
    ghost use Rattle.maps.specs.Maps.{IsMap};
    ghost use Rattle.drep_book.specs.Dreps.{Dreps};

    ghost Value = { Dreps };

    ghost view = { λ a. record { dreps = a.dreps.entries; dormant = a.dormant } };

    ghost invariant = { λ a. IsMap credential_cmp a.dreps.entries };
}

impl DrepBook {
    /// A book with no DRep and no dormant epoch. (GState of the formal specification)
    pub fn new(alloc: Global) -> DrepBook
        ensures { result ≡ record { dreps = []; dormant = 0 } }
    {
        DrepBook {
            dreps: BTreeMap::new(alloc),
            dormant: 0,
        }
    }

    /// The DRep of a credential, if it is registered. (GState of the formal specification)
    pub fn get(&self, c: &Credential) -> Option<DrepState>
        ensures value { result ≡ value_at credential_cmp self.now.dreps c.now }
        ensures in_order { IsMap credential_cmp self.now.dreps }
    {
        self.dreps.get(c).copied()
    }

    /// Sets the DRep of a credential. `NoMemory` leaves the book unchanged.
    /// (GOVCERT of the formal specification)
    pub fn put(&mut self, c: Credential, s: DrepState) -> Result<(), NoMemory>
        ensures ok { OnOk result (self.new ≡ record self.old { dreps = with_value credential_cmp c s self.old.dreps }) }
        ensures err { OnErr result (self.new ≡ self.old) }
    {
        self.dreps.insert(c, s)?;
        Ok(())
    }

    /// Removes and returns the DRep of a credential, if it is registered.
    /// (GOVCERT of the formal specification)
    pub fn take(&mut self, c: &Credential) -> Option<DrepState>
        ensures value { result ≡ value_at credential_cmp self.old.dreps c.now }
        ensures rest { self.new ≡ record self.old { dreps = without_key credential_cmp c.now self.old.dreps } }
    {
        self.dreps.remove(c)
    }

    /// Sets the DRep of a credential, or removes it. `NoMemory` leaves the book unchanged.
    pub fn restore(&mut self, c: Credential, to: Option<DrepState>) -> Result<(), NoMemory>
        ensures ok { OnOk result (self.new ≡
            record self.old { dreps = with_option credential_cmp c to self.old.dreps }) }
        ensures err { OnErr result (self.new ≡ self.old) }
    {
        match to {
            Some(s) => self.put(c, s),
            None => {
                self.dreps.remove(&c);
                Ok(())
            }
        }
    }

    /// How many epochs ended without a proposal since a transaction last proposed.
    pub fn dormant(&self) -> u64
        ensures { result ≡ self.now.dormant }
    {
        self.dormant
    }

    /// Adds the dormant epochs to each expiry that with them is not before the epoch.
    /// Then the dormant count is 0. It visits all DReps, except when the count is 0 already.
    pub fn refresh(&mut self, epoch: u64)
        requires fit { AllFit self.old.dormant self.old.dreps }
        ensures dreps { self.new.dreps ≡ with_dormant_added epoch self.old.dormant self.old.dreps }
        ensures dormant { self.new.dormant ≡ 0 }
    {
        if self.dormant == 0 {
            return;
        }
        let dormant = self.dormant;
        self.dreps.retain(|_, d| {
            *d = with_dormant(*d, epoch, dormant);
            true
        });
        self.dormant = 0;
    }

    /// One more epoch ended without a proposal.
    pub fn grow_dormant(&mut self)
        requires fits { self.old.dormant + 1 < 2 ^ 64 }
        ensures { self.new ≡ record self.old { dormant = self.old.dormant + 1 } }
    {
        self.dormant += 1;
    }

    /// Sets the dormant count to `n` epochs; the expiries stay.
    pub fn set_dormant(&mut self, n: u64)
        ensures { self.new ≡ record self.old { dormant = n } }
    {
        self.dormant = n;
    }

    /// The next DRep in order of credentials after this one, or the first of all.
    /// (GState of the formal specification)
    pub fn next(&self, after: Option<&Credential>) -> Option<(Credential, DrepState)>
        ensures value { result ≡ entry_after credential_cmp (option_map (λ c. c.now) after.entry) self.now.dreps }
        ensures in_order { IsMap credential_cmp self.now.dreps }
    {
        let (c, s) = self.dreps.range(keys_past(after)).next()?;
        Some((*c, *s))
    }

    /// Each DRep with the epoch of its expiry, in order of credentials.
    /// (GState of the formal specification)
    pub fn expiries(&self, alloc: Global) -> Result<Vec<(Credential, u64)>, NoMemory>
        ensures value { IfOk result (λ l. l.items ≡ map (λ e. (e.0, e.1.expiry)) self.now.dreps) }
        ensures in_order { IsMap credential_cmp self.now.dreps }
    {
        Ok(
            self.dreps
                .iter()
                .map(|(c, s)| (*c, s.expiry))
                .collect(alloc)?,
        )
    }
}

/// A DRep with the dormant epochs added, if with them it has not expired by the epoch.
/// A sum above 64 bits becomes 2^64 - 1.
pub fn with_dormant(d: DrepState, epoch: u64, dormant: u64) -> DrepState
    ensures fits { d.expiry + dormant < 2 ^ 64 →
        result ≡ (if is_kept_active epoch dormant d then extended dormant d else d) }
    ensures stops { 2 ^ 64 ≤ d.expiry + dormant → result ≡ record d { expiry = 2 ^ 64 - 1 } }
{
    let expiry = d.expiry.saturating_add(dormant);
    if expiry < epoch {
        return d;
    }
    DrepState { expiry, ..d }
}
