//! The book of unspent outputs, with the used ids.
#![tactic(auto)]

ghost use Rattle.std.specs.Prelude.{◌≡◌, ◌+◌, ◌^◌, ◌<◌, ◌&&◌, [], Some, None, MatchOption, map, option_map, IfOk, OnOk, OnErr};
ghost use Rattle.book_records.specs.declared.Output.{Output};
ghost use Rattle.gov_ids.specs.Orders.{asset_cmp, outref_cmp, txid_cmp};
ghost use Rattle.maps.specs.Maps.{value_at, with_value, without_key, comes_past, entry_after, has_member, with_key, without_member, key_after};
ghost use Rattle.book_records.specs.Outputs.{asset_totals, assets_in, lovelace_in};
ghost use Rattle.std.specs.Map.Iter.{deref};
ghost use Rattle.utxo_set.specs.Utxos.{IsInOrder, comes_below};

mod spending;

pub use book_records::Output;
use book_records::of_assets::AssetTotals;
use gov_ids::of_no_memory::NoMemory;
use gov_ids::{AssetId, OutRef, TxId};
use hash_seed::HashSeed;
use maps::keys_past;
pub use spending::Spender;
use spending::take_from;
use std::alloc::Global;
use std::collections::{BTreeMap, HashSet};
use std::marker::Model;

/// The unspent outputs and the used ids, with the outputs' totals of lovelace and of each asset.
/// (UTxO of the formal specification; that used ids and totals are kept is own)
#[derive(Drop)]
pub struct UtxoSet {
    outputs: BTreeMap<OutRef, Output>,
    used: HashSet<TxId, HashSeed>,
    total: u64,
    assets: AssetTotals,
    alloc: Global,
}

impl Model for UtxoSet {
    ghost use Rattle.std.specs.Prelude.{◌≡◌};
    ghost use Rattle.book_records.specs.of_assets.Totals.{AreTotals, total_at};
    ghost use Rattle.book_records.specs.Outputs.{assets_in, lovelace_in};
    ghost use Rattle.gov_ids.specs.declared.assets.AssetId.{AssetId};
    ghost use Rattle.gov_ids.specs.Orders.{txid_cmp};
    ghost use Rattle.maps.specs.Maps.{in_order};
    ghost use Rattle.utxo_set.specs.Utxos.{Utxos, IsInOrder};

    ghost Value = { Utxos };

    ghost view = { λ a. record { outputs = a.outputs.entries; used = in_order txid_cmp a.used.keys } };

    ghost invariant = { λ a. (a.total ≡ lovelace_in a.outputs.entries)
        × IsInOrder (record { outputs = a.outputs.entries; used = in_order txid_cmp a.used.keys })
        × AreTotals a.assets
        × ((k : AssetId) → total_at a.assets k ≡ assets_in a.outputs.entries k) };
}

impl UtxoSet {
    /// A book with no outputs and no used ids; the seed is of the table of used ids.
    /// (UTxO of the formal specification)
    pub fn new(alloc: Global, seed: HashSeed) -> UtxoSet
        ensures { result ≡ record { outputs = []; used = [] } }
    {
        UtxoSet {
            outputs: BTreeMap::new(alloc),
            used: HashSet::with_hasher(alloc, seed),
            total: 0,
            assets: AssetTotals::new(alloc),
            alloc,
        }
    }

    /// The output at a reference, if there is one. (UTxO of the formal specification)
    pub fn get(&self, r: &OutRef) -> Option<&Output>
        ensures value { option_map (λ o. o.now) result ≡ value_at outref_cmp self.now.outputs r.now }
        ensures in_order { IsInOrder self.now }
    {
        self.outputs.get(r)
    }

    /// Adds an output at a new reference. `NoMemory` leaves the book unchanged.
    /// (UTxO of the formal specification)
    pub fn put(&mut self, r: OutRef, o: Output) -> Result<(), NoMemory>
        requires absent { value_at outref_cmp self.old.outputs r ≡ None }
        requires fits { lovelace_in self.old.outputs + o.lovelace < 2 ^ 64 }
        ensures ok { OnOk result (self.new ≡ record self.old { outputs = with_value outref_cmp r o self.old.outputs }) }
        ensures err { OnErr result (self.new ≡ self.old) }
    {
        self.assets.add(&o.assets)?;
        let lovelace = o.lovelace;
        if let Err(refused) = self.outputs.insert(r, o) {
            self.assets.subtract(&refused.value.1.assets);
            return Err(NoMemory);
        }
        self.total += lovelace;
        Ok(())
    }

    /// Removes and returns the output at a reference, if there is one.
    /// (UTxO of the formal specification)
    pub fn take(&mut self, r: &OutRef) -> Option<Output>
        ensures value { result ≡ value_at outref_cmp self.old.outputs r.now }
        ensures rest { self.new ≡ record self.old { outputs = without_key outref_cmp r.now self.old.outputs } }
    {
        let output = self.outputs.remove(r)?;
        self.total -= output.lovelace;
        self.assets.subtract(&output.assets);
        Some(output)
    }

    /// Removes and returns the output at a reference, if there is one, in one search.
    /// Before that the spender changes. `NoMemory` changes neither of them.
    /// (UTxO of the formal specification)
    pub fn take_with<S: Spender>(
        &mut self,
        r: &OutRef,
        spender: &mut S,
    ) -> Result<Option<Output>, NoMemory>
        requires { (o : Output) → value_at outref_cmp self.old.outputs r.now ≡ Some o → S.can_spend spender.old o }
        ensures value { IfOk result (λ o. o ≡ value_at outref_cmp self.old.outputs r.now) }
        ensures rest { OnOk result (self.new ≡ record self.old { outputs = without_key outref_cmp r.now self.old.outputs }) }
        ensures spender { OnOk result (MatchOption (value_at outref_cmp self.old.outputs r.now)
            (spender.new ≡ spender.old) (λ o. spender.new ≡ S.spent_by o spender.old)) }
        ensures err { OnErr result (self.new ≡ self.old) }
        ensures spender_err { OnErr result (spender.new ≡ spender.old) }
    {
        let found = take_from(&mut self.outputs, *r, spender)?;
        let Some(taken) = found else {
            return Ok(None);
        };
        self.total -= taken.lovelace;
        self.assets.subtract(&taken.assets);
        Ok(Some(taken))
    }

    /// What all outputs hold, in lovelace. (UTxO of the formal specification)
    pub fn total(&self) -> u64
        ensures sum { result ≡ lovelace_in self.now.outputs }
        ensures in_order { IsInOrder self.now }
    {
        self.total
    }

    /// What all outputs hold of an asset.
    pub fn asset_total(&self, a: &AssetId) -> u128
        ensures sum { result ≡ assets_in self.now.outputs a.now }
        ensures in_order { IsInOrder self.now }
    {
        self.assets.total(a)
    }

    /// The next asset in order after this one, or the first of all, with its total.
    pub fn next_asset(&self, after: Option<&AssetId>) -> Option<(AssetId, u128)>
        ensures { result ≡ entry_after asset_cmp (option_map (λ a. a.now) after.entry) (asset_totals self.now.outputs) }
    {
        self.assets.next(after)
    }

    /// Whether an id is used: by an applied transaction, or one that made a genesis output.
    pub fn used(&self, id: &TxId) -> bool
        ensures member { result ≡ has_member txid_cmp self.now.used id.now }
        ensures in_order { IsInOrder self.now }
    {
        self.used.contains(id)
    }

    /// Marks an id as used. `NoMemory` leaves the book unchanged.
    pub fn mark_used(&mut self, id: TxId) -> Result<(), NoMemory>
        ensures ok { OnOk result (self.new ≡ record self.old { used = with_key txid_cmp id self.old.used }) }
        ensures err { OnErr result (self.new ≡ self.old) }
    {
        self.used.insert(id)?;
        Ok(())
    }

    /// Removes an id from the used ones.
    pub fn unmark(&mut self, id: &TxId)
        ensures { self.new ≡ record self.old { used = without_member txid_cmp id.now self.old.used } }
    {
        self.used.remove(id);
    }

    /// The next output in order of references after this one, or the first of all.
    /// (UTxO of the formal specification)
    pub fn next(&self, after: Option<&OutRef>) -> Option<(OutRef, &Output)>
        ensures { option_map (λ e. (e.0, e.1.now)) result ≡
            entry_after outref_cmp (option_map (λ r. r.now) after.entry) self.now.outputs }
    {
        let (r, o) = self.outputs.range(keys_past(after)).next()?;
        Some((*r, o))
    }

    /// The next used id in order after this one, or the first of all. It scans all used ids.
    pub fn next_used(&self, after: Option<&TxId>) -> Option<TxId>
        ensures { result ≡ key_after txid_cmp (option_map (λ id. id.now) after.entry) self.now.used }
    {
        let mut next: Option<TxId> = None;
        for id in &self.used {
            if is_between(id, after, next.as_ref()) {
                next = Some(*id);
            }
        }
        next
    }

    /// All used ids, in order, at 8 bytes an id.
    pub fn used_ids(&self) -> Result<Vec<&TxId>, NoMemory>
        ensures ids { IfOk result (λ ids. map deref ids.items ≡ self.now.used) }
        ensures in_order { IsInOrder self.now }
    {
        let mut ids = Vec::with_capacity(self.alloc, self.used.len())?;
        for id in &self.used {
            ids.push(id)?;
        }
        ids.sort_unstable();
        Ok(ids)
    }
}

// Whether an id comes after one; without one every id does.
fn is_past(id: &TxId, after: Option<&TxId>) -> bool
    ensures { result ≡ comes_past txid_cmp (option_map (λ a. a.now) after.entry) id.now }
{
    match after {
        Some(after) => after < id,
        None => true,
    }
}

// Whether an id comes before one; without one every id does.
fn is_below(id: &TxId, before: Option<&TxId>) -> bool
    ensures { result ≡ comes_below txid_cmp (option_map (λ b. b.now) before.entry) id.now }
{
    match before {
        Some(before) => id < before,
        None => true,
    }
}

// Whether an id comes after one and before another.
fn is_between(id: &TxId, after: Option<&TxId>, before: Option<&TxId>) -> bool
    ensures { result ≡ (comes_past txid_cmp (option_map (λ a. a.now) after.entry) id.now
        && comes_below txid_cmp (option_map (λ b. b.now) before.entry) id.now) }
{
    is_past(id, after) && is_below(id, before)
}
