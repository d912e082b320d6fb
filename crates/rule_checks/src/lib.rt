//! What every crate of rules does: it tries the rules on each item of a list, place after place.
#![tactic(auto)]

ghost use Rattle.std.specs.Prelude.{◌≡◌, ◌<◌, ◌≤◌, ◌^◌, OnOk, length};
ghost use Rattle.ledger_model.specs.Checks.{answer_of, per_place};
ghost use Rattle.rule_checks.specs.Answered.{as_fault};
ghost use Rattle.rule_checks.specs.Places.{answer_at};
ghost use Rattle.rule_checks.specs.Told.{told_with};

mod check;
mod told;

pub use check::{Check, first_of};
use no_memory::NoMemory;
pub use told::Told;
use tx_records::{Rule, TxFault};

/// The rules on the items of a list, with what they look at.
pub trait ItemRules {
    ghost use Rattle.std.specs.Prelude.{◌≡◌, ◌<◌, ◌^◌, ℕ, List, OnOk, map};
    ghost use Rattle.ledger_model.specs.Checks.{Check, answer_of, at_place};
    ghost use Rattle.rule_checks.specs.Told.{told_with};

    /// What the list has.
    type Item;

    ghost checks: { Self → ℕ → Self.Item → List Check };

    /// The first rule that an item at a place of the list breaks, if any, without its place.
    fn check(&self, place: usize, item: &Self::Item) -> Result<(), Rule>
        ensures { result ≡ answer_of (checks self.now place item.now) };

    /// Adds every rule that the item breaks, at its place.
    fn tell(&self, place: usize, item: &Self::Item, told: &mut Told) -> Result<(), NoMemory>
        requires { place < 2 ^ 32 }
        ensures { OnOk result (told.new ≡ told_with (map (at_place place) (checks self.now place item.now)) told.old) };
}

/// The first broken rule of the first item that breaks one, with the item's place.
pub fn check_each<R: ItemRules>(rules: &R, items: &[R::Item]) -> Result<(), Rule>
    requires { length items.now ≤ 2 ^ 32 }
    ensures { result ≡ answer_of (per_place (R.checks rules.now) items.now) }
{
    for (place, item) in items.iter().enumerate() {
        answer_at(rules.check(place, item), place)?;
    }
    Ok(())
}

/// Adds every rule that an item breaks, item after item, at its place.
pub fn tell_each<R: ItemRules>(
    rules: &R,
    items: &[R::Item],
    told: &mut Told,
) -> Result<(), NoMemory>
    requires { length items.now ≤ 2 ^ 32 }
    ensures { OnOk result (told.new ≡ told_with (per_place (R.checks rules.now) items.now) told.old) }
{
    for (place, item) in items.iter().enumerate() {
        rules.tell(place, item, told)?;
    }
    Ok(())
}

/// The same answer, its rule at this place.
pub fn answer_at(answer: Result<(), Rule>, place: usize) -> Result<(), Rule>
    requires { place < 2 ^ 32 }
    ensures { result ≡ answer_at place answer }
{
    answer.map_err(|rule| rule.at(place as u32))
}

/// The same answer, as that of a call that may also run out of memory.
pub fn as_fault(answer: Result<(), Rule>) -> Result<(), TxFault>
    ensures { result ≡ as_fault answer }
{
    answer.map_err(TxFault::Refused)
}
