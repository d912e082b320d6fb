ghost use Rattle.std.specs.Prelude.{◌≡◌, ◌<◌, ◌^◌, [], OnOk, map};
ghost use Rattle.ledger_model.specs.Checks.{at_place};
ghost use Rattle.maps.specs.Words.{is_empty};
ghost use Rattle.rule_checks.specs.Told.{told_with};

use crate::check::Check;
use no_memory::NoMemory;
use std::alloc::Global;
use std::marker::Model;
use tx_records::Rule;

/// The broken rules that were found so far, in the order of the rules.
#[derive(Drop)]
pub struct Told {
    rules: Vec<Rule>,
}

impl Model for Told {
    ghost use Rattle.std.specs.Prelude.{List};
    ghost use Rattle.tx_records.specs.declared.reply.Rule.{Rule};

    ghost Value = { List Rule };

    ghost view = { λ a. a.rules.items };
}

impl Told {
    /// None so far. It takes no memory.
    pub fn new(alloc: Global) -> Told
        ensures { result ≡ [] }
    {
        Told {
            rules: Vec::new(alloc),
        }
    }

    /// Adds those of these rules that are broken.
    pub fn add(&mut self, checks: &[Check]) -> Result<(), NoMemory>
        ensures { OnOk result (self.new ≡ told_with checks.now self.old) }
    {
        for check in checks {
            if let Err(rule) = check.answer() {
                self.rules.push(rule)?;
            }
        }
        Ok(())
    }

    /// Adds those of these rules that are broken, at this place.
    pub fn add_at(&mut self, place: usize, checks: &[Check]) -> Result<(), NoMemory>
        requires { place < 2 ^ 32 }
        ensures { OnOk result (self.new ≡ told_with (map (at_place place) checks.now) self.old) }
    {
        for check in checks {
            if let Err(rule) = check.answer() {
                self.rules.push(rule.at(place as u32))?;
            }
        }
        Ok(())
    }

    /// Whether no rule was found broken.
    pub fn is_none(&self) -> bool
        ensures { result ≡ is_empty self.now }
    {
        self.rules.is_empty()
    }

    /// The rules.
    pub fn into_rules(self) -> Vec<Rule>
        ensures { result.items ≡ self }
    {
        self.rules
    }
}
