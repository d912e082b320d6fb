ghost use Rattle.std.specs.Prelude.{◌≡◌, Some, None, if◌then◌else◌};
ghost use Rattle.ledger_model.specs.Checks.{answer_by, answer_of, breaks, breaks_keeping, breaks_keeping_two};

use std::marker::Model;
use tx_records::Rule;

/// A rule, and whether it is broken.
#[derive(Drop)]
pub struct Check {
    broken: bool,
    rule: Rule,
}

impl Model for Check {
    ghost use Rattle.ledger_model.specs.Checks.{Check};

    ghost Value = { Check };

    ghost view = { λ a. record { broken = a.broken; rule = a.rule } };
}

impl Check {
    /// A rule that keeps no number.
    pub fn plain(number: u16, broken: bool) -> Check
        ensures { result ≡ breaks number broken }
    {
        let rule = Rule::new(number);
        Check { broken, rule }
    }

    /// A rule that keeps one number.
    pub fn keeping(number: u16, first: u128, broken: bool) -> Check
        ensures { result ≡ breaks_keeping number first broken }
    {
        let rule = Rule::keeping(number, first);
        Check { broken, rule }
    }

    /// A rule that keeps two numbers.
    pub fn keeping_two(number: u16, first: u128, second: u128, broken: bool) -> Check
        ensures { result ≡ breaks_keeping_two number first second broken }
    {
        let rule = Rule::keeping_two(number, first, second);
        Check { broken, rule }
    }

    /// The rule, if it is broken.
    pub(crate) fn answer(&self) -> Result<(), Rule>
        ensures { result ≡ answer_by (if self.now.broken then Some self.now.rule else None) }
    {
        if self.broken { Err(self.rule) } else { Ok(()) }
    }
}

/// The first of these rules that is broken, if one is.
pub fn first_of(checks: &[Check]) -> Result<(), Rule>
    ensures { result ≡ answer_of checks.now }
{
    for check in checks {
        check.answer()?;
    }
    Ok(())
}
