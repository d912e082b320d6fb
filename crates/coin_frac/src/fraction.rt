ghost use Rattle.std.specs.Prelude.{◌≡◌, ◌<◌, ◌≤◌, ◌↔◌, IfOk, IsErrOf, IsTrue};
ghost use Rattle.coin_frac.specs.Fraction.{fraction};
ghost use Rattle.coin_frac.specs.Reaches.{Reaches, reaches};

use std::marker::Model;
use thiserror::Error;

/// A fraction from 0 to 1, for thresholds and margins: `num / den`, not reduced.
/// (UnitInterval of the formal specification)
#[derive(Clone, Copy, Debug, PartialEq, Eq)]
pub struct Unit {
    num: u64,
    den: u64,
}

impl Model for Unit {
    ghost use Rattle.std.specs.Prelude.{◌≤◌};
    ghost use Rattle.coin_frac.specs.Fraction.{Fraction};

    ghost Value = { Fraction };

    ghost view = { λ a. record { num = a.num; den = a.den } };

    ghost invariant = { λ a. (1 ≤ a.den) × (a.num ≤ a.den) };

    ghost inverse = { λ f. record { num = f.num; den = f.den } };
}

/// Any fraction: `num / den`, not reduced. (ℚ of the formal specification)
#[derive(Clone, Copy, Debug, PartialEq, Eq)]
pub struct Ratio {
    num: u64,
    den: u64,
}

impl Model for Ratio {
    ghost use Rattle.std.specs.Prelude.{◌≤◌};
    ghost use Rattle.coin_frac.specs.Fraction.{Fraction};

    ghost Value = { Fraction };

    ghost view = { λ a. record { num = a.num; den = a.den } };

    ghost invariant = { λ a. 1 ≤ a.den };

    ghost inverse = { λ f. record { num = f.num; den = f.den } };
}

/// Why two numbers are no fraction.
#[derive(Clone, Copy, Debug, PartialEq, Eq, Error)]
pub enum FracFault {
    /// The denominator is 0.
    #[error("the denominator is 0")]
    ZeroDen,
    /// The fraction is above 1, and the type allows 0 to 1.
    #[error("the fraction is above 1")]
    AboveOne,
}

impl Unit {
    /// The fraction `num / den`.
    pub fn new(num: u64, den: u64) -> Result<Unit, FracFault>
        ensures ok { IfOk result (λ f. f ≡ fraction num den) }
        ensures zero_den { IsErrOf result FracFault.ZeroDen ↔ (den ≡ 0) }
        ensures above_one { IsErrOf result FracFault.AboveOne ↔ ((0 < den) × (den < num)) }
    {
        if den == 0 {
            return Err(FracFault::ZeroDen);
        }
        if num > den {
            return Err(FracFault::AboveOne);
        }
        Ok(Unit { num, den })
    }

    /// The numerator.
    pub fn num(&self) -> u64
        ensures { result ≡ self.now.num }
    {
        self.num
    }

    /// The denominator.
    pub fn den(&self) -> u64
        ensures value { result ≡ self.now.den }
        ensures positive { 1 ≤ result }
        ensures at_most_one { self.now.num ≤ result }
    {
        self.den
    }
}

impl Ratio {
    /// The fraction `num / den`.
    pub fn new(num: u64, den: u64) -> Result<Ratio, FracFault>
        ensures ok { IfOk result (λ f. f ≡ fraction num den) }
        ensures zero_den { IsErrOf result FracFault.ZeroDen ↔ (den ≡ 0) }
        ensures never_above { IsErrOf result FracFault.AboveOne → ⊥ }
    {
        if den == 0 {
            return Err(FracFault::ZeroDen);
        }
        Ok(Ratio { num, den })
    }

    /// The numerator.
    pub fn num(&self) -> u64
        ensures { result ≡ self.now.num }
    {
        self.num
    }

    /// The denominator.
    pub fn den(&self) -> u64
        ensures value { result ≡ self.now.den }
        ensures positive { 1 ≤ result }
    {
        self.den
    }
}

/// Whether `yes` of `total` reaches the threshold.
/// (CIP-1694, Ratification; RATIFY of the formal specification)
pub fn reaches(yes: u64, total: u64, threshold: Unit) -> bool
    ensures fact { IsTrue result ↔ Reaches yes total threshold }
    ensures test { result ≡ reaches yes total threshold }
{
    threshold.num == 0
        || (total > 0
            && u128::from(yes) * u128::from(threshold.den)
                >= u128::from(threshold.num) * u128::from(total))
}
