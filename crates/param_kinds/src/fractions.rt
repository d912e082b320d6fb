//! Values of fractions.
ghost use Rattle.std.specs.Prelude.{◌≡◌, ◌++◌, OnOk, option_map};
ghost use Rattle.book_kinds.specs.Pools.{halves};
ghost use Rattle.text_model.specs.ParamLines.{shares};
ghost use Rattle.text_model.specs.Words.{line_of, spaced};
ghost use Rattle.param_kinds.specs.Values.{ratio_of};

use book_kinds::read_unit;
use coin_frac::{Ratio, Unit};
use line_kinds::{LineKind, read_number, word};
use no_memory::NoMemory;
use report::{Word, end_line, push_digits, push_line, push_part};

/// What is before the first slash and after it.
fn cut_in_two(text: &str) -> Option<(&str, &str)>
    ensures { option_map (λ p. (p.0.now, p.1.now)) result ≡ halves 47 text.now }
{
    text.split_once('/')
}

/// Reads a fraction, as two numbers with a slash between them.
#[tactic(auto, unfolding(crate::specs::Values::ratio_of))]
fn read_ratio(text: &str) -> Option<Ratio>
    ensures { result ≡ ratio_of text.now }
{
    let (num, den) = cut_in_two(text)?;
    let num = read_number(num)?;
    let den = read_number(den)?;
    Ratio::new(num, den).ok()
}

/// Appends fractions, each after a space.
fn push_each(out: &mut Vec<u8>, fractions: &[Unit]) -> Result<(), NoMemory>
    ensures { OnOk result (out.new.items ≡ out.old.items ++ spaced (shares fractions.now)) }
{
    for share in fractions {
        push_part(out, &Word::Fraction(share.num(), share.den()))?;
    }
    Ok(())
}

/// Appends a line of fractions.
fn push_shares(out: &mut Vec<u8>, fractions: &[Unit]) -> Result<(), NoMemory>
    ensures { OnOk result (out.new.items ≡ out.old.items ++ line_of 0 (shares fractions.now)) }
{
    push_digits(out, 0u64)?;
    push_each(out, fractions)?;
    end_line(out)
}

/// A fraction from 0 to 1.
pub(crate) struct UnitShare;

impl LineKind for UnitShare {
    type Item = Unit;

    ghost use Rattle.text_model.specs.ParamLines.{share};
    ghost use Rattle.text_forms.specs.Ids.{is_unit};
    ghost use Rattle.param_kinds.specs.Values.{unit_in};

    ghost words = { share };

    ghost form = { is_unit };

    ghost reading = { unit_in };

    fn laws() {}

    fn read(texts: &[&str]) -> Option<Unit> {
        read_unit(word(texts, 0))
    }

    fn push(share: &Unit, out: &mut Vec<u8>) -> Result<(), NoMemory> {
        push_line(out, 0, &[Word::Fraction(share.num(), share.den())])
    }
}

/// Any fraction.
pub(crate) struct RatioShare;

impl LineKind for RatioShare {
    type Item = Ratio;

    ghost use Rattle.text_model.specs.ParamLines.{share};
    ghost use Rattle.text_forms.specs.Ids.{is_ratio};
    ghost use Rattle.param_kinds.specs.Values.{ratio_in};

    ghost words = { share };

    ghost form = { is_ratio };

    ghost reading = { ratio_in };

    fn laws() {}

    fn read(texts: &[&str]) -> Option<Ratio> {
        read_ratio(word(texts, 0))
    }

    fn push(share: &Ratio, out: &mut Vec<u8>) -> Result<(), NoMemory> {
        push_line(out, 0, &[Word::Fraction(share.num(), share.den())])
    }
}

/// Two fractions.
pub(crate) struct TwoRatios;

impl LineKind for TwoRatios {
    type Item = (Ratio, Ratio);

    ghost use Rattle.text_model.specs.ParamLines.{two_shares};
    ghost use Rattle.text_forms.specs.Actions.{are_prices};
    ghost use Rattle.param_kinds.specs.Values.{two_ratios_in};

    ghost words = { two_shares };

    ghost form = { are_prices };

    ghost reading = { two_ratios_in };

    fn laws() {}

    fn read(texts: &[&str]) -> Option<(Ratio, Ratio)> {
        let memory = read_ratio(word(texts, 0))?;
        let steps = read_ratio(word(texts, 1))?;
        Some((memory, steps))
    }

    fn push(prices: &(Ratio, Ratio), out: &mut Vec<u8>) -> Result<(), NoMemory> {
        push_line(
            out,
            0,
            &[
                Word::Fraction(prices.0.num(), prices.0.den()),
                Word::Fraction(prices.1.num(), prices.1.den()),
            ],
        )
    }
}

/// Five fractions from 0 to 1.
pub(crate) struct FiveUnits;

impl LineKind for FiveUnits {
    type Item = [Unit; 5];

    ghost use Rattle.text_model.specs.ParamLines.{shares};
    ghost use Rattle.text_forms.specs.Ids.{are_units};
    ghost use Rattle.param_kinds.specs.Values.{units_in};

    ghost words = { shares };

    ghost form = { are_units 5 };

    ghost reading = { units_in 5 };

    fn laws() {}

    fn read(texts: &[&str]) -> Option<[Unit; 5]> {
        let a = read_unit(word(texts, 0))?;
        let b = read_unit(word(texts, 1))?;
        let c = read_unit(word(texts, 2))?;
        let d = read_unit(word(texts, 3))?;
        let e = read_unit(word(texts, 4))?;
        Some([a, b, c, d, e])
    }

    fn push(fractions: &[Unit; 5], out: &mut Vec<u8>) -> Result<(), NoMemory> {
        push_shares(out, fractions)
    }
}

/// Ten fractions from 0 to 1.
pub(crate) struct TenUnits;

impl LineKind for TenUnits {
    type Item = [Unit; 10];

    ghost use Rattle.text_model.specs.ParamLines.{shares};
    ghost use Rattle.text_forms.specs.Ids.{are_units};
    ghost use Rattle.param_kinds.specs.Values.{units_in};

    ghost words = { shares };

    ghost form = { are_units 10 };

    ghost reading = { units_in 10 };

    fn laws() {}

    fn read(texts: &[&str]) -> Option<[Unit; 10]> {
        let a = read_unit(word(texts, 0))?;
        let b = read_unit(word(texts, 1))?;
        let c = read_unit(word(texts, 2))?;
        let d = read_unit(word(texts, 3))?;
        let e = read_unit(word(texts, 4))?;
        let f = read_unit(word(texts, 5))?;
        let g = read_unit(word(texts, 6))?;
        let h = read_unit(word(texts, 7))?;
        let i = read_unit(word(texts, 8))?;
        let j = read_unit(word(texts, 9))?;
        Some([a, b, c, d, e, f, g, h, i, j])
    }

    fn push(fractions: &[Unit; 10], out: &mut Vec<u8>) -> Result<(), NoMemory> {
        push_shares(out, fractions)
    }
}
