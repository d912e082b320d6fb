//! The lines of the parameters.
ghost use Rattle.std.specs.Prelude.{◌≡◌, ◌++◌, drop, map, take, OnOk};
ghost use Rattle.text_model.specs.ParamLines.{param_lines, shares};
ghost use Rattle.text_model.specs.Words.{spaced};
ghost use Rattle.state_lines.specs.ParamTexts.{param_words, value_words};
ghost use Rattle.report.specs.Taking.{HasPut};

use byte_lines::SinkFault;
use coin_frac::{NoMemory, Unit};
use pparams::Params;
use report::{LineTaker, Printed, Word, end_line, push_digits, push_part, push_parts, put_each};

/// The value of a parameter.
#[derive(Drop)]
pub(crate) enum Value<'a> {
    One(Word<'a>),
    Two(Word<'a>, Word<'a>),
    Shares(&'a [Unit]),
}

/// A parameter with its name.
#[derive(Drop)]
pub(crate) struct Param<'a> {
    name: &'static str,
    value: Value<'a>,
}

/// Adds fractions.
fn push_shares(out: &mut Vec<u8>, fractions: &[Unit]) -> Result<(), NoMemory>
    ensures { OnOk result (out.new.items ≡ out.old.items ++ spaced (shares fractions.now)) }
{
    for share in fractions {
        push_part(out, &Word::Fraction(share.num(), share.den()))?;
    }
    Ok(())
}

/// Adds a value.
fn push_value(out: &mut Vec<u8>, value: &Value<'_>) -> Result<(), NoMemory>
    ensures { OnOk result (out.new.items ≡ out.old.items ++ spaced (value_words value.now)) }
{
    match value {
        Value::One(word) => push_part(out, word),
        Value::Two(first, second) => {
            push_part(out, first)?;
            push_part(out, second)
        }
        Value::Shares(fractions) => push_shares(out, fractions),
    }
}

/// Adds a parameter.
fn push_param(out: &mut Vec<u8>, param: &Param<'_>) -> Result<(), NoMemory>
    ensures { OnOk result (out.new.items ≡ out.old.items ++ spaced (param_words param.now)) }
{
    push_parts(out, &[Word::Text("param"), Word::Text(param.name)])?;
    push_value(out, &param.value)
}

impl Printed for Param<'_> {
    ghost use Rattle.state_lines.specs.ParamTexts.{param_words};

    ghost words = { param_words };

    fn push_line(&self, out: &mut Vec<u8>, line: u64) -> Result<(), NoMemory> {
        push_digits(out, line)?;
        push_param(out, self)?;
        end_line(out)
    }
}

/// A parameter of one word.
macro_rules! one {
    ($name:literal, $kind:ident $arguments:tt) => {
        Param { name: $name, value: Value::One(Word::$kind $arguments) }
    };
}

/// A parameter of two numbers.
macro_rules! two {
    ($name:literal, $pair:expr) => {
        Param { name: $name, value: Value::Two(Word::Number($pair.0), Word::Number($pair.1)) }
    };
}

/// The limits of blocks and transactions, and the first part of a fee.
fn limits(p: &Params) -> [Param<'_>; 8]
    ensures { map param_words result ≡ take 8 (param_lines p.now) }
{
    [
        one!("maxBlockBodySize", Number(u64::from(p.max_block_body_size))),
        one!("maxTxSize", Number(u64::from(p.max_tx_size))),
        one!(
            "maxBlockHeaderSize",
            Number(u64::from(p.max_block_header_size))
        ),
        one!("maxValueSize", Number(u64::from(p.max_value_size))),
        two!("maxTxExUnits", p.max_tx_ex_units),
        two!("maxBlockExUnits", p.max_block_ex_units),
        one!(
            "maxCollateralInputs",
            Number(u64::from(p.max_collateral_inputs))
        ),
        one!("minFeeA", Number(p.min_fee_a)),
    ]
}

/// Fees, deposits, and what goes to pools and to the treasury.
fn amounts(p: &Params) -> [Param<'_>; 8]
    ensures { map param_words result ≡ take 8 (drop 8 (param_lines p.now)) }
{
    let (memory, steps) = p.prices;
    [
        one!("minFeeB", Number(p.min_fee_b)),
        one!("keyDeposit", Number(p.key_deposit)),
        one!("poolDeposit", Number(p.pool_deposit)),
        one!("rho", Fraction(p.rho.num(), p.rho.den())),
        one!("tau", Fraction(p.tau.num(), p.tau.den())),
        one!("minPoolCost", Number(p.min_pool_cost)),
        one!("coinsPerUTxOByte", Number(p.coins_per_utxo_byte)),
        Param {
            name: "prices",
            value: Value::Two(
                Word::Fraction(memory.num(), memory.den()),
                Word::Fraction(steps.num(), steps.den()),
            ),
        },
    ]
}

/// The rest except governance, and the thresholds.
fn shares_of(p: &Params) -> [Param<'_>; 8]
    ensures { map param_words result ≡ take 8 (drop 16 (param_lines p.now)) }
{
    let per_byte = &p.min_fee_ref_script_cost_per_byte;
    [
        one!(
            "minFeeRefScriptCostPerByte",
            Fraction(per_byte.num(), per_byte.den())
        ),
        one!("a0", Fraction(p.a0.num(), p.a0.den())),
        one!("eMax", Number(u64::from(p.e_max))),
        one!("nOpt", Number(u64::from(p.n_opt))),
        one!("costModels", Hash(&p.cost_models)),
        one!(
            "collateralPercentage",
            Number(u64::from(p.collateral_percentage))
        ),
        Param {
            name: "poolVotingThresholds",
            value: Value::Shares(&p.pool_voting_thresholds),
        },
        Param {
            name: "drepVotingThresholds",
            value: Value::Shares(&p.drep_voting_thresholds),
        },
    ]
}

/// Those of governance.
fn governance(p: &Params) -> [Param<'_>; 6]
    ensures { map param_words result ≡ drop 24 (param_lines p.now) }
{
    [
        one!(
            "govActionLifetime",
            Number(u64::from(p.gov_action_lifetime))
        ),
        one!("govActionDeposit", Number(p.gov_action_deposit)),
        one!("drepDeposit", Number(p.drep_deposit)),
        one!("drepActivity", Number(u64::from(p.drep_activity))),
        one!("committeeMinSize", Number(u64::from(p.committee_min_size))),
        one!(
            "committeeMaxTermLength",
            Number(u64::from(p.committee_max_term_length))
        ),
    ]
}

/// Hands over the lines of the first sixteen parameters.
fn put_front<T: LineTaker>(
    to: &mut T,
    text: &mut Vec<u8>,
    line: u64,
    p: &Params,
) -> Result<(), SinkFault>
    ensures { HasPut T.with_line T.IsPart line (T.taken to.old) (take 16 (param_lines p.now)) (T.taken to.new)
        (T.faults to.old) (T.faults to.new) result }
{
    put_each(to, text, line, &limits(p))?;
    put_each(to, text, line, &amounts(p))
}

/// Hands over the lines of the others.
fn put_rest<T: LineTaker>(
    to: &mut T,
    text: &mut Vec<u8>,
    line: u64,
    p: &Params,
) -> Result<(), SinkFault>
    ensures { HasPut T.with_line T.IsPart line (T.taken to.old) (drop 16 (param_lines p.now)) (T.taken to.new)
        (T.faults to.old) (T.faults to.new) result }
{
    put_each(to, text, line, &shares_of(p))?;
    put_each(to, text, line, &governance(p))
}

/// Hands over the line of each parameter, in order. (Own)
/// Each replaces what the buffer held. After an error a prefix of the lines was taken.
pub fn put_params<T: LineTaker>(
    to: &mut T,
    text: &mut Vec<u8>,
    line: u64,
    p: &Params,
) -> Result<(), SinkFault>
    ensures { HasPut T.with_line T.IsPart line (T.taken to.old) (param_lines p.now) (T.taken to.new)
        (T.faults to.old) (T.faults to.new) result }
{
    put_front(to, text, line, p)?;
    put_rest(to, text, line, p)
}
