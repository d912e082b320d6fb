//! The names of the parameters.
ghost use Rattle.std.specs.Prelude.{◌≡◌};
ghost use Rattle.param_kinds.specs.Names.{name_at};

use crate::line::read_param;
use crate::run::LinesReader;
use byte_lines::LineFault;
use line_giver::LineGiver;
use line_kinds::{LineKind, word};
use std::marker::PhantomData;

/// The names, in the order of their lines.
const NAMES: [&str; 30] = [
    "maxBlockBodySize",
    "maxTxSize",
    "maxBlockHeaderSize",
    "maxValueSize",
    "maxTxExUnits",
    "maxBlockExUnits",
    "maxCollateralInputs",
    "minFeeA",
    "minFeeB",
    "keyDeposit",
    "poolDeposit",
    "rho",
    "tau",
    "minPoolCost",
    "coinsPerUTxOByte",
    "prices",
    "minFeeRefScriptCostPerByte",
    "a0",
    "eMax",
    "nOpt",
    "costModels",
    "collateralPercentage",
    "poolVotingThresholds",
    "drepVotingThresholds",
    "govActionLifetime",
    "govActionDeposit",
    "drepDeposit",
    "drepActivity",
    "committeeMinSize",
    "committeeMaxTermLength",
];

/// The name at a place, from 0; empty past the last.
fn name_at(place: usize) -> &'static str
    ensures { result.now ≡ name_at place }
{
    word(&NAMES, place)
}

/// The line of the parameter at a place, whose value has the words of the kind.
pub(crate) struct At<const PLACE: usize, K: LineKind> {
    kind: PhantomData<K>,
}

impl<const PLACE: usize, K: LineKind> LinesReader for At<PLACE, K> {
    type Item = K::Item;

    ghost use Rattle.std.specs.Prelude.{◌∷◌, []};
    ghost use Rattle.text_model.specs.ParamLines.{param};
    ghost use Rattle.param_kinds.specs.Names.{name_at};

    ghost lines = { λ x. param (name_at PLACE) (K.words x) ∷ [] };

    ghost form = { K.form };

    fn laws() {}

    fn read<G: LineGiver>(giver: &mut G, text: &mut Vec<u8>) -> Result<Option<K::Item>, LineFault> {
        read_param::<K, G>(giver, text, name_at(PLACE))
    }
}
