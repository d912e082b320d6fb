//! The genesis of the stream.
ghost use Rattle.std.specs.Prelude.{◌≡◌, ◌≤◌, [], length};
ghost use Rattle.load_model.specs.Genesis.{genesis_line};

use crate::line::LineBuffer;
use crate::parts::Part::{Hash28, Hash32, Text};
use crate::parts::push_parts;

/// Writes the genesis line: one output, no account, one pool, two DReps, a committee of one member.
pub(crate) fn push_genesis_line(line: &mut LineBuffer)
    requires { line.old ≡ [] }
    ensures text { line.new ≡ genesis_line }
    ensures short { length line.new ≤ 4000 }
{
    push_parts(
        line,
        &[
            Text(
                "{\"kind\":\"genesis\",\"network\":1,\"slot\":0,\"epochLength\":10,\"version\":[10,0],",
            ),
            Text("\"supply\":20000000000,\"reserves\":9998999985,\"treasury\":1000000,"),
            Text(
                "\"params\":{\"maxBlockBodySize\":90112,\"maxTxSize\":16384,\"maxBlockHeaderSize\":1100,",
            ),
            Text(
                "\"maxValueSize\":5000,\"maxTxExUnits\":[1000,1000],\"maxBlockExUnits\":[1000,1000],",
            ),
            Text(
                "\"maxCollateralInputs\":3,\"minFeeA\":0,\"minFeeB\":0,\"keyDeposit\":2,\"poolDeposit\":5,",
            ),
            Text("\"rho\":[0,1],\"tau\":[0,1],\"minPoolCost\":0,\"coinsPerUTxOByte\":0,"),
            Text("\"prices\":[[0,1],[0,1]],\"minFeeRefScriptCostPerByte\":[15,1],\"a0\":[0,1],"),
            Text("\"eMax\":18,\"nOpt\":500,\"costModels\":\""),
            Hash32(0),
            Text("\",\"collateralPercentage\":150,"),
            Text("\"poolVotingThresholds\":[[0,1],[0,1],[0,1],[0,1],[0,1]],"),
            Text("\"drepVotingThresholds\":[[67,100],[67,100],[67,100],[67,100],[67,100],"),
            Text("[67,100],[67,100],[67,100],[67,100],[67,100]],"),
            Text(
                "\"govActionLifetime\":2,\"govActionDeposit\":10,\"drepDeposit\":5,\"drepActivity\":20,",
            ),
            Text("\"committeeMinSize\":0,\"committeeMaxTermLength\":100},\"document\":\""),
            Hash32(1),
            Text("\",\"committee\":{\"threshold\":[0,1],\"members\":[[\"k"),
            Hash28(70),
            Text("\",100,\"k"),
            Hash28(71),
            Text("\"]]},\"outputs\":[[\""),
            Hash32(1),
            Text("#0\",\"1k"),
            Hash28(1),
            Text("\",10000000000]],\"accounts\":[],\"pools\":[[\""),
            Hash28(50),
            Text("\",5,0,0,[0,1],\"1k"),
            Hash28(12),
            Text("\"]],\"dreps\":[[\"k"),
            Hash28(30),
            Text("\",5,20],[\"k"),
            Hash28(31),
            Text("\",5,20]]}"),
        ],
    );
}
