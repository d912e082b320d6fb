//! Streams of bytes, each by a short shape.
use no_memory::NoMemory;
use std::alloc::Global;

/// The parameters of each genesis.
const PARAMS: &[u8] =
    b"{\"maxBlockBodySize\":90112,\"maxTxSize\":16384,\"maxBlockHeaderSize\":1100,\"maxValueSize\":5000,\"maxTxExUnits\":[1000,1000],\"maxBlockExUnits\":[1000,1000],\"maxCollateralInputs\":3,\"minFeeA\":0,\"minFeeB\":0,\"keyDeposit\":2,\"poolDeposit\":5,\"rho\":[0,1],\"tau\":[0,1],\"minPoolCost\":0,\"coinsPerUTxOByte\":0,\"prices\":[[0,1],[0,1]],\"minFeeRefScriptCostPerByte\":[15,1],\"a0\":[0,1],\"eMax\":18,\"nOpt\":500,\"costModels\":\"0000000000000000000000000000000000000000000000000000000000000000\",\"collateralPercentage\":150,\"poolVotingThresholds\":[[0,1],[0,1],[0,1],[0,1],[0,1]],\"drepVotingThresholds\":[[67,100],[67,100],[67,100],[67,100],[67,100],[67,100],[67,100],[67,100],[67,100],[67,100]],\"govActionLifetime\":2,\"govActionDeposit\":10,\"drepDeposit\":5,\"drepActivity\":20,\"committeeMinSize\":0,\"committeeMaxTermLength\":100}";

/// What follows them where there is no output.
const NO_OUTPUTS: &[u8] =
    b",\"document\":\"0000000000000000000000000000000000000000000000000000000000000001\",\"outputs\":[],\"accounts\":[],\"pools\":[],\"dreps\":[]}";

/// The first part of the genesis that a letter means, up to its parameters.
fn genesis_head(letter: u8) -> Option<&'static [u8]> {
    match letter {
        b'G' => Some(
            b"{\"kind\":\"genesis\",\"network\":1,\"slot\":0,\"epochLength\":10,\"version\":[10,0],\"supply\":1000,\"reserves\":700,\"treasury\":100,\"params\":",
        ),
        // a genesis with no output
        b'g' => Some(
            b"{\"kind\":\"genesis\",\"network\":1,\"slot\":0,\"epochLength\":10,\"version\":[10,0],\"supply\":9,\"reserves\":9,\"treasury\":0,\"params\":",
        ),
        // its pots are one short of the supply
        b'w' => Some(
            b"{\"kind\":\"genesis\",\"network\":1,\"slot\":0,\"epochLength\":10,\"version\":[10,0],\"supply\":9,\"reserves\":8,\"treasury\":0,\"params\":",
        ),
        // a float in a field that nobody names
        b'f' => Some(
            b"{\"kind\":\"genesis\",\"network\":1,\"x\":1.5,\"slot\":0,\"epochLength\":10,\"version\":[10,0],\"supply\":9,\"reserves\":9,\"treasury\":0,\"params\":",
        ),
        // accounts and a DRep, for the motion below
        b'E' => Some(
            b"{\"kind\":\"genesis\",\"network\":1,\"slot\":0,\"epochLength\":10,\"version\":[10,0],\"supply\":1000,\"reserves\":749,\"treasury\":100,\"params\":",
        ),
        // as E, with an account whose hash has another first byte
        b'W' => Some(
            b"{\"kind\":\"genesis\",\"network\":1,\"slot\":0,\"epochLength\":10,\"version\":[10,0],\"supply\":1000,\"reserves\":749,\"treasury\":100,\"params\":",
        ),
        // two equal names: the later one counts
        b'e' => Some(
            b"{\"kind\":\"genesis\",\"network\":1,\"slot\":0,\"epochLength\":10,\"version\":[10,0],\"supply\":9,\"supply\":7,\"reserves\":7,\"treasury\":0,\"params\":",
        ),
        _ => None,
    }
}

/// What follows its parameters.
fn genesis_tail(letter: u8) -> &'static [u8] {
    match letter {
        b'G' => {
            b",\"document\":\"0000000000000000000000000000000000000000000000000000000000000001\",\"outputs\":[[\"0000000000000000000000000000000000000000000000000000000000000001#0\",\"1k00000000000000000000000000000000000000000000000000000001\",160],[\"0000000000000000000000000000000000000000000000000000000000000001#2\",\"1k00000000000000000000000000000000000000000000000000000001\",20],[\"0000000000000000000000000000000000000000000000000000000000000001#4\",\"1k00000000000000000000000000000000000000000000000000000001\",20]],\"accounts\":[],\"pools\":[],\"dreps\":[]}"
        }
        b'E' => {
            b",\"document\":\"0000000000000000000000000000000000000000000000000000000000000001\",\"outputs\":[[\"0000000000000000000000000000000000000000000000000000000000000001#2\",\"1k00000000000000000000000000000000000000000000000000000001\",20],[\"0000000000000000000000000000000000000000000000000000000000000001#3\",\"1k00000000000000000000000000000000000000000000000000000001\",20]],\"accounts\":[[\"k00000000000000000000000000000000000000000000000000000010\",2,67,null,\"k00000000000000000000000000000000000000000000000000000030\"],[\"k00000000000000000000000000000000000000000000000000000011\",2,33,null,null],[\"k00000000000000000000000000000000000000000000000000000012\",2,0,null,null]],\"pools\":[],\"dreps\":[[\"k00000000000000000000000000000000000000000000000000000030\",5,20]]}"
        }
        b'W' => {
            b",\"document\":\"0000000000000000000000000000000000000000000000000000000000000001\",\"outputs\":[[\"0000000000000000000000000000000000000000000000000000000000000001#2\",\"1k00000000000000000000000000000000000000000000000000000001\",20],[\"0000000000000000000000000000000000000000000000000000000000000001#3\",\"1k00000000000000000000000000000000000000000000000000000001\",20]],\"accounts\":[[\"k00000000000000000000000000000000000000000000000000000010\",2,67,null,\"k00000000000000000000000000000000000000000000000000000030\"],[\"k00000000000000000000000000000000000000000000000000000012\",2,0,null,\"k00000000000000000000000000000000000000000000000000000030\"],[\"k80000000000000000000000000000000000000000000000000000011\",2,33,null,\"k00000000000000000000000000000000000000000000000000000030\"]],\"pools\":[],\"dreps\":[[\"k00000000000000000000000000000000000000000000000000000030\",5,20]]}"
        }
        _ => NO_OUTPUTS,
    }
}

/// The bytes that a letter of a shape means; any other letter means itself.
fn piece(letter: u8) -> Option<&'static [u8]> {
    match letter {
        b'2' => Some(
            b"{\"kind\":\"tx\",\"id\":\"0000000000000000000000000000000000000000000000000000000000000002\",\"inputs\":[\"0000000000000000000000000000000000000000000000000000000000000001#2\"],\"outputs\":[[\"1k00000000000000000000000000000000000000000000000000000001\",20,0]],\"fee\":0,\"size\":0}",
        ),
        b'3' => Some(
            b"{\"kind\":\"tx\",\"id\":\"0000000000000000000000000000000000000000000000000000000000000003\",\"inputs\":[\"0000000000000000000000000000000000000000000000000000000000000001#2\"],\"outputs\":[],\"fee\":20,\"size\":0}",
        ),
        b'4' => Some(
            b"{\"kind\":\"tx\",\"id\":\"0000000000000000000000000000000000000000000000000000000000000004\",\"inputs\":[\"0000000000000000000000000000000000000000000000000000000000000001#4\"],\"outputs\":[[\"1k00000000000000000000000000000000000000000000000000000001\",21,0]],\"fee\":0,\"size\":0}",
        ),
        // it names the treasury, and gives
        b'5' => Some(
            b"{\"kind\":\"tx\",\"id\":\"0000000000000000000000000000000000000000000000000000000000000005\",\"inputs\":[\"0000000000000000000000000000000000000000000000000000000000000001#2\"],\"outputs\":[],\"fee\":15,\"size\":0,\"treasury\":100,\"donation\":5}",
        ),
        // seven of an asset are minted; then two of them are left out; then they are burned
        b'n' => Some(
            b"{\"kind\":\"tx\",\"id\":\"0000000000000000000000000000000000000000000000000000000000000002\",\"inputs\":[\"0000000000000000000000000000000000000000000000000000000000000001#2\"],\"outputs\":[[\"1k00000000000000000000000000000000000000000000000000000001\",0,0,[[\"00000000000000000000000000000000000000000000000000000005\",\"\",7]]]],\"fee\":20,\"size\":0,\"mint\":[[\"00000000000000000000000000000000000000000000000000000005\",\"\",7]]}",
        ),
        b'l' => Some(
            b"{\"kind\":\"tx\",\"id\":\"0000000000000000000000000000000000000000000000000000000000000003\",\"inputs\":[\"0000000000000000000000000000000000000000000000000000000000000002#0\",\"0000000000000000000000000000000000000000000000000000000000000001#4\"],\"outputs\":[[\"1k00000000000000000000000000000000000000000000000000000001\",0,0,[[\"00000000000000000000000000000000000000000000000000000005\",\"\",5]]]],\"fee\":20,\"size\":0}",
        ),
        b'k' => Some(
            b"{\"kind\":\"tx\",\"id\":\"0000000000000000000000000000000000000000000000000000000000000004\",\"inputs\":[\"0000000000000000000000000000000000000000000000000000000000000002#0\",\"0000000000000000000000000000000000000000000000000000000000000001#4\"],\"outputs\":[[\"1k00000000000000000000000000000000000000000000000000000001\",0,0,[[\"00000000000000000000000000000000000000000000000000000005\",\"\",5]]]],\"fee\":20,\"size\":0,\"mint\":[[\"00000000000000000000000000000000000000000000000000000005\",\"\",-2]]}",
        ),
        b'a' => Some(b"{\"kind\":\"print\",\"what\":\"assets\"}"),
        // a motion of no confidence, and a vote for it
        b'm' => Some(
            b"{\"kind\":\"tx\",\"id\":\"0000000000000000000000000000000000000000000000000000000000000002\",\"inputs\":[\"0000000000000000000000000000000000000000000000000000000000000001#2\"],\"outputs\":[],\"fee\":10,\"size\":0,\"proposals\":[{\"deposit\":10,\"return\":\"1k00000000000000000000000000000000000000000000000000000012\",\"action\":{\"type\":\"NoConfidence\"}}]}",
        ),
        b'v' => Some(
            b"{\"kind\":\"tx\",\"id\":\"0000000000000000000000000000000000000000000000000000000000000003\",\"inputs\":[\"0000000000000000000000000000000000000000000000000000000000000001#3\"],\"outputs\":[],\"fee\":20,\"size\":0,\"votes\":[{\"voter\":\"drep:k00000000000000000000000000000000000000000000000000000030\",\"action\":\"0000000000000000000000000000000000000000000000000000000000000002#0\",\"vote\":\"yes\"}]}",
        ),
        // two such motions
        b'M' => Some(
            b"{\"kind\":\"tx\",\"id\":\"0000000000000000000000000000000000000000000000000000000000000002\",\"inputs\":[\"0000000000000000000000000000000000000000000000000000000000000001#2\"],\"outputs\":[],\"fee\":0,\"size\":0,\"proposals\":[{\"deposit\":10,\"return\":\"1k00000000000000000000000000000000000000000000000000000012\",\"action\":{\"type\":\"NoConfidence\"}},{\"deposit\":10,\"return\":\"1k00000000000000000000000000000000000000000000000000000012\",\"action\":{\"type\":\"NoConfidence\"}}]}",
        ),
        // a block that counts three entries
        b'c' => Some(b"{\"kind\":\"block\",\"slot\":1,\"pulse\":3}"),
        // blocks that enter epochs 1 and 2
        b't' => Some(b"{\"kind\":\"block\",\"slot\":10,\"pulse\":1}"),
        b'u' => Some(b"{\"kind\":\"block\",\"slot\":20,\"pulse\":1}"),
        // a later block of the same epoch, and rollbacks to slots 1 and 0
        b'd' => Some(b"{\"kind\":\"block\",\"slot\":2,\"pulse\":1}"),
        b'r' => Some(b"{\"kind\":\"rollback\",\"slot\":1}"),
        b'q' => Some(b"{\"kind\":\"rollback\",\"slot\":0}"),
        b's' => Some(b"{\"kind\":\"print\",\"what\":\"state\"}"),
        b'p' => Some(b"{\"kind\":\"print\",\"what\":\"pots\"}"),
        b'b' => Some(b"{\"kind\":\"block\",\"slot\":1,\"pulse\":1}"),
        _ => None,
    }
}

/// The stream of a shape.
pub fn stream(alloc: Global, shape: &str) -> Result<Vec<u8>, NoMemory> {
    let mut bytes = Vec::new(alloc);
    for letter in shape.as_bytes() {
        if let Some(head) = genesis_head(*letter) {
            bytes.extend_from_slice(head)?;
            bytes.extend_from_slice(PARAMS)?;
            bytes.extend_from_slice(genesis_tail(*letter))?;
        } else if let Some(piece) = piece(*letter) {
            bytes.extend_from_slice(piece)?;
        } else {
            bytes.push(*letter)?;
        }
    }
    Ok(bytes)
}

/// The shape of the worked row.
pub const ROW: &str = "G\n2\n2\n3\n4\np\n";

/// Its text.
pub const ROW_TEXT: &str =
    "1 genesis outputs 200 deposits 0 rewards 0 fees 0 donations 0 treasury 100 reserves 700 supply 1000\n2 accepted\n3 refused 30 TxIdUsed\n4 refused 33 InputMissing at 0\n5 refused 110 NotBalanced consumed 20 produced 21\n6 pots outputs 200 deposits 0 rewards 0 fees 0 donations 0 treasury 100 reserves 700 supply 1000\n";

/// The shape of a motion that is ratified, enacted and printed: two boundaries, and a state.
pub const MOTION: &str = "E\nm\nv\nt\nu\ns\n";

/// Its text.
pub const MOTION_TEXT: &str =
    "1 genesis outputs 40 deposits 11 rewards 100 fees 0 donations 0 treasury 100 reserves 749 supply 1000\n2 accepted\n3 accepted\n4 epoch 1 frozen 3 dormant 0\n4 stake k00000000000000000000000000000000000000000000000000000030 67\n4 pots outputs 0 deposits 21 rewards 100 fees 30 donations 0 treasury 100 reserves 749 supply 1000\n4 block slot 10 epoch 1 counted 1 of 3\n5 epoch 2 frozen 3 dormant 1\n5 stake k00000000000000000000000000000000000000000000000000000030 67\n5 tally 0000000000000000000000000000000000000000000000000000000000000002#0 NoConfidence committee 0/0 need none drep 67/67 need 67/100 pool 0/0 need 0/1 ratified\n5 removed 0000000000000000000000000000000000000000000000000000000000000002#0 enacted refund 10 1k00000000000000000000000000000000000000000000000000000012\n5 pots outputs 0 deposits 11 rewards 110 fees 30 donations 0 treasury 100 reserves 749 supply 1000\n5 block slot 20 epoch 2 counted 1 of 3\n6 now slot 20 epoch 2 version 10.0 dormant 1\n6 constitution 0000000000000000000000000000000000000000000000000000000000000001 none\n6 committee none\n6 enacted committee 0000000000000000000000000000000000000000000000000000000000000002#0 constitution none hardfork none parameters none\n6 param maxBlockBodySize 90112\n6 param maxTxSize 16384\n6 param maxBlockHeaderSize 1100\n6 param maxValueSize 5000\n6 param maxTxExUnits 1000 1000\n6 param maxBlockExUnits 1000 1000\n6 param maxCollateralInputs 3\n6 param minFeeA 0\n6 param minFeeB 0\n6 param keyDeposit 2\n6 param poolDeposit 5\n6 param rho 0/1\n6 param tau 0/1\n6 param minPoolCost 0\n6 param coinsPerUTxOByte 0\n6 param prices 0/1 0/1\n6 param minFeeRefScriptCostPerByte 15/1\n6 param a0 0/1\n6 param eMax 18\n6 param nOpt 500\n6 param costModels 0000000000000000000000000000000000000000000000000000000000000000\n6 param collateralPercentage 150\n6 param poolVotingThresholds 0/1 0/1 0/1 0/1 0/1\n6 param drepVotingThresholds 67/100 67/100 67/100 67/100 67/100 67/100 67/100 67/100 67/100 67/100\n6 param govActionLifetime 2\n6 param govActionDeposit 10\n6 param drepDeposit 5\n6 param drepActivity 20\n6 param committeeMinSize 0\n6 param committeeMaxTermLength 100\n6 drep k00000000000000000000000000000000000000000000000000000030 deposit 5 expiry 20\n6 account k00000000000000000000000000000000000000000000000000000010 stake 0 deposit 2 rewards 67 pool none drep k00000000000000000000000000000000000000000000000000000030\n6 account k00000000000000000000000000000000000000000000000000000011 stake 0 deposit 2 rewards 33 pool none drep none\n6 account k00000000000000000000000000000000000000000000000000000012 stake 0 deposit 2 rewards 10 pool none drep none\n6 snapshot fees 30\n6 pending none\n6 pots outputs 0 deposits 11 rewards 110 fees 30 donations 0 treasury 100 reserves 749 supply 1000\n";

/// The shape of a stream with rollbacks: what was taken back comes again; the last slot is unknown.
pub const FOLLOWED: &str = "E\nb\n2\nd\nr\n2\nd\nq\n";

/// Its text.
pub const FOLLOWED_TEXT: &str =
    "1 genesis outputs 40 deposits 11 rewards 100 fees 0 donations 0 treasury 100 reserves 749 supply 1000\n2 block slot 1 epoch 0 counted 1 of 3\n3 accepted\n4 block slot 2 epoch 0 counted 2 of 3\n5 rolled slot 1 epoch 0 counted 2 of 3\n6 accepted\n7 block slot 2 epoch 0 counted 3 of 3\n8 refused 13 RollbackUnknown last 2\n";

/// The shape of one boundary, which freezes two motions. No entry is counted before it.
pub const ONE_BOUNDARY: &str = "W\nM\nt\n";

/// The shape of two boundaries. All entries are counted before the first. At the second two motions
/// are frozen and two entries are left, whose hashes begin with a byte below 128 and with 128.
pub const TWO_BOUNDARIES: &str = "W\nc\nM\nt\nu\ns\n";

/// The shape of two motions that are frozen, with two of three entries not counted yet.
pub const LACKS: &str = "E\nM\nt\n";

/// What they lack: one DRep has stake, 67 lovelace, and is silent.
pub const LACKS_TEXT: &str =
    "shortfall 0000000000000000000000000000000000000000000000000000000000000002#0 least 1 yes 0 of 67 need 67/100 short 0\nadd k00000000000000000000000000000000000000000000000000000030 67\nshortfall 0000000000000000000000000000000000000000000000000000000000000002#1 least 1 yes 0 of 67 need 67/100 short 0\nadd k00000000000000000000000000000000000000000000000000000030 67\n";

/// How many lines of these bytes are whole.
pub fn whole_lines(bytes: &[u8]) -> usize {
    bytes.iter().filter(|byte| **byte == b'\n').count()
}

/// What a text answers to the first lines of a stream of at most nine.
pub fn answers_to(text: &[u8], count: usize) -> &[u8] {
    let mut begins = true;
    for (at, byte) in text.iter().enumerate() {
        if begins && usize::from(byte.wrapping_sub(b'0')) > count {
            return text.get(..at).unwrap_or(text);
        }
        begins = *byte == b'\n';
    }
    text
}

/// The first lines of a text, or all of it where it has fewer.
pub fn first_lines(text: &[u8], count: usize) -> &[u8] {
    let mut left = count;
    for (at, byte) in text.iter().enumerate() {
        if left == 0 {
            return text.get(..at).unwrap_or(text);
        }
        if *byte == b'\n' {
            left -= 1;
        }
    }
    text
}
