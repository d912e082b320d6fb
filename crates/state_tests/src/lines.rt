//! Lines by a short form: the worked genesis with other fields, blocks, transactions, records.
use no_memory::NoMemory;
use std::alloc::Global;

/// The genesis of the worked rows, to the end of its parameters; later fields replace equal ones.
/// Three accounts have 67, 33 and 0 lovelace, and the first two delegate to DReps.
const WORKED: &str =
    r#"{"kind":"genesis","network":1,"slot":0,"epochLength":10,"version":[10,0],"supply":1000,"reserves":579,"treasury":100,"document":"^01","script":null,"committee":{"threshold":[0,1],"members":[["k_70",100,"k_71"]]},"outputs":[["^01#0","1k_01",20],["^01#1","1k_01",20],["^01#2","1k_01",20],["^01#3","1k_01",20],["^01#4","1k_01",20],["^01#5","1k_01",20],["^01#6","1k_01",20],["^01#7","1k_01",20],["^01#8","1k_01",20],["^01#9","1k_01",20]],"accounts":[["k_10",2,67,null,"k_30"],["k_11",2,33,null,"k_31"],["k_12",2,0,null,null]],"pools":[["_50",5,0,0,[0,1],"1k_12"]],"dreps":[["k_30",5,20],["k_31",5,20]],"params":{"maxBlockBodySize":90112,"maxTxSize":16384,"maxBlockHeaderSize":1100,"maxValueSize":5000,"maxTxExUnits":[1000,1000],"maxBlockExUnits":[1000,1000],"maxCollateralInputs":3,"minFeeA":0,"minFeeB":0,"keyDeposit":2,"poolDeposit":5,"rho":[0,1],"tau":[0,1],"minPoolCost":0,"coinsPerUTxOByte":0,"prices":[[0,1],[0,1]],"minFeeRefScriptCostPerByte":[15,1],"a0":[0,1],"eMax":18,"nOpt":500,"costModels":"^00","collateralPercentage":150,"poolVotingThresholds":[[0,1],[0,1],[0,1],[0,1],[0,1]],"drepVotingThresholds":[[67,100],[67,100],[67,100],[67,100],[67,100],[67,100],[67,100],[67,100],[67,100],[67,100]],"govActionLifetime":2,"govActionDeposit":10,"drepDeposit":5,"drepActivity":20,"committeeMinSize":0,"committeeMaxTermLength":100"#;

/// A line of a table.
#[derive(Clone, Copy)]
pub enum Line {
    /// The worked genesis with these fields, each after a comma.
    Genesis(&'static str),
    /// A block of this slot and pulse.
    Block(&'static str, &'static str),
    /// A digit's transaction, which spends a genesis output of 20 lovelace, with these fields, each
    /// after a comma, instead of a fee of 20 and no output.
    Tx(&'static str, &'static str),
    /// A whole record.
    Record(&'static str),
}

/// The zeros that a letter means: all but the last byte of a 28-byte hash, or of one of 32.
fn zeros(letter: u8) -> Option<&'static [u8]> {
    match letter {
        b'_' => Some(b"000000000000000000000000000000000000000000000000000000"),
        b'^' => Some(b"00000000000000000000000000000000000000000000000000000000000000"),
        _ => None,
    }
}

/// Adds a piece with all its zeros.
fn spell(line: &mut Vec<u8>, piece: &str) -> Result<(), NoMemory> {
    for letter in piece.as_bytes() {
        match zeros(*letter) {
            Some(zeros) => line.extend_from_slice(zeros)?,
            None => line.push(*letter)?,
        }
    }
    Ok(())
}

/// The pieces of a line.
fn pieces(line: Line) -> [&'static str; 7] {
    match line {
        Line::Genesis(fields) => [WORKED, "}", fields, "}", "", "", ""],
        Line::Block(slot, pulse) => [
            r#"{"kind":"block","slot":"#,
            slot,
            r#","pulse":"#,
            pulse,
            "}",
            "",
            "",
        ],
        Line::Tx(digit, fields) => [
            r#"{"kind":"tx","id":"^0"#,
            digit,
            r#"","inputs":["^01#"#,
            digit,
            r#""],"outputs":[],"fee":20,"size":0"#,
            fields,
            "}",
        ],
        Line::Record(text) => [text, "", "", "", "", "", ""],
    }
}

/// The bytes of a line.
pub fn bytes_of(alloc: Global, line: Line) -> Result<Vec<u8>, NoMemory> {
    let mut bytes = Vec::new(alloc);
    for piece in pieces(line) {
        spell(&mut bytes, piece)?;
    }
    Ok(bytes)
}
