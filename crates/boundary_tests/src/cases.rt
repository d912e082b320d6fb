//! What a case is, and the genesis of each.
use crate::lines::Line;

/// Lines in each of some epochs.
pub struct Case {
    /// What is tried.
    pub name: &'static str,
    /// The genesis.
    pub genesis: Line,
    /// The lines of each epoch, behind which its boundary is.
    pub epochs: &'static [&'static [Line]],
    /// What the last boundary reports, without the number of its line.
    pub told: &'static [&'static str],
    /// What is seen of the state after it.
    pub parts: [u64; 6],
}

/// No action needs votes.
pub const NO_VOTES: &str =
    r#","drepVotingThresholds":[[0,1],[0,1],[0,1],[0,1],[0,1],[0,1],[0,1],[0,1],[0,1],[0,1]]"#;

/// A proposal may be voted on in its own epoch alone.
const ONE_EPOCH: &str = r#","govActionLifetime":0"#;

/// No action needs votes, and a proposal may be voted on in its own epoch alone.
pub const QUICK: Line = Line::Genesis(NO_VOTES, ONE_EPOCH, "");

/// As QUICK, with two pools, to which two accounts and one delegate.
pub const TWO_POOLS: Line = Line::Genesis(
    NO_VOTES,
    ONE_EPOCH,
    r#","reserves":574,"accounts":[["k_10",2,67,"_50","k_30"],["k_11",2,33,"_51","k_31"],["k_12",2,0,"_50",null]],"pools":[["_50",5,0,0,[0,1],"1k_12"],["_51",5,0,0,[0,1],"1k_11"]]"#,
);

/// No action needs votes, and a proposal may be voted on for two epochs more.
pub const LASTING: Line = Line::Genesis(NO_VOTES, "", "");

/// As LASTING, with a fourth account.
pub const FOUR_ACCOUNTS: Line = Line::Genesis(
    NO_VOTES,
    "",
    r#","reserves":577,"accounts":[["k_10",2,67,null,"k_30"],["k_11",2,33,null,"k_31"],["k_12",2,0,null,null],["k_13",2,0,null,null]]"#,
);

/// A proposal may be voted on in its own epoch alone.
pub const SHORT: Line = Line::Genesis(ONE_EPOCH, "", "");

/// The genesis of the worked rows.
pub const WORKED: Line = Line::Genesis("", "", "");

/// As LASTING, with one member, whose term ends with epoch 1, and who has to agree.
pub const TERM_1: Line = Line::Genesis(
    NO_VOTES,
    r#","committeeMinSize":1"#,
    r#","committee":{"threshold":[1,2],"members":[["k_70",1,"k_71"]]}"#,
);

/// As TERM_1, with a term that ends with epoch 0.
pub const TERM_0: Line = Line::Genesis(
    NO_VOTES,
    r#","committeeMinSize":1"#,
    r#","committee":{"threshold":[1,2],"members":[["k_70",0,"k_71"]]}"#,
);
