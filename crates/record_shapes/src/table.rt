//! The table of all shapes.
ghost use Rattle.std.specs.Prelude.{◌≡◌};
ghost use Rattle.record_shapes.specs.Layouts.{layout_of};
ghost use Rattle.record_shapes.specs.Seen.{layout_seen};

use crate::form::Form;
use crate::shape::{Kind, Layout, Member, Shape};

/// A member that has to be there: a form, or else a shape.
macro_rules! needed {
    ($name:literal, $form:ident) => {
        Member { name: $name, is_needed: true, shape: Shape::Plain(Form::$form) }
    };
    ($name:literal: $shape:ident) => {
        Member { name: $name, is_needed: true, shape: Shape::$shape }
    };
}

/// A member that may be absent or null.
macro_rules! maybe {
    ($name:literal, $form:ident) => {
        Member { name: $name, is_needed: false, shape: Shape::Plain(Form::$form) }
    };
    ($name:literal: $shape:ident) => {
        Member { name: $name, is_needed: false, shape: Shape::$shape }
    };
}

/// A shape that is a form.
macro_rules! plain {
    ($form:ident) => {
        Shape::Plain(Form::$form)
    };
}

/// An array of these entries.
macro_rules! all_of {
    ($($entry:expr),*) => {
        Layout::Array { entries: &[$($entry),*], last_may_lack: false }
    };
}

/// One whose last entry may lack.
macro_rules! most_of {
    ($($entry:expr),*) => {
        Layout::Array { entries: &[$($entry),*], last_may_lack: true }
    };
}

/// A kind of object.
macro_rules! kind {
    ($word:literal, $shape:ident) => {
        Kind { word: $word, shape: Shape::$shape }
    };
}

/// The parameters. (CIP-1694, Protocol parameter groups)
static PARAMS: [Member; 30] = [
    maybe!("maxBlockBodySize", U32),
    maybe!("maxTxSize", U32),
    maybe!("maxBlockHeaderSize", U32),
    maybe!("maxValueSize", U32),
    maybe!("maxTxExUnits": ExUnits),
    maybe!("maxBlockExUnits": ExUnits),
    maybe!("maxCollateralInputs", U16),
    maybe!("minFeeA", U64),
    maybe!("minFeeB", U64),
    maybe!("keyDeposit", U64),
    maybe!("poolDeposit", U64),
    maybe!("rho", Unit),
    maybe!("tau", Unit),
    maybe!("minPoolCost", U64),
    maybe!("coinsPerUTxOByte", U64),
    maybe!("prices": Prices),
    maybe!("minFeeRefScriptCostPerByte", Ratio),
    maybe!("a0", Ratio),
    maybe!("eMax", U32),
    maybe!("nOpt", U16),
    maybe!("costModels", Hash32),
    maybe!("collateralPercentage", U16),
    maybe!("poolVotingThresholds": PoolThresholds),
    maybe!("drepVotingThresholds": DrepThresholds),
    maybe!("govActionLifetime", U32),
    maybe!("govActionDeposit", U64),
    maybe!("drepDeposit", U64),
    maybe!("drepActivity", U32),
    maybe!("committeeMinSize", U16),
    maybe!("committeeMaxTermLength", U32),
];

/// What a value of the shape consists of.
pub fn layout(shape: Shape) -> Layout
    ensures { layout_seen result ≡ layout_of shape }
{
    match shape {
        Shape::Plain(form) => Layout::Plain(form),
        Shape::Record => Layout::OneOf {
            by: "kind",
            kinds: &[
                kind!("genesis", Genesis),
                kind!("block", Block),
                kind!("rewards", Rewards),
                kind!("tx", Tx),
                kind!("print", Print),
            ],
        },
        Shape::Genesis => Layout::Object(&[
            needed!("kind", Text),
            needed!("network", Network),
            needed!("slot", Slot),
            needed!("epochLength", EpochLength),
            needed!("version": GenesisVersion),
            needed!("supply", U64),
            needed!("reserves", U64),
            needed!("treasury", U64),
            needed!("params": Params),
            needed!("document", Hash32),
            maybe!("script", Hash28),
            maybe!("committee": Committee),
            needed!("outputs": GenesisOutputs),
            needed!("accounts": GenesisAccounts),
            needed!("pools": GenesisPools),
            needed!("dreps": GenesisDreps),
        ]),
        Shape::GenesisVersion => all_of!(plain!(Major), plain!(U32)),
        Shape::Params => Layout::Whole(&PARAMS),
        Shape::Committee => Layout::Object(&[
            needed!("threshold", Unit),
            needed!("members": CommitteeMembers),
        ]),
        Shape::CommitteeMembers => Layout::List(Shape::CommitteeMember),
        Shape::CommitteeMember => {
            all_of!(plain!(Credential), plain!(Slot), plain!(CredentialOrNull))
        }
        Shape::GenesisOutputs => Layout::List(Shape::GenesisOutput),
        Shape::GenesisOutput => most_of!(
            plain!(Reference),
            plain!(Address),
            plain!(U64),
            Shape::Assets
        ),
        Shape::GenesisAccounts => Layout::List(Shape::GenesisAccount),
        Shape::GenesisAccount => all_of!(
            plain!(Credential),
            plain!(U64),
            plain!(U64),
            plain!(PoolIdOrNull),
            plain!(DrepOrNull)
        ),
        Shape::GenesisPools => Layout::List(Shape::GenesisPool),
        Shape::GenesisPool => most_of!(
            plain!(PoolId),
            plain!(U64),
            plain!(U64),
            plain!(U64),
            plain!(Unit),
            plain!(Account),
            plain!(Hash32)
        ),
        Shape::GenesisDreps => Layout::List(Shape::GenesisDrep),
        Shape::GenesisDrep => all_of!(plain!(Credential), plain!(U64), plain!(Slot)),
        Shape::Block => Layout::Object(&[
            needed!("kind", Text),
            needed!("slot", Slot),
            needed!("pulse", U32),
        ]),
        Shape::Rewards => Layout::Object(&[
            needed!("kind", Text),
            needed!("epoch", U64),
            needed!("fromReserves", U64),
            needed!("fromFees", U64),
            needed!("toTreasury", U64),
            needed!("rewards": RewardList),
        ]),
        Shape::RewardList => Layout::List(Shape::Reward),
        Shape::Reward => all_of!(plain!(Credential), plain!(U64)),
        Shape::Tx => Layout::Object(&[
            needed!("kind", Text),
            needed!("id", Hash32),
            needed!("inputs": References),
            needed!("outputs": Outputs),
            needed!("fee", U64),
            needed!("size", U32),
            maybe!("scriptFee", U64),
            maybe!("witnessed", Bool),
            maybe!("scripts": Scripts),
            maybe!("from", Slot),
            maybe!("until", Slot),
            maybe!("collateral": References),
            maybe!("collateralReturn": Output),
            maybe!("mint": Mint),
            maybe!("treasury", U64),
            maybe!("donation", U64),
            maybe!("withdrawals": Withdrawals),
            maybe!("certs": Certs),
            maybe!("proposals": Proposals),
            maybe!("votes": Votes),
        ]),
        Shape::References => Layout::List(Shape::Plain(Form::Reference)),
        Shape::Outputs => Layout::List(Shape::Output),
        Shape::Output => most_of!(plain!(Address), plain!(U64), plain!(U32), Shape::Assets),
        Shape::Assets => Layout::List(Shape::Asset),
        Shape::Asset => all_of!(plain!(Hash28), plain!(AssetName), plain!(Held)),
        Shape::Scripts => Layout::Word(&["none", "ok", "failed"]),
        Shape::Mint => Layout::List(Shape::Minted),
        Shape::Minted => all_of!(plain!(Hash28), plain!(AssetName), plain!(Moved)),
        Shape::Withdrawals => Layout::List(Shape::Withdrawal),
        Shape::Withdrawal => all_of!(plain!(Account), plain!(U64)),
        Shape::Certs => Layout::List(Shape::Cert),
        Shape::Cert => Layout::OneOf {
            by: "cert",
            kinds: &[
                kind!("account-reg", AccountReg),
                kind!("account-unreg", AccountUnreg),
                kind!("delegate", Delegate),
                kind!("pool-reg", PoolReg),
                kind!("pool-retire", PoolRetire),
                kind!("drep-reg", DrepReg),
                kind!("drep-unreg", DrepUnreg),
                kind!("drep-update", DrepUpdate),
                kind!("hot-auth", HotAuth),
                kind!("hot-resign", HotResign),
            ],
        },
        Shape::AccountReg => Layout::Object(&[
            needed!("cert", Text),
            needed!("cred", Credential),
            maybe!("deposit", U64),
            maybe!("pool", PoolId),
            maybe!("drep", Drep),
        ]),
        Shape::AccountUnreg | Shape::DrepUnreg => Layout::Object(&[
            needed!("cert", Text),
            needed!("cred", Credential),
            maybe!("refund", U64),
        ]),
        Shape::Delegate => Layout::Object(&[
            needed!("cert", Text),
            needed!("cred", Credential),
            maybe!("pool", PoolId),
            maybe!("drep", Drep),
        ]),
        Shape::PoolReg => Layout::Object(&[
            needed!("cert", Text),
            needed!("pool", PoolId),
            needed!("cost", U64),
            needed!("pledge", U64),
            needed!("margin", Unit),
            needed!("account", Account),
            maybe!("key", Hash32),
        ]),
        Shape::PoolRetire => Layout::Object(&[
            needed!("cert", Text),
            needed!("pool", PoolId),
            needed!("epoch", U64),
        ]),
        Shape::DrepReg => Layout::Object(&[
            needed!("cert", Text),
            needed!("cred", Credential),
            maybe!("deposit", U64),
        ]),
        Shape::DrepUpdate => {
            Layout::Object(&[needed!("cert", Text), needed!("cred", Credential)])
        }
        Shape::HotAuth => Layout::Object(&[
            needed!("cert", Text),
            needed!("cold", Credential),
            needed!("hot", Credential),
        ]),
        Shape::HotResign => {
            Layout::Object(&[needed!("cert", Text), needed!("cold", Credential)])
        }
        Shape::Proposals => Layout::List(Shape::Proposal),
        Shape::Proposal => Layout::Object(&[
            needed!("deposit", U64),
            needed!("return", Account),
            needed!("action": Action),
        ]),
        Shape::Action => Layout::OneOf {
            by: "type",
            kinds: &[
                kind!("NoConfidence", NoConfidence),
                kind!("UpdateCommittee", UpdateCommittee),
                kind!("NewConstitution", NewConstitution),
                kind!("HardForkInitiation", HardForkInitiation),
                kind!("ParameterChange", ParameterChange),
                kind!("TreasuryWithdrawals", TreasuryWithdrawals),
                kind!("Info", Info),
            ],
        },
        Shape::NoConfidence => {
            Layout::Object(&[needed!("type", Text), maybe!("previous", ActionId)])
        }
        Shape::UpdateCommittee => Layout::Object(&[
            needed!("type", Text),
            maybe!("previous", ActionId),
            needed!("remove": Credentials),
            needed!("add": NewMembers),
            needed!("threshold", Unit),
        ]),
        Shape::Credentials => Layout::List(Shape::Plain(Form::Credential)),
        Shape::NewMembers => Layout::List(Shape::NewMember),
        Shape::NewMember => all_of!(plain!(Credential), plain!(Slot)),
        Shape::NewConstitution => Layout::Object(&[
            needed!("type", Text),
            maybe!("previous", ActionId),
            needed!("document", Hash32),
            maybe!("script", Hash28),
        ]),
        Shape::HardForkInitiation => Layout::Object(&[
            needed!("type", Text),
            maybe!("previous", ActionId),
            needed!("version": Version),
        ]),
        Shape::Version => all_of!(plain!(U32), plain!(U32)),
        Shape::ParameterChange => Layout::Object(&[
            needed!("type", Text),
            maybe!("previous", ActionId),
            needed!("update": Update),
            maybe!("policy", Hash28),
        ]),
        Shape::Update => Layout::Object(&PARAMS),
        Shape::ExUnits => all_of!(plain!(U64), plain!(U64)),
        Shape::Prices => all_of!(plain!(Ratio), plain!(Ratio)),
        Shape::PoolThresholds => all_of!(
            plain!(Unit),
            plain!(Unit),
            plain!(Unit),
            plain!(Unit),
            plain!(Unit)
        ),
        Shape::DrepThresholds => all_of!(
            plain!(Unit),
            plain!(Unit),
            plain!(Unit),
            plain!(Unit),
            plain!(Unit),
            plain!(Unit),
            plain!(Unit),
            plain!(Unit),
            plain!(Unit),
            plain!(Unit)
        ),
        Shape::TreasuryWithdrawals => Layout::Object(&[
            needed!("type", Text),
            needed!("targets": Withdrawals),
            maybe!("policy", Hash28),
        ]),
        Shape::Info => Layout::Object(&[needed!("type", Text)]),
        Shape::Votes => Layout::List(Shape::VoteRecord),
        Shape::VoteRecord => Layout::Object(&[
            needed!("voter", Voter),
            needed!("action", ActionId),
            needed!("vote": Vote),
        ]),
        Shape::Vote => Layout::Word(&["yes", "no", "abstain"]),
        Shape::Print => Layout::Object(&[needed!("kind", Text), needed!("what": What)]),
        Shape::What => Layout::Word(&["pots", "state", "assets"]),
    }
}
