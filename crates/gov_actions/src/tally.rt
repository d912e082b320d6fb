use crate::action::ActionKind;
use gov_ids::ActionId;
use pparams::of_coin_frac::Unit;

/// Who votes on actions, in the order of a tally. (CIP-1694, Ratification)
#[derive(Clone, Copy, Debug, PartialEq, Eq)]
pub enum Role {
    /// The members of the constitutional committee.
    Committee,
    /// The DReps.
    Drep,
    /// The stake pools.
    Pool,
}

/// What a role must reach. (CIP-1694, Ratification)
#[derive(Clone, Copy, Debug, PartialEq, Eq)]
pub enum Need {
    /// No vote of this role is needed.
    Nothing,
    /// It cannot be reached.
    Never,
    /// The share of the role's total that must say yes.
    Share(Unit),
}

/// What became of a frozen proposal. (RATIFY of the formal specification)
#[derive(Clone, Copy, Debug, PartialEq, Eq)]
pub enum Verdict {
    /// The next boundary enacts it.
    Ratified,
    /// It was not ratified, and its last epoch has passed.
    Expired,
    /// Neither: it may be ratified later.
    Waiting,
}

/// The counts and needs of a frozen proposal, each by role: committee, DReps, pools.
#[derive(Clone, Copy, Debug, PartialEq, Eq)]
pub struct Tally {
    pub id: ActionId,
    pub kind: ActionKind,
    /// Yes and total: members, or lovelace.
    pub counts: [(u64, u64); 3],
    pub needs: [Need; 3],
    pub verdict: Verdict,
}
