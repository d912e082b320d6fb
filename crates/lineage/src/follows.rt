ghost use Rattle.std.specs.Prelude.{◌≡◌};
ghost use Rattle.gov_actions.specs.declared.action.Purpose.TheVariants.{HardFork};
ghost use Rattle.maps.specs.Words.{some_and};
ghost use Rattle.gov_model.specs.Lineage.{is_last_enacted, is_live_of, may_follow, previous_version, is_next_version, follows_version};

use gov_actions::{Action, EnactState, LastIds, Purpose};
use gov_ids::ActionId;
use proposal_store::ProposalStore;

/// Whether the action follows the last enacted action of its purpose, or a live proposal of it.
/// An action without a purpose follows nothing, and may come.
/// (CIP-1694, Governance actions: Content; GOV of the formal specification)
pub fn may_follow(store: &ProposalStore, last: &LastIds, a: &Action) -> bool
    ensures { result ≡ may_follow store.now last.now a.now }
{
    let previous = a.previous();
    match a.purpose() {
        Some(purpose) => {
            is_last_enacted(last, purpose, previous) || names_live(store, purpose, previous)
        }
        None => true,
    }
}

/// Whether a hard fork's version is the next major one after the version that it follows, or the
/// next minor one of the same major. Another action has no version, and follows.
/// (CIP-1694, Governance actions: Content; GOV of the formal specification)
pub fn follows_version(store: &ProposalStore, state: &EnactState, a: &Action) -> bool
    ensures { result ≡ follows_version store.now state.now.last state.now.version a.now }
{
    let Action::HardForkInitiation { previous, version } = a else {
        return true;
    };
    match parent_version(store, state, *previous) {
        Some(old) => is_next_version(old, *version),
        None => true,
    }
}

// Whether it is the last enacted action of the purpose.
fn is_last_enacted(last: &LastIds, purpose: Purpose, previous: Option<ActionId>) -> bool
    ensures { result ≡ is_last_enacted last.now purpose previous }
{
    previous == last.of(purpose)
}

// Whether an action is named, and it is a live proposal of the purpose.
fn names_live(store: &ProposalStore, purpose: Purpose, previous: Option<ActionId>) -> bool
    ensures { result ≡ some_and (is_live_of store.now purpose) previous }
{
    let Some(id) = previous else {
        return false;
    };
    match store.get(&id) {
        Some(p) => p.action().purpose() == Some(purpose),
        None => false,
    }
}

// The version that a hard fork with this previous action follows: major, minor.
fn parent_version(
    store: &ProposalStore,
    state: &EnactState,
    previous: Option<ActionId>,
) -> Option<(u32, u32)>
    ensures { result ≡
        previous_version (is_last_enacted state.now.last HardFork previous) store.now state.now.version previous }
{
    if is_last_enacted(&state.last, Purpose::HardFork, previous) {
        return Some(state.version);
    }
    let p = store.get(&previous?)?;
    match p.action() {
        Action::HardForkInitiation { version, .. } => Some(*version),
        _ => None,
    }
}

// Whether a version is one on from another.
fn is_next_version(old: (u32, u32), new: (u32, u32)) -> bool
    ensures { result ≡ is_next_version old new }
{
    let major = old.0.checked_add(1) == Some(new.0) && new.1 == 0;
    let minor = old.0 == new.0 && old.1.checked_add(1) == Some(new.1);
    major || minor
}
