//! What an epoch froze, of lists.
ghost use Rattle.std.specs.Prelude.{◌≡◌, IfOk};
ghost use Rattle.coin_frac.specs.declared.TheConstants.{SUPPLY_LIMIT};
ghost use Rattle.run_model.specs.SoundWorld.{AreSoundStakes, IsSoundSnapshot};
ghost use Rattle.snapshots.specs.Frozen.{frozen_copy_of};
ghost use Rattle.resumed_ledger.specs.Parts.{snapshot_in};

use book_records::Entry;
use coin_frac::NoMemory;
use frozen_lists::{Parts, frozen_of};
use gov_actions::{EnactState, HotState, Proposal};
use gov_ids::{Credential, PoolId};
use listed::{Boxed, Listed};
use snapshots::Frozen;
use state_lists::FrozenState;
use std::alloc::Global;

/// What was frozen when the epoch began, and the account entries.
pub(crate) fn frozen_parts(
    alloc: Global,
    epoch: u64,
    state: &EnactState,
    frozen: FrozenState,
    mark: &[(PoolId, u64)],
) -> Result<(Boxed<Frozen>, Listed<(Credential, Entry)>), NoMemory>
    requires snapshot { IsSoundSnapshot SUPPLY_LIMIT (snapshot_in epoch state.now mark.now frozen) }
    requires mark { AreSoundStakes SUPPLY_LIMIT mark.now }
    ensures copy { IfOk result (λ p. p.0 ≡ frozen_copy_of (snapshot_in epoch state.now mark.now frozen)) }
    ensures entries { IfOk result (λ p. p.1 ≡ frozen.entries) }
{
    let (treasury, entries, dreps, pool_accounts, hot, proposals) = frozen.into_parts();
    let start = start_of(alloc, state, treasury)?;
    let parts = parts_of(epoch, start, dreps, hot, proposals);
    let listed = entries.as_slice();
    let accounts = pool_accounts.as_slice();
    let made = frozen_of(alloc, parts, listed, mark, accounts)?;
    let copy = Boxed::new(alloc, made)?;
    Ok((copy, entries))
}

/// What is kept as it is.
fn parts_of(
    epoch: u64,
    start: EnactState,
    dreps: Listed<(Credential, u64)>,
    hot: Listed<(Credential, HotState)>,
    proposals: Listed<Proposal>,
) -> Parts
    ensures epoch { result.epoch ≡ epoch }
    ensures start { result.start ≡ start }
    ensures dreps { result.dreps.items ≡ dreps }
    ensures hot { result.hot.items ≡ hot }
    ensures proposals { result.proposals.items ≡ proposals }
{
    Parts {
        epoch,
        start,
        dreps: dreps.into_vec(),
        hot: hot.into_vec(),
        proposals: proposals.into_vec(),
    }
}

/// A copy of the state with another treasury, in lovelace.
fn start_of(alloc: Global, state: &EnactState, treasury: u64) -> Result<EnactState, NoMemory>
    ensures { IfOk result (λ start. start ≡ record state.now { treasury = treasury }) }
{
    let copy = state.copied(alloc)?;
    Ok(EnactState { treasury, ..copy })
}
