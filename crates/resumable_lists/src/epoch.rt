//! The tests of what epochs add to a state.
ghost use Rattle.std.specs.Prelude.{◌≡◌, nat_le};
ghost use Rattle.std.specs.List.{list_all};
ghost use Rattle.checkpoint_model.specs.Resumable.{is_counted_entry, is_covered, is_within_supply};
ghost use Rattle.gov_model.specs.Snapshot.{entry_count};
ghost use Rattle.ledger_model.specs.Supply.{total_of};
ghost use Rattle.maps.specs.Words.{none_or};
ghost use Rattle.state_lists.specs.Worlds.{frozen_of_lists, ledger_of_lists, world_of_lists};
ghost use Rattle.resumable_lists.specs.Sound.{is_sound_epoch};

use resume_checks::are_counted_entries;
use state_lists::StateLists;
use tx_records::Rewards;

/// Whether an update is of the epoch, balanced, and covered.
fn is_covered_now(state: &StateLists, update: &Rewards) -> bool
    ensures { result ≡ is_covered (ledger_of_lists state.now) update.now }
{
    let pots = &state.pots;
    resume_checks::is_covered(state.clock.epoch, pots.reserves, pots.fees, update)
}

/// Whether a pending update, if there is one, is of the epoch, balanced, and covered.
fn is_covered(state: &StateLists) -> bool
    ensures { result ≡ none_or (is_covered (ledger_of_lists state.now)) state.now.pending }
{
    match &state.pending {
        Some(update) => is_covered_now(state, update),
        None => true,
    }
}

/// Whether each snapshot of pools, the noted fees, and what is frozen are each at most the supply.
fn is_within_supply(state: &StateLists, supply: u64) -> bool
    requires { supply ≡ total_of state.now.pots }
    ensures { result ≡ is_within_supply (world_of_lists state.now) }
{
    let frozen = &state.frozen;
    resume_checks::is_within_supply(
        supply,
        &state.stakes,
        frozen.entries.as_slice(),
        frozen.proposals.as_slice(),
    )
}

/// Whether each frozen entry is registered or has output stake.
fn are_counted(state: &StateLists) -> bool
    ensures { result ≡ list_all is_counted_entry state.now.frozen.entries }
{
    are_counted_entries(state.frozen.entries.as_slice())
}

/// Whether no more entries were counted than there are.
fn is_counted_within(state: &StateLists) -> bool
    ensures { result ≡ nat_le state.now.counted (entry_count (frozen_of_lists state.now)) }
{
    state.counted <= state.frozen.entries.len() as u64
}

/// Whether the treasury has not lost since the epoch began.
fn has_kept_treasury(state: &StateLists) -> bool
    ensures { result ≡ nat_le state.now.frozen.treasury state.now.state.treasury }
{
    state.frozen.treasury <= state.state.treasury
}

/// Whether what epochs add passes all of its tests.
pub(crate) fn is_sound_epoch(state: &StateLists, supply: u64) -> bool
    requires { supply ≡ total_of state.now.pots }
    ensures { result ≡ is_sound_epoch (world_of_lists state.now) }
{
    is_covered(state)
        && is_within_supply(state, supply)
        && are_counted(state)
        && is_counted_within(state)
        && has_kept_treasury(state)
}
