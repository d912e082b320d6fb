//! The clock, and how the chain is governed.
ghost use Rattle.std.specs.Prelude.{IfOk};
ghost use Rattle.shown_lists.specs.Only.{IsOnly};
ghost use Rattle.told_lists.specs.Parts.{IsClock, IsGoverned, clock_shown, governed_shown};

use checkpoint_lists::Governance;
use committee_rows::governing_of;
use gov_actions::{EnactState, HotState};
use gov_ids::Credential;
use listed::Listed;
use no_memory::NoMemory;
use pparams::Params;
use resume_checks::Clock;
use std::alloc::Global;
use tx_records::limits::{LEAST_MAJOR, NETWORK_LIMIT};

/// Where the chain is, and how it is governed.
#[derive(Drop)]
pub(crate) struct Governed {
    /// The number of the line after which the checkpoint was made.
    pub line: u64,
    /// How many frozen entries were counted.
    pub counted: u64,
    pub clock: Clock,
    pub state: EnactState,
}

/// The clock of the first line of a checkpoint (line, network, length of an epoch in slots, count)
/// and of the next one (slot, epoch, version, dormant count), if its numbers are in their ranges.
fn clock_of(head: &(u64, u64, u64, u64), now: &(u64, u64, (u32, u32), u64)) -> Option<Clock>
    ensures { IsOnly IsClock clock_shown ((head.now.1, head.now.2), (now.now.0, now.now.1, now.now.3)) result }
{
    let network = u8::try_from(head.1).ok()?;
    let epoch_length = u32::try_from(head.2).ok()?;
    if network >= NETWORK_LIMIT {
        return None;
    }
    Some(Clock {
        network,
        epoch_length,
        slot: now.0,
        epoch: now.1,
        dormant: now.3,
    })
}

/// The clock and the state with these parameters and this treasury in lovelace, and what cold keys
/// authorized, in order of the keys, if these lines show such. `NoMemory` may come at any time.
pub(crate) fn governed_of(
    alloc: Global,
    governance: Governance,
    params: Params,
    treasury: u64,
) -> Result<Option<(Governed, Listed<(Credential, HotState)>)>, NoMemory>
    ensures { IfOk result (IsOnly IsGoverned governed_shown (governance, params, treasury)) }
{
    let Governance {
        head,
        now,
        constitution,
        threshold,
        members,
        hot,
        last,
    } = governance;
    let version = now.2;
    if version.0 < LEAST_MAJOR {
        return Ok(None);
    }
    let Some(clock) = clock_of(&head, &now) else {
        return Ok(None);
    };
    let Some((committee, hot)) = governing_of(alloc, threshold, members.as_slice(), hot.as_slice())?
    else {
        return Ok(None);
    };
    let (document, script) = constitution;
    let state = EnactState {
        params,
        version,
        committee,
        document,
        script,
        last,
        treasury,
    };
    let governed = Governed {
        line: head.0,
        counted: head.3,
        clock,
        state,
    };
    Ok(Some((governed, Listed::from_vec(hot))))
}
