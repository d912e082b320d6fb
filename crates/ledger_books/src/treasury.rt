ghost use Rattle.std.specs.Prelude.{◌≡◌, IfOk};

use coin_frac::NoMemory;
use committee_book::of_gov_actions::EnactState;
use listed::Boxed;
use std::alloc::Global;

/// The state with another treasury, in lovelace; all else stays.
/// (EnactState of the formal specification)
pub fn with_treasury(
    alloc: Global,
    state: Boxed<EnactState>,
    treasury: u64,
) -> Result<Boxed<EnactState>, NoMemory>
    ensures { IfOk result (λ s. s ≡ record state { treasury = treasury }) }
{
    let state = EnactState {
        treasury,
        ..state.into_value()
    };
    Ok(Boxed::new(alloc, state)?)
}
