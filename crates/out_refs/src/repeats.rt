// Finds the first repeated reference: pair by pair in a short list, with a set in a longer one.
ghost use Rattle.std.specs.Prelude.{◌≡◌, IfOk, take};
ghost use Rattle.gov_ids.specs.Same.{same_outref};
ghost use Rattle.gov_ids.specs.of_maps.Words.{among};
ghost use Rattle.out_refs.specs.Repeated.{first_repeated};

use gov_ids::OutRef;
use gov_ids::of_no_memory::NoMemory;
use std::alloc::Global;
use std::collections::BTreeSet;

// The longest list that is compared pair by pair, without memory.
const SHORT: usize = 8;

/// The place, from 0, of the first reference that is in the list before it too.
pub fn first_repeated(alloc: Global, refs: &[OutRef]) -> Result<Option<usize>, NoMemory>
    ensures { IfOk result (λ place. place ≡ first_repeated refs.now) }
{
    if refs.len() <= SHORT {
        return Ok(by_looking_back(refs));
    }
    by_a_set(alloc, refs)
}

// Compares each reference with those before it. It takes no memory.
fn by_looking_back(refs: &[OutRef]) -> Option<usize>
    ensures { result ≡ first_repeated refs.now }
{
    for (place, at) in refs.iter().enumerate() {
        if stands_before(refs, place, at) {
            return Some(place);
        }
    }
    None
}

// Whether a reference is among the first `place` ones.
fn stands_before(refs: &[OutRef], place: usize, sought: &OutRef) -> bool
    ensures { result ≡ among same_outref sought.now (take place refs.now) }
{
    refs.iter().take(place).any(|at| sought == at)
}

// Puts each reference into a set, until one is in it already.
fn by_a_set(alloc: Global, refs: &[OutRef]) -> Result<Option<usize>, NoMemory>
    ensures { IfOk result (λ place. place ≡ first_repeated refs.now) }
{
    let mut seen = BTreeSet::new(alloc);
    for (place, at) in refs.iter().enumerate() {
        if !seen.insert(*at)? {
            return Ok(Some(place));
        }
    }
    Ok(None)
}
