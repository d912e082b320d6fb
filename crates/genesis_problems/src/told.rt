ghost use Rattle.std.specs.Prelude.{◌≡◌, ◌∷◌, [], OnOk};
ghost use Rattle.genesis_problems.specs.Problems.{told_with};

use crate::problem::GenesisProblem;
use no_memory::NoMemory;

/// Adds this problem, if it is there.
pub fn tell(
    problem: GenesisProblem,
    is_there: bool,
    told: &mut Vec<GenesisProblem>,
) -> Result<(), NoMemory>
    ensures { OnOk result (told.new.items ≡ told_with ((is_there, problem) ∷ []) told.old.items) }
{
    if is_there {
        told.push(problem)?;
    }
    Ok(())
}
