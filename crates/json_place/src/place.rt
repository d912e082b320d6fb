ghost use Rattle.std.specs.Prelude.{◌≡◌, IfOk};
ghost use Rattle.json_place.specs.Steps.{place_of};

use crate::state::State;
use crate::step::step;
use no_memory::NoMemory;
use std::alloc::Global;

/// How many bytes are the front of a JSON text: the place of the first byte that no JSON text has
/// there, or the length. (RFC 8259; at most 127 arrays and objects within each other)
pub fn json_place(alloc: Global, line: &[u8]) -> Result<usize, NoMemory>
    ensures { IfOk result (λ place. place ≡ place_of line.now) }
{
    let mut nest = Vec::new(alloc);
    let mut state = State::Value;
    for index in 0..line.len() {
        match step(state, &mut nest, line[index])? {
            Some(next) => state = next,
            None => return Ok(index),
        }
    }
    Ok(line.len())
}
