ghost use Rattle.std.specs.Prelude.{◌≡◌, ◌≤◌, IfSome};
ghost use Rattle.load_options.specs.Numbers as numbers;
ghost use Rattle.load_options.specs.Options.{options_of};
ghost use Rattle.load_options.specs.Workers.{workers_alone, workers_of};

use crate::number::number_in;
use crate::options::{first_option, has_option, number_after};

/// The greatest number of workers.
pub const MOST_WORKERS: u32 = 64;

/// The number of workers of a text.
fn workers_in(text: &str) -> Option<u32>
    ensures workers { result ≡ numbers.number_in 1 MOST_WORKERS text.now }
    ensures some { IfSome result (λ workers. 1 ≤ workers) }
    ensures few { IfSome result (λ workers. workers ≤ MOST_WORKERS) }
{
    Some(number_in(text, 1, u64::from(MOST_WORKERS))? as u32)
}

/// The workers of options that may have other names too: `--workers N` at most once.
/// N is from 1 to `MOST_WORKERS`; without it, 1.
pub(crate) fn workers_among(words: &[String]) -> Option<u32>
    ensures workers { result ≡ workers_of (options_of words.now) }
    ensures some { IfSome result (λ workers. 1 ≤ workers) }
    ensures few { IfSome result (λ workers. workers ≤ MOST_WORKERS) }
{
    if has_option(words, "--workers") {
        workers_in(number_after(words, "--workers")?)
    } else {
        Some(1)
    }
}

/// The workers of options that have no other name: 1 without options, N for one `--workers N`.
pub(crate) fn workers_alone(options: &[String]) -> Option<u32>
    ensures workers { result ≡ workers_alone (options_of options.now) }
    ensures some { IfSome result (λ workers. 1 ≤ workers) }
    ensures few { IfSome result (λ workers. workers ≤ MOST_WORKERS) }
{
    let Some((name, number, after)) = first_option(options) else {
        return Some(1);
    };
    if name != "--workers" || !after.is_empty() {
        return None;
    }
    workers_in(number)
}
