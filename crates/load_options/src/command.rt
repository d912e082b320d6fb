ghost use Rattle.std.specs.Prelude.{◌≡◌, IfSome};
ghost use Rattle.load_options.specs.Command.{IsWithin, command_of_options, value_of};
ghost use Rattle.load_options.specs.Options.{options_of};

use crate::number::number_in;
use crate::options::{are_known, number_after};
use crate::workers::workers_among;

/// The greatest number of accounts.
pub const MOST_ACCOUNTS: u32 = 1_000_000;
/// The greatest number of epochs.
pub const MOST_EPOCHS: u32 = 100;

/// The numbers of the command `load`. (Own)
/// The first three define the benchmark stream; the workers share the counts of its replay.
#[derive(Clone, Copy, Debug, PartialEq, Eq)]
pub struct LoadCommand {
    pub seed: u64,
    /// 1 to `MOST_ACCOUNTS`.
    pub accounts: u32,
    /// 1 to `MOST_EPOCHS`.
    pub epochs: u32,
    /// 1 to `MOST_WORKERS`.
    pub workers: u32,
}

/// The number after a name that occurs once among the options, if it is from `low` to `high`.
fn value_after(words: &[String], name: &str, low: u64, high: u64) -> Option<u64>
    ensures { result ≡ value_of name.now low high (options_of words.now) }
{
    number_in(number_after(words, name)?, low, high)
}

/// The numbers of a `load`: three names once each, the workers at most once, and no other name.
pub(crate) fn load_among(options: &[String]) -> Option<LoadCommand>
    ensures command { result ≡ command_of_options (options_of options.now) }
    ensures within { IfSome result IsWithin }
{
    if !are_known(options) {
        return None;
    }
    let seed = value_after(options, "--seed", 0, u64::MAX)?;
    let accounts = value_after(options, "--accounts", 1, u64::from(MOST_ACCOUNTS))?;
    let epochs = value_after(options, "--epochs", 1, u64::from(MOST_EPOCHS))?;
    let workers = workers_among(options)?;
    Some(LoadCommand {
        seed,
        accounts: accounts as u32,
        epochs: epochs as u32,
        workers,
    })
}
