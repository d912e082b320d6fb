ghost use Rattle.std.specs.Prelude.{◌≡◌, IfSome};
ghost use Rattle.load_options.specs.Table.{IsInTable, check_alone, command_of};

use crate::command::{LoadCommand, load_among};
use crate::workers::workers_alone;

/// A command with its numbers. (Own)
/// `workers`, 1 to `MOST_WORKERS`, share the counts of its boundaries.
#[derive(Clone, Copy, Debug, PartialEq, Eq)]
pub enum Command {
    /// Reads records and writes their text.
    Replay { workers: u32 },
    /// Replays a benchmark stream and writes its summary.
    Load(LoadCommand),
    /// Reads records and writes the state after them.
    Checkpoint { workers: u32 },
    /// Reads such a state and then records, and writes their text.
    Resume { workers: u32 },
    /// Reads records and writes a certificate at each boundary.
    Certify { workers: u32 },
    /// Reads certificates and reports for each whether it is right.
    Check,
    /// Reads records and writes the fewest further votes that each proposal needs.
    Shortfall { workers: u32 },
    /// Reads records and rollbacks and writes their text.
    Follow { workers: u32 },
    /// Reads records and writes the tallies of the next two boundaries, as if no more came.
    Outlook { workers: u32 },
    /// Reads records and writes every rule that each breaks, and all that is wrong with a genesis.
    Explain { workers: u32 },
}

/// The command `check`, if no word is after it.
fn check_alone(options: &[String]) -> Option<Command>
    ensures { result ≡ check_alone options.now }
{
    if options.is_empty() {
        Some(Command::Check)
    } else {
        None
    }
}

/// The word of a command, then `--workers N` at most once, as one word or two. (Own)
/// N is from 1 to `MOST_WORKERS`; without it, 1. `check` has no words after it.
/// `load` has `--seed S`, `--accounts A`, `--epochs E` once each, and the workers, in any order: S
/// is below 2^64, A 1 to `MOST_ACCOUNTS`, E 1 to `MOST_EPOCHS`; a number has 1 to 20 digits.
pub fn command_of(words: &[String]) -> Option<Command>
    ensures command { result ≡ command_of words.now }
    ensures within { IfSome result IsInTable }
{
    let (word, options) = words.split_first()?;
    match word.as_str() {
        "replay" => Some(Command::Replay {
            workers: workers_alone(options)?,
        }),
        "load" => Some(Command::Load(load_among(options)?)),
        "checkpoint" => Some(Command::Checkpoint {
            workers: workers_alone(options)?,
        }),
        "resume" => Some(Command::Resume {
            workers: workers_alone(options)?,
        }),
        "certify" => Some(Command::Certify {
            workers: workers_alone(options)?,
        }),
        "check" => check_alone(options),
        "shortfall" => Some(Command::Shortfall {
            workers: workers_alone(options)?,
        }),
        "follow" => Some(Command::Follow {
            workers: workers_alone(options)?,
        }),
        "outlook" => Some(Command::Outlook {
            workers: workers_alone(options)?,
        }),
        "explain" => Some(Command::Explain {
            workers: workers_alone(options)?,
        }),
        _ => None,
    }
}
