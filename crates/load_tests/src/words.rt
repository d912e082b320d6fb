//! The words of the command, good ones and wrong ones.
use load_options::{Command, LoadCommand, command_of};
use no_memory::NoMemory;
use std::alloc::Global;
use std::test::Fail;

/// The words of a text: each ends at a space, so an empty one is between two spaces.
fn words_of(alloc: Global, text: &str) -> Result<Vec<String>, NoMemory> {
    let mut words = Vec::new(alloc);
    for word in text.split(' ') {
        words.push(String::from_str(alloc, word)?)?;
    }
    Ok(words)
}

/// What the words of a text ask for.
fn asked(alloc: Global, text: &str) -> Result<Option<LoadCommand>, NoMemory> {
    match command_of(words_of(alloc, text)?.as_slice()) {
        Some(Command::Load(command)) => Ok(Some(command)),
        _ => Ok(None),
    }
}

/// Words of a replay, with the number of workers, and words that are none.
const REPLAYS: [(&str, Option<u32>); 18] = [
    ("replay", Some(1)),
    ("replay --workers 1", Some(1)),
    ("replay --workers 64", Some(64)),
    ("replay --workers=64", Some(64)),
    ("replay --workers=08", Some(8)),
    ("", None),
    ("load", None),
    ("Replay", None),
    ("replay x", None),
    ("replay --workers", None),
    ("replay --workers=", None),
    ("replay --workers 0", None),
    ("replay --workers 65", None),
    ("replay --workers 2 --workers 2", None),
    ("replay --workers=2 --workers=2", None),
    ("replay --workers 2 x", None),
    ("replay --seed 2", None),
    ("--workers 2 replay", None),
];

/// Good words, with their numbers.
const GOOD: [(&str, u64, u32, u32, u32); 14] = [
    ("load --seed 7 --accounts 4 --epochs 2", 7, 4, 2, 1),
    ("load --seed 7 --epochs 2 --accounts 4", 7, 4, 2, 1),
    ("load --accounts 4 --seed=7 --epochs 2", 7, 4, 2, 1),
    ("load --accounts=4 --epochs=2 --seed 7", 7, 4, 2, 1),
    ("load --epochs 2 --seed 7 --accounts=4", 7, 4, 2, 1),
    ("load --epochs=2 --accounts=4 --seed=7", 7, 4, 2, 1),
    (
        "load --seed 1 --accounts 100000 --epochs 5",
        1,
        100_000,
        5,
        1,
    ),
    ("load --seed 0 --accounts 1 --epochs 1", 0, 1, 1, 1),
    (
        "load --seed 18446744073709551615 --accounts 1000000 --epochs 100",
        18_446_744_073_709_551_615,
        1_000_000,
        100,
        1,
    ),
    (
        "load --seed 00000000000000000007 --accounts=00000000000000000004 --epochs 02",
        7,
        4,
        2,
        1,
    ),
    (
        "load --seed 7 --accounts 4 --epochs 2 --workers 1",
        7,
        4,
        2,
        1,
    ),
    (
        "load --workers 64 --seed 7 --accounts 4 --epochs 2",
        7,
        4,
        2,
        64,
    ),
    (
        "load --seed 7 --workers=8 --accounts 4 --epochs 2",
        7,
        4,
        2,
        8,
    ),
    (
        "load --seed=7 --accounts=4 --workers=2 --epochs=2",
        7,
        4,
        2,
        2,
    ),
];

/// Words that are no load command.
const WRONG: [&str; 40] = [
    "",
    "load",
    "replay",
    "Load --seed 7 --accounts 4 --epochs 2",
    "--seed 7 --accounts 4 --epochs 2",
    "load load --seed 7 --accounts 4 --epochs 2",
    "load --accounts 4 --epochs 2",
    "load --seed 7 --epochs 2",
    "load --seed 7 --accounts 4",
    "load --seed 7 --accounts 4 --epochs",
    "load --seed --accounts 4 --epochs 2",
    "load --seed 7 --accounts 4 --epochs 2 --seed 7",
    "load --seed=7 --accounts 4 --epochs 2 --seed=7",
    "load --seed 7 --accounts 4 --accounts=4 --epochs 2",
    "load --seed 7 --accounts 4 --epochs 2 --epochs 2",
    "load --seed 7 --accounts 4 --epochs 2 7",
    "load --seed 7 --accounts 4 --epochs 2 --slots 7",
    "load --seed 7 --accounts 4 --epochs 2 --slots=7",
    "load --seed 7 --accounts 4 --epochs 2 --workers",
    "load --seed 7 --accounts 4 --epochs 2 --workers 0",
    "load --seed 7 --accounts 4 --epochs 2 --workers 65",
    "load --seed 7 --accounts 4 --epochs 2 --workers 1 --workers 1",
    "load --seed 7 --accounts 4 --workers 1",
    "load --seed 000000000000000000007 --accounts 4 --epochs 2",
    "load --seed 18446744073709551616 --accounts 4 --epochs 2",
    "load --seed 7 --accounts 0 --epochs 2",
    "load --seed 7 --accounts 1000001 --epochs 2",
    "load --seed 7 --accounts 4 --epochs 0",
    "load --seed 7 --accounts 4 --epochs 101",
    "load --seed  --accounts 4 --epochs 2",
    "load --seed= --accounts 4 --epochs 2",
    "load --seed +7 --accounts 4 --epochs 2",
    "load --seed -7 --accounts 4 --epochs 2",
    "load --seed=+7 --accounts 4 --epochs 2",
    "load --seed 7 --accounts 4a --epochs 2",
    "load --seed 7 --accounts 4=4 --epochs 2",
    "load --seed == --accounts 4 --epochs 2",
    "load -seed 7 --accounts 4 --epochs 2",
    "load --Seed 7 --accounts 4 --epochs 2",
    "load seed 7 accounts 4 epochs 2",
];

/// Words of each command, and words of none.
const COMMANDS: [(&str, Option<Command>); 29] = [
    ("replay", Some(Command::Replay { workers: 1 })),
    ("replay --workers 2", Some(Command::Replay { workers: 2 })),
    ("checkpoint", Some(Command::Checkpoint { workers: 1 })),
    (
        "checkpoint --workers=64",
        Some(Command::Checkpoint { workers: 64 }),
    ),
    ("resume", Some(Command::Resume { workers: 1 })),
    ("resume --workers 3", Some(Command::Resume { workers: 3 })),
    ("certify", Some(Command::Certify { workers: 1 })),
    ("certify --workers 4", Some(Command::Certify { workers: 4 })),
    ("check", Some(Command::Check)),
    ("shortfall", Some(Command::Shortfall { workers: 1 })),
    (
        "shortfall --workers=05",
        Some(Command::Shortfall { workers: 5 }),
    ),
    ("follow", Some(Command::Follow { workers: 1 })),
    ("follow --workers 6", Some(Command::Follow { workers: 6 })),
    ("outlook", Some(Command::Outlook { workers: 1 })),
    ("outlook --workers=7", Some(Command::Outlook { workers: 7 })),
    ("explain", Some(Command::Explain { workers: 1 })),
    (
        "explain --workers 64",
        Some(Command::Explain { workers: 64 }),
    ),
    ("check --workers 1", None),
    ("check x", None),
    ("check ", None),
    ("checkpoint x", None),
    ("resume --workers 65", None),
    ("certify --workers 2 --workers 2", None),
    ("shortfall --workers", None),
    ("follow --seed 7", None),
    ("outlook 2", None),
    ("load", None),
    ("Check", None),
    ("", None),
];

#[test]
fn commands(rt: HostRuntime) -> Result<(), Fail> {
    for (text, command) in COMMANDS {
        let words = words_of(rt.alloc(), text)?;
        assert_eq!(rt; command_of(words.as_slice()), command, "{text}");
    }
    Ok(())
}

#[test]
fn good_words(rt: HostRuntime) -> Result<(), Fail> {
    for (text, seed, accounts, epochs, workers) in GOOD {
        let want = Some(LoadCommand {
            seed,
            accounts,
            epochs,
            workers,
        });
        assert_eq!(rt; asked(rt.alloc(), text)?, want, "{text}");
    }
    Ok(())
}

#[test]
fn replays(rt: HostRuntime) -> Result<(), Fail> {
    for (text, workers) in REPLAYS {
        let words = words_of(rt.alloc(), text)?;
        let want = match workers {
            Some(workers) => Some(Command::Replay { workers }),
            None => None,
        };
        assert_eq!(rt; command_of(words.as_slice()), want, "{text}");
    }
    Ok(())
}

#[test]
fn wrong_words(rt: HostRuntime) -> Result<(), Fail> {
    for text in WRONG {
        assert_eq!(rt; asked(rt.alloc(), text)?, None, "{text}");
    }
    Ok(())
}
