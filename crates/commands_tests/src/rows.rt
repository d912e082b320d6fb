//! Rows with the text that each must give.
ghost use Rattle.std.specs.Prelude.{◌<◌};

use crate::memory::{ran, replayed_in_memory};
use crate::streams::{ROW, ROW_TEXT, stream};
use byte_lines::{MemorySink, MemorySource};
use commands::{GenesisCause, Status};
use no_memory::NoMemory;
use std::alloc::Global;
use std::test::Fail;
use std::thread::Threads;
use tx_records::{FieldName, GenesisRule};

/// Streams, how each ends, and what was written: the worked row; line ends, blank lines, an unnamed
/// float, equal names (the later counts), a block, minted and burned assets, prints; streams with
/// no ledger, each with the cause.
fn rows() -> [(&'static str, Status, &'static str); 14] {
    [
        (ROW, Status::Done, ROW_TEXT),
        (
            "f\np\n",
            Status::Done,
            "1 genesis outputs 0 deposits 0 rewards 0 fees 0 donations 0 treasury 0 reserves 9 supply 9\n2 pots outputs 0 deposits 0 rewards 0 fees 0 donations 0 treasury 0 reserves 9 supply 9\n",
        ),
        (
            "e",
            Status::Done,
            "1 genesis outputs 0 deposits 0 rewards 0 fees 0 donations 0 treasury 0 reserves 7 supply 7\n",
        ),
        (
            "\n\r\ng\r\n \t\n p\r",
            Status::Done,
            "3 genesis outputs 0 deposits 0 rewards 0 fees 0 donations 0 treasury 0 reserves 9 supply 9\n5 pots outputs 0 deposits 0 rewards 0 fees 0 donations 0 treasury 0 reserves 9 supply 9\n",
        ),
        (
            "G\n5\np\n",
            Status::Done,
            "1 genesis outputs 200 deposits 0 rewards 0 fees 0 donations 0 treasury 100 reserves 700 supply 1000\n2 accepted\n3 pots outputs 180 deposits 0 rewards 0 fees 15 donations 5 treasury 100 reserves 700 supply 1000\n",
        ),
        (
            "G\nn\nl\nk\na\n",
            Status::Done,
            "1 genesis outputs 200 deposits 0 rewards 0 fees 0 donations 0 treasury 100 reserves 700 supply 1000\n2 accepted\n3 refused 111 AssetNotBalanced at 0 consumed 7 produced 5\n4 accepted\n5 asset-total 00000000000000000000000000000000000000000000000000000005 - 5\n",
        ),
        (
            "g\nb\n",
            Status::Done,
            "1 genesis outputs 0 deposits 0 rewards 0 fees 0 donations 0 treasury 0 reserves 9 supply 9\n2 block slot 1 epoch 0 counted 0 of 0\n",
        ),
        (
            "g\n2",
            Status::Done,
            "1 genesis outputs 0 deposits 0 rewards 0 fees 0 donations 0 treasury 0 reserves 9 supply 9\n2 refused 33 InputMissing at 0\n",
        ),
        ("", Status::BadGenesis(GenesisCause::Missing), ""),
        ("\n \t\r\n", Status::BadGenesis(GenesisCause::Missing), ""),
        (
            "\nw\n2\n",
            Status::BadGenesis(GenesisCause::Broken(GenesisRule::SumWrong)),
            "",
        ),
        ("p\nG\n", Status::BadGenesis(GenesisCause::NoGenesis), ""),
        ("2\nG\n", Status::BadGenesis(GenesisCause::NoGenesis), ""),
        (
            "x\nG\n",
            Status::BadGenesis(GenesisCause::Malformed {
                what: FieldName::Json,
                place: None,
            }),
            "",
        ),
    ]
}

/// How the replay of a stream ends, one read giving at most `part` bytes, and what it wrote.
fn given<R: Threads + Sync>(
    rt: &R,
    alloc: Global,
    shape: &str,
    part: usize,
) -> Result<(Status, MemorySink), NoMemory>
    requires { 0 < part }
{
    let bytes = stream(alloc, shape)?;
    replayed_in_memory(rt, alloc, bytes.as_slice(), part)
}

/// Each stream, in parts of several sizes.
#[test]
fn gives_these_texts(rt: HostRuntime) -> Result<(), Fail> {
    for (shape, want, text) in rows() {
        for part in [1, 2, 7, 65_536] {
            let (status, sink) = given(&rt, rt.alloc(), shape, part)?;
            assert_eq!(rt; status, want, "{shape} in parts of {part}");
            assert_eq!(rt;
                sink.as_slice(),
                text.as_bytes(),
                "{shape} in parts of {part}"
            );
        }
    }
    Ok(())
}

/// Each stream byte by byte, with several workers.
#[test]
fn gives_them_with_workers(rt: HostRuntime) -> Result<(), Fail> {
    for (shape, want, text) in rows() {
        let bytes = stream(rt.alloc(), shape)?;
        for words in [
            "replay --workers 2",
            "replay --workers=3",
            "replay --workers 64",
        ] {
            let mut source = MemorySource::new(bytes.as_slice(), 1);
            let mut sink = MemorySink::new(rt.alloc());
            let status = ran(&rt, rt.alloc(), words, &mut source, &mut sink)?;
            assert_eq!(rt;
                (status, sink.as_slice()),
                (want, text.as_bytes()),
                "{shape} by {words}"
            );
        }
    }
    Ok(())
}

/// Words of no command: nothing is read or written, so the next run has it all.
#[test]
fn leaves_all_for_wrong_words(rt: HostRuntime) -> Result<(), Fail> {
    let bytes = stream(rt.alloc(), ROW)?;
    let mut source = MemorySource::new(bytes.as_slice(), 65_536);
    let mut sink = MemorySink::new(rt.alloc());
    for text in ["", "Replay", "replays", "replay replay", "replay x", "x"] {
        let status = ran(&rt, rt.alloc(), text, &mut source, &mut sink)?;
        assert_eq!(rt; status, Status::Usage, "{text}");
        assert!(rt; sink.as_slice().is_empty(), "{text}");
    }
    let status = ran(&rt, rt.alloc(), "replay", &mut source, &mut sink)?;
    assert_eq!(rt; status, Status::Done);
    assert_eq!(rt; sink.as_slice(), ROW_TEXT.as_bytes());
    Ok(())
}
