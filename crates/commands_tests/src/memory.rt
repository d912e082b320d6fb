//! Runs over memory, where no read and no write fails, and runs of unknown ending.
ghost use Rattle.std.specs.Prelude.{◌≡◌, ◌≢◌, ◌<◌, ◌≤◌, ◌⊎◌, IfOk, None, Some, length};
ghost use Rattle.command_runs.specs.Tasks.{IsReplayCommand};
ghost use Rattle.tx_records.specs.declared.limits.TheConstants.{STREAM_LIMIT};
ghost use Rattle.record_stream.specs.Records.{records_of};
ghost use Rattle.replay_loop.specs.Runs.{start_fault, text_of_run};

use byte_lines::{MemorySink, MemorySource, Sink, Source, whole_lines};
use commands::{Crew, Status, run};
use hash_seed::HashSeed;
use no_memory::NoMemory;
use par_count::{Gate, OpenGate};
use std::alloc::Global;
use std::thread::Threads;

/// Words of a command, each after a space.
fn words_of(alloc: Global, text: &str) -> Result<Vec<String>, NoMemory> {
    let mut words = Vec::new(alloc);
    for word in text.split_ascii_whitespace() {
        words.push(String::from_str(alloc, word)?)?;
    }
    Ok(words)
}

/// How a run ends, whose words are those of a text and whose workers enter a gate.
pub fn ran_through<R: Threads + Sync, S: Source, K: Sink, G: Gate + Sync>(
    rt: &R,
    alloc: Global,
    text: &str,
    source: &mut S,
    sink: &mut K,
    gate: &G,
) -> Result<Status, NoMemory> {
    let words = words_of(alloc, text)?;
    let seed = HashSeed::new(1, 2);
    let crew = Crew {
        alloc,
        rt,
        gate,
        seed,
    };
    Ok(run(&crew, words.as_slice(), source, sink))
}

/// How a run ends, whose words are those of a text.
pub fn ran<R: Threads + Sync, S: Source, K: Sink>(
    rt: &R,
    alloc: Global,
    text: &str,
    source: &mut S,
    sink: &mut K,
) -> Result<Status, NoMemory> {
    ran_through(rt, alloc, text, source, sink, &OpenGate)
}

/// The word of a replay.
fn replay_words(alloc: Global) -> Result<Vec<String>, NoMemory>
    ensures { IfOk result (λ words. IsReplayCommand words.items) }
{
    let mut words = Vec::new(alloc);
    words.push(String::from_str(alloc, "replay")?)?;
    Ok(words)
}

/// How a replay over memory ends, one read giving at most `part` bytes, and what it wrote.
pub fn replayed_in_memory<R: Threads + Sync>(
    rt: &R,
    alloc: Global,
    bytes: &[u8],
    part: usize,
) -> Result<(Status, MemorySink), NoMemory>
    requires { 0 < part }
    ensures no_usage { IfOk result (λ r. r.0 ≢ Status.Usage) }
    ensures no_read_fault { IfOk result (λ r. r.0 ≢ Status.ReadFault) }
    ensures no_write_fault { IfOk result (λ r. r.0 ≢ Status.WriteFault) }
    ensures done { IfOk result (λ r. r.0 ≡ Status.Done → text_of_run bytes.now ≡ Some r.1) }
    ensures complete { start_fault (records_of bytes.now) ≡ None → length bytes.now ≤ STREAM_LIMIT →
        IfOk result (λ r. (r.0 ≡ Status.Done) ⊎ (r.0 ≡ Status.NoMemory)) }
{
    // (laws: how bytes are cut into lines)
    whole_lines();
    // (laws: how an explanation ends, a followed stream, and a resumed one)
    explain_loop::laws();
    follow_loop::laws();
    resume_laws::laws();
    let words = replay_words(alloc)?;
    let mut source = MemorySource::new(bytes, part);
    let mut sink = MemorySink::new(alloc);
    let crew = Crew {
        alloc,
        rt,
        gate: &OpenGate,
        seed: HashSeed::new(1, 2),
    };
    let status = run(&crew, words.as_slice(), &mut source, &mut sink);
    Ok((status, sink))
}
