//! What a wallet asks of the library: will this be accepted, and if not, why? It reads a genesis
//! from standard input. It asks about a transfer with too small a fee and with the least one, and a
//! governance transaction before and after the hard fork it votes on. See docs/use/library.md.
#![tactic(auto)]

mod ask;
mod governance;
mod parts;
mod start;
mod transfer;

ghost use Rattle.std.specs.Prelude.{◌≡◌, Err, IfOk, false};
ghost use Rattle.tx_records.specs.TxLimits.{is_within_limits};
ghost use Rattle.wallet.specs.Asking.{after_answer, answer_line};
ghost use Rattle.wallet.specs.Questions.{asked_by};

use ask::{AskFault, Asked, SendFault};
use governance::{governance, hard_fork};
use hash_seed::HashSeed;
use no_memory::NoMemory;
use report::reply_line;
use start::ledger_of;
use std::alloc::Global;
use std::io::{self, Write};
use transfer::transfer;
use tx_records::{Reply, Tx};

/// How many transactions are asked about.
const QUESTIONS: u64 = 5;

/// The transaction that is asked about by a question.
fn transaction(alloc: Global, question: u64) -> Result<Tx, NoMemory>
    ensures { IfOk result (λ tx. tx ≡ asked_by question) }
{
    match question {
        1 => transfer(alloc, 300),
        2 => transfer(alloc, 400),
        4 => hard_fork(alloc),
        _ => governance(alloc),
    }
}

/// Writes the answer about a transaction as a line into the buffer, which loses what it held.
/// Returns what to ask next: a transaction that would be accepted is sent.
fn answer_about<A: Asked + Drop>(
    alloc: Global,
    asked: A,
    question: u64,
    tx: &Tx,
    text: &mut Vec<u8>,
) -> Result<A, SendFault>
    ensures text { IfOk result (λ _. text.new.items ≡ answer_line question (A.world asked) tx.now) }
    ensures next { IfOk result (λ next. A.world next ≡ after_answer (A.world asked) tx.now) }
    ensures beyond { result ≡ Err SendFault.BeyondLimits → is_within_limits tx.now ≡ false }
{
    match asked.ask(alloc, tx) {
        Ok(()) => {
            let (next, reply) = asked.send(alloc, tx)?;
            reply_line(text, question, &reply)?;
            Ok(next)
        }
        Err(AskFault::Refused(rule)) => {
            reply_line(text, question, &Reply::Refused(rule))?;
            Ok(asked)
        }
        Err(AskFault::BeyondLimits) => Err(SendFault::BeyondLimits),
        Err(AskFault::NoMemory) => Err(SendFault::NoMemory),
    }
}

/// Answers a question as a line in the buffer, and returns what to ask next.
fn answer<A: Asked + Drop>(
    alloc: Global,
    asked: A,
    question: u64,
    text: &mut Vec<u8>,
) -> Result<A, SendFault>
    ensures text { IfOk result (λ _. text.new.items ≡ answer_line question (A.world asked) (asked_by question)) }
    ensures next { IfOk result (λ next. A.world next ≡ after_answer (A.world asked) (asked_by question)) }
    ensures beyond { result ≡ Err SendFault.BeyondLimits → is_within_limits (asked_by question) ≡ false }
{
    let tx = transaction(alloc, question)?;
    answer_about(alloc, asked, question, &tx, text)
}

/// Asks about each transaction in turn, and prints the answers.
fn ask_all<A: Asked + Drop>(rt: &HostRuntime, first: A) -> io::Result<()> {
    let mut asked = first;
    let mut text = Vec::new(rt.alloc());
    for question in 1..=QUESTIONS {
        match answer(rt.alloc(), asked, question, &mut text) {
            Ok(next) => asked = next,
            Err(fault) => return println!(rt; "not judged: {fault:?}"),
        }
        rt.stdout().write_all(&text)?;
    }
    Ok(())
}

fn main(rt: HostRuntime) -> io::Result<()> {
    let Some(line) = rt.lines(rt.alloc()).next() else {
        return println!(rt; "no line");
    };
    let seed = HashSeed::random(&rt)?;
    match ledger_of(rt.alloc(), seed, line?.as_bytes()) {
        Ok(ledger) => ask_all(&rt, ledger),
        Err(fault) => println!(rt; "no ledger: {fault:?}"),
    }
}
