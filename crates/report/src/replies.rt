ghost use Rattle.std.specs.Prelude.{◌≡◌, ◌++◌, ◌∷◌, map, zip, flat_map, OnOk, Some};
ghost use Rattle.text_model.specs.of_tx_records.declared.reply.Reply.TheVariants.{Refused};
ghost use Rattle.text_model.specs.Replies.{bracketed, place_words, refusal_words, reply_words, what_words};
ghost use Rattle.text_model.specs.Words.{line_of, spaced};
ghost use Rattle.report.specs.Amounts.{amount_words};
ghost use Rattle.report.specs.RuleNames.{text_seen};

use crate::rule_texts::{RuleText, text_of};
use crate::words::{begin, end_line, push_digits, push_number, push_word};
use no_memory::NoMemory;
use text_model::of_tx_records::{FieldName, Reply, Rule, rules};

/// Adds the place of a refusal, if it has one.
fn push_place(line: &mut Vec<u8>, place: Option<u32>) -> Result<(), NoMemory>
    ensures { OnOk result (line.new.items ≡ line.old.items ++ spaced (place_words place)) }
{
    let Some(i) = place else {
        return Ok(());
    };
    push_word(line, "at")?;
    push_number(line, i)
}

/// Adds the place of a malformed entry to the name of its list.
fn push_bracketed(line: &mut Vec<u8>, place: Option<u32>) -> Result<(), NoMemory>
    ensures { OnOk result (line.new.items ≡ line.old.items ++ bracketed place) }
{
    let Some(i) = place else {
        return Ok(());
    };
    line.push(b'[')?;
    push_digits(line, i)?;
    line.push(b']')?;
    Ok(())
}

/// Adds what is wrong in a malformed line, with its place.
fn push_what(
    line: &mut Vec<u8>,
    what: Option<FieldName>,
    place: Option<u32>,
) -> Result<(), NoMemory>
    ensures { OnOk result (line.new.items ≡ line.old.items ++ spaced (what_words what place)) }
{
    let Some(field) = what else {
        return Ok(());
    };
    push_word(line, field.text())?;
    push_bracketed(line, place)
}

/// Adds numbers, each after its word, as many as there are words.
fn push_kept(line: &mut Vec<u8>, words: &[&str], numbers: &[u128]) -> Result<(), NoMemory>
    ensures { OnOk result (line.new.items ≡ line.old.items
        ++ spaced (flat_map (λ k. amount_words k.0 k.1) (zip (map (λ w. w.now) words.now) numbers.now))) }
{
    for (word, number) in words.iter().zip(numbers) {
        push_word(line, word)?;
        push_number(line, *number)?;
    }
    Ok(())
}

/// Adds a rule's name, its place and the numbers that it keeps.
fn push_refusal(line: &mut Vec<u8>, rule: &Rule, text: &RuleText) -> Result<(), NoMemory>
    ensures { OnOk result (line.new.items ≡
        line.old.items ++ spaced (refusal_words rule.now (Some (text_seen text.now)))) }
{
    push_word(line, text.name)?;
    if rule.number == rules::MALFORMED {
        return push_what(line, rule.what, rule.place);
    }
    push_place(line, rule.place)?;
    push_kept(line, text.words, &[rule.first, rule.second])
}

/// Adds a refusal: its number, and its text if the number is a rule's.
fn push_refused(line: &mut Vec<u8>, rule: &Rule) -> Result<(), NoMemory>
    ensures { OnOk result (line.new.items ≡ line.old.items ++ spaced (reply_words (Refused rule.now))) }
{
    push_word(line, "refused")?;
    push_number(line, rule.number)?;
    match text_of(rule.number) {
        Some(text) => push_refusal(line, rule, text),
        None => Ok(()),
    }
}

/// Adds a reply.
fn push_reply(line: &mut Vec<u8>, reply: &Reply) -> Result<(), NoMemory>
    ensures { OnOk result (line.new.items ≡ line.old.items ++ spaced (reply_words reply.now)) }
{
    match reply {
        Reply::Accepted => push_word(line, "accepted"),
        Reply::AcceptedFailedScripts => {
            push_word(line, "accepted")?;
            push_word(line, "failed-scripts")
        }
        Reply::Refused(rule) => push_refused(line, rule),
    }
}

/// Replaces the buffer by the line of a reply. After `NoMemory` it may hold anything. (Own)
pub fn reply_line(line: &mut Vec<u8>, number: u64, reply: &Reply) -> Result<(), NoMemory>
    ensures { OnOk result (line.new.items ≡ line_of number (reply_words reply.now)) }
{
    begin(line, number)?;
    push_reply(line, reply)?;
    end_line(line)
}
