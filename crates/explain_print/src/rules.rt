//! The lines of broken rules.
ghost use Rattle.std.specs.Prelude.{◌≡◌, ◌∷◌, [], map, None, Some};
ghost use Rattle.explain_model.specs.Explained.{rule_words};
ghost use Rattle.report.specs.Taking.{HasPut};
ghost use Rattle.text_model.specs.Runs.{line_rule};

use crate::lined::{Lined, put_each, put_one};
use byte_lines::SinkFault;
use no_memory::NoMemory;
use report::{LineTaker, reply_line};
use tx_records::rules::{MALFORMED, TOO_LONG};
use tx_records::{FieldName, Reply, Rule};

impl Lined for Rule {
    ghost use Rattle.explain_model.specs.Explained.{rule_words};

    ghost words = { rule_words };

    fn write_line(&self, text: &mut Vec<u8>, line: u64) -> Result<(), NoMemory> {
        reply_line(text, line, &Reply::Refused(*self))
    }
}

/// Hands over a line for each broken rule, in order; each replaces what the buffer held.
pub fn put_rules<T: LineTaker>(
    to: &mut T,
    text: &mut Vec<u8>,
    line: u64,
    rules: &[Rule],
) -> Result<(), SinkFault>
    ensures { HasPut T.with_line T.IsPart line (T.taken to.old) (map rule_words rules.now) (T.taken to.new)
        (T.faults to.old) (T.faults to.new) result }
{
    put_each(to, text, line, rules)
}

/// What is wrong with a line that is no record.
fn malformed(what: FieldName, place: Option<u32>) -> Rule
    ensures { result ≡ line_rule MALFORMED (Some what) place }
{
    Rule {
        what: Some(what),
        place,
        ..Rule::new(MALFORMED)
    }
}

/// Hands over the line of what was read as no record: what is wrong with it, and the place.
pub fn put_malformed<T: LineTaker>(
    to: &mut T,
    text: &mut Vec<u8>,
    line: u64,
    what: FieldName,
    place: Option<u32>,
) -> Result<(), SinkFault>
    ensures { HasPut T.with_line T.IsPart line (T.taken to.old)
        (rule_words (line_rule MALFORMED (Some what) place) ∷ []) (T.taken to.new)
        (T.faults to.old) (T.faults to.new) result }
{
    put_one(to, text, line, &malformed(what, place))
}

/// Hands over the line of what is longer than a line may be.
pub fn put_too_long<T: LineTaker>(
    to: &mut T,
    text: &mut Vec<u8>,
    line: u64,
) -> Result<(), SinkFault>
    ensures { HasPut T.with_line T.IsPart line (T.taken to.old)
        (rule_words (line_rule TOO_LONG None None) ∷ []) (T.taken to.new)
        (T.faults to.old) (T.faults to.new) result }
{
    put_one(to, text, line, &Rule::new(TOO_LONG))
}
