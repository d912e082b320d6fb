//! The line of a verdict: the counts, the needs, and what became of a proposal.
ghost use Rattle.std.specs.Prelude.{◌≡◌, ◌++◌, OnOk, flat_map, zip};
ghost use Rattle.certificate_model.specs.Certificate.{verdict_words};
ghost use Rattle.report.specs.WordTexts.{word_text};
ghost use Rattle.text_model.specs.ActionWords.{need_text, verdict_text};
ghost use Rattle.text_model.specs.EpochLines.{role_texts, role_words};
ghost use Rattle.text_model.specs.Words.{line_of, spaced};

use gov_actions::{Need, Tally, Verdict};
use no_memory::NoMemory;
use report::{Printed, Word, end_line, kind_name, push_digits, push_part, push_parts};

// The verdict on a proposal, with its counts and needs.
#[derive(Drop)]
pub(crate) struct VerdictLine<'a> {
    pub(crate) tally: &'a Tally,
}

// What became of a proposal.
fn verdict_name(verdict: Verdict) -> &'static str
    ensures { result.now ≡ verdict_text verdict }
{
    match verdict {
        Verdict::Ratified => "ratified",
        Verdict::Expired => "expired",
        Verdict::Waiting => "waiting",
    }
}

// What a role must reach.
fn need_word(need: Need) -> Word<'static>
    ensures { word_text result ≡ need_text need }
{
    match need {
        Need::Nothing => Word::Text("none"),
        Need::Never => Word::Text("never"),
        Need::Share(share) => Word::Fraction(share.num(), share.den()),
    }
}

// Adds a role's count and need.
fn push_role(out: &mut Vec<u8>, role: &str, count: (u64, u64), need: Need) -> Result<(), NoMemory>
    ensures { OnOk result (out.new.items ≡ out.old.items ++ spaced (role_words (role.now, count, need))) }
{
    push_parts(
        out,
        &[
            Word::Text(role),
            Word::Fraction(count.0, count.1),
            Word::Text("need"),
            need_word(need),
        ],
    )
}

// Adds the counts and needs of the roles.
fn push_roles(
    out: &mut Vec<u8>,
    counts: &[(u64, u64); 3],
    needs: &[Need; 3],
) -> Result<(), NoMemory>
    ensures { OnOk result (out.new.items ≡ out.old.items
        ++ spaced (flat_map (λ x. role_words (x.0, x.1.0, x.1.1)) (zip role_texts (zip counts.now needs.now)))) }
{
    push_role(out, "committee", counts[0], needs[0])?;
    push_role(out, "drep", counts[1], needs[1])?;
    push_role(out, "pool", counts[2], needs[2])
}

// Adds a verdict.
fn push_verdict(out: &mut Vec<u8>, tally: &Tally) -> Result<(), NoMemory>
    ensures { OnOk result (out.new.items ≡ out.old.items ++ spaced (verdict_words tally.now)) }
{
    push_parts(
        out,
        &[
            Word::Text("verdict"),
            Word::Action(&tally.id),
            Word::Text(kind_name(tally.kind)),
        ],
    )?;
    push_roles(out, &tally.counts, &tally.needs)?;
    push_part(out, &Word::Text(verdict_name(tally.verdict)))
}

// Appends the line of a verdict.
fn push_verdict_line(out: &mut Vec<u8>, line: u64, tally: &Tally) -> Result<(), NoMemory>
    ensures { OnOk result (out.new.items ≡ out.old.items ++ line_of line (verdict_words tally.now)) }
{
    push_digits(out, line)?;
    push_verdict(out, tally)?;
    end_line(out)
}

impl Printed for VerdictLine<'_> {
    ghost use Rattle.certificate_model.specs.Certificate.{verdict_words};

    ghost words = { λ v. verdict_words v.tally.now };

    fn push_line(&self, out: &mut Vec<u8>, line: u64) -> Result<(), NoMemory> {
        push_verdict_line(out, line, self.tally)
    }
}
