//! The line of a part: what a voter adds to the count of a proposal.
ghost use Rattle.std.specs.Prelude.{◌≡◌, ◌++◌, [], ◌∷◌, OnOk, map};
ghost use Rattle.certificate_model.specs.Parts.{weighty};
ghost use Rattle.claims.specs.Lines.{words_of_part};
ghost use Rattle.claims.specs.PartLines.{name_of, part_of, role_of};
ghost use Rattle.report.specs.Taking.{HasPut};
ghost use Rattle.report.specs.WordTexts.{word_text};
ghost use Rattle.text_model.specs.ActionWords.{vote_text};
ghost use Rattle.text_model.specs.Words.{line_of};

use byte_lines::SinkFault;
use gov_actions::Vote;
use gov_ids::{ActionId, Credential, Drep, PoolId};
use no_memory::NoMemory;
use report::{LineTaker, Printed, Word, push_line, put_one};

// A voter by its role: a member by the cold key, a DRep, a pool.
#[derive(Clone, Copy)]
pub(crate) enum Named<'a> {
    Member(&'a Credential),
    Drep(&'a Drep),
    Pool(&'a PoolId),
}

impl Named<'_> {
    // The word of the role.
    fn role(&self) -> &'static str
        ensures { result.now ≡ role_of self.now }
    {
        match self {
            Named::Member(_) => "committee",
            Named::Drep(_) => "drep",
            Named::Pool(_) => "pool",
        }
    }
}

// The word of the name.
fn name_word<'a>(voter: &Named<'a>) -> Word<'a>
    ensures { word_text result ≡ name_of voter.now }
{
    match voter {
        Named::Member(cold) => Word::Credential(*cold),
        Named::Drep(drep) => Word::Drep(*drep),
        Named::Pool(pool) => Word::Pool(*pool),
    }
}

// A vote.
fn vote_name(vote: Vote) -> &'static str
    ensures { result.now ≡ vote_text vote }
{
    match vote {
        Vote::Yes => "yes",
        Vote::No => "no",
        Vote::Abstain => "abstain",
    }
}

// What a voter adds to the count of the proposal of an id.
#[derive(Drop)]
pub(crate) struct PartLine<'a> {
    pub(crate) id: &'a ActionId,
    pub(crate) voter: Named<'a>,
    // Members, or lovelace.
    pub(crate) weight: u64,
    pub(crate) side: Vote,
}

// Appends the line of a part.
fn push_part_line(out: &mut Vec<u8>, line: u64, part: &PartLine<'_>) -> Result<(), NoMemory>
    ensures { OnOk result (out.new.items ≡ out.old.items ++ line_of line (words_of_part part.now.id.now (part_of part.now))) }
{
    push_line(
        out,
        line,
        &[
            Word::Text("part"),
            Word::Action(part.id),
            Word::Text(part.voter.role()),
            name_word(&part.voter),
            Word::Number(part.weight),
            Word::Text(vote_name(part.side)),
        ],
    )
}

impl Printed for PartLine<'_> {
    ghost use Rattle.claims.specs.Lines.{words_of_part};
    ghost use Rattle.claims.specs.PartLines.{part_of};

    ghost words = { λ p. words_of_part p.id.now (part_of p) };

    fn push_line(&self, out: &mut Vec<u8>, line: u64) -> Result<(), NoMemory> {
        push_part_line(out, line, self)
    }
}

// Hands over the line of a part, unless its weight is 0.
pub(crate) fn put_part<T: LineTaker>(
    to: &mut T,
    text: &mut Vec<u8>,
    line: u64,
    part: &PartLine<'_>,
) -> Result<(), SinkFault>
    ensures { HasPut T.with_line T.IsPart line (T.taken to.old)
        (map (words_of_part part.now.id.now) (weighty (part_of part.now ∷ [])))
        (T.taken to.new) (T.faults to.old) (T.faults to.new) result }
{
    if part.weight == 0 {
        return Ok(());
    }
    put_one(to, text, line, part)
}
