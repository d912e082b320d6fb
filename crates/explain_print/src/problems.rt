//! The lines of what is wrong with a genesis.
ghost use Rattle.std.specs.Prelude.{◌≡◌, ◌++◌, ◌∷◌, [], codes, OnOk};
ghost use Rattle.explain_model.specs.Explained.{entry_text, list_text, problem_words};
ghost use Rattle.text_model.specs.Words.{spaced};

use crate::lined::Lined;
use explain_model::of_genesis_problems::{GenesisList, GenesisProblem};
use no_memory::NoMemory;
use report::{Word, end_line, push_digits, push_part, push_parts};
use tx_records::limits::SUPPLY_LIMIT;

/// The name of a list of a genesis, as a record writes it.
fn list_name(list: GenesisList) -> &'static str
    ensures { result.now ≡ list_text list }
{
    match list {
        GenesisList::Members => "committee.members",
        GenesisList::Outputs => "outputs",
        GenesisList::Accounts => "accounts",
        GenesisList::Pools => "pools",
        GenesisList::Dreps => "dreps",
    }
}

/// Adds an entry of a list, by its place.
fn push_entry(out: &mut Vec<u8>, list: GenesisList, index: u32) -> Result<(), NoMemory>
    ensures { OnOk result (out.new.items ≡ out.old.items ++ 32 ∷ entry_text list index) }
{
    push_part(out, &Word::Text(list_name(list)))?;
    out.push(b'[')?;
    push_digits(out, index)?;
    out.push(b']')?;
    Ok(())
}

/// Adds a rule that an entry of a list breaks.
fn push_placed(out: &mut Vec<u8>, rule: &str, list: GenesisList, index: u32) -> Result<(), NoMemory>
    ensures { OnOk result (out.new.items ≡
        out.old.items ++ spaced (codes "genesis" ∷ rule.now ∷ entry_text list index ∷ [])) }
{
    push_parts(out, &[Word::Text("genesis"), Word::Text(rule)])?;
    push_entry(out, list, index)
}

/// Adds an account that delegates to something that is not listed.
fn push_target(out: &mut Vec<u8>, index: u32, target: &str) -> Result<(), NoMemory>
    ensures { OnOk result (out.new.items ≡ out.old.items
        ++ spaced (codes "genesis" ∷ codes "UnknownTarget" ∷ entry_text GenesisList.Accounts index ∷ target.now ∷ [])) }
{
    push_placed(out, "UnknownTarget", GenesisList::Accounts, index)?;
    push_part(out, &Word::Text(target))
}

/// Adds a sum that is not the supply.
fn push_sum(out: &mut Vec<u8>, sum: u128, supply: u64) -> Result<(), NoMemory>
    ensures { OnOk result (out.new.items ≡
        out.old.items ++ spaced (problem_words (GenesisProblem.SumWrong sum supply))) }
{
    push_parts(
        out,
        &[
            Word::Text("genesis"),
            Word::Text("SumWrong"),
            Word::Text("sum"),
            Word::Sum(sum),
            Word::Text("supply"),
            Word::Number(supply),
        ],
    )
}

/// Adds a problem.
fn push_problem(out: &mut Vec<u8>, problem: &GenesisProblem) -> Result<(), NoMemory>
    ensures { OnOk result (out.new.items ≡ out.old.items ++ spaced (problem_words problem.now)) }
{
    match problem {
        GenesisProblem::SupplyTooLarge(supply) => push_parts(
            out,
            &[
                Word::Text("genesis"),
                Word::Text("SupplyTooLarge"),
                Word::Text("supply"),
                Word::Number(*supply),
                Word::Text("most"),
                Word::Number(SUPPLY_LIMIT),
            ],
        ),
        GenesisProblem::Repeated(list, index) => push_placed(out, "Repeated", *list, *index),
        GenesisProblem::UnknownPool(index) => push_target(out, *index, "pool"),
        GenesisProblem::UnknownDrep(index) => push_target(out, *index, "drep"),
        GenesisProblem::WrongNetwork(list, index) => {
            push_placed(out, "WrongNetwork", *list, *index)
        }
        GenesisProblem::SumWrong(sum, supply) => push_sum(out, *sum, *supply),
    }
}

impl Lined for GenesisProblem {
    ghost use Rattle.explain_model.specs.Explained.{problem_words};

    ghost words = { problem_words };

    fn write_line(&self, text: &mut Vec<u8>, line: u64) -> Result<(), NoMemory> {
        text.clear();
        push_digits(text, line)?;
        push_problem(text, self)?;
        end_line(text)
    }
}
