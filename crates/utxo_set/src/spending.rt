ghost use Rattle.std.specs.Prelude.{◌≡◌, Some, MatchOption, IfOk, OnOk, OnErr};
ghost use Rattle.gov_ids.specs.Orders.{outref_cmp};
ghost use Rattle.book_records.specs.declared.Output.{Output};
ghost use Rattle.maps.specs.Maps.{value_at, without_key};

use book_records::Output;
use gov_ids::OutRef;
use gov_ids::of_no_memory::NoMemory;
use std::collections::BTreeMap;
use std::collections::btree_map::Entry;

/// What changes when an output is spent, as the stake of an account.
pub trait Spender {
    ghost use Rattle.std.specs.Prelude.{◌≡◌, OnOk, OnErr};
    ghost use Rattle.book_records.specs.declared.Output.{Output};

    // when an output can be spent
    ghost can_spend: { Self → Output → Type 0 };

    // the spender after it
    ghost spent_by: { Output → Self → Self };

    /// Changes as the spending of an output asks. `NoMemory` changes nothing.
    fn spend(&mut self, output: &Output) -> Result<(), NoMemory>
        requires { can_spend self.old output.now }
        ensures ok { OnOk result (self.new ≡ spent_by output.now self.old) }
        ensures err { OnErr result (self.new ≡ self.old) };
}

/// Removes and returns the output at a reference, if there is one, in one search.
/// `NoMemory` changes nothing. Where there is an output, it follows from the spender alone.
pub fn take_from<S: Spender>(
    outputs: &mut BTreeMap<OutRef, Output>,
    r: OutRef,
    spender: &mut S,
) -> Result<Option<Output>, NoMemory>
    requires { (o : Output) → value_at outref_cmp outputs.old.entries r ≡ Some o → S.can_spend spender.old o }
    ensures value { IfOk result (λ o. o ≡ value_at outref_cmp outputs.old.entries r) }
    ensures rest { OnOk result (outputs.new.entries ≡ without_key outref_cmp r outputs.old.entries) }
    ensures spender { OnOk result (MatchOption (value_at outref_cmp outputs.old.entries r)
        (spender.new ≡ spender.old) (λ o. spender.new ≡ S.spent_by o spender.old)) }
    ensures err { OnErr result (outputs.new.entries ≡ outputs.old.entries) }
    ensures spender_err { OnErr result (spender.new ≡ spender.old) }
{
    let Ok(entry) = outputs.entry(r) else {
        return Ok(None);
    };
    match entry {
        Entry::Occupied(entry) => {
            spender.spend(entry.get())?;
            Ok(Some(entry.remove()))
        }
        Entry::Vacant(_) => Ok(None),
    }
}
