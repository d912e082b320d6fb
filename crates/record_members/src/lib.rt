//! The members of an object that a transaction's fields have names for, found in one scan.
#![tactic(auto)]

ghost use Rattle.std.specs.Prelude.{◌≡◌, None, MatchOption, false, is_none, option_map};
ghost use Rattle.std.specs.Result.{result_map_both};
ghost use Rattle.serde_json.specs.Find.{as_object, get};
ghost use Rattle.json_tree.specs.View.{view};
ghost use Rattle.json_fields.specs.declared.fault.FieldFault.TheVariants.{Missing};
ghost use Rattle.json_fields.specs.Kinds.{field_in, optional_in};
ghost use Rattle.json_fields.specs.Steps.{or_fault};
ghost use Rattle.tx_records.specs.FieldTexts.{text_of_field};
ghost use Rattle.record_members.specs.Members.{kept_value, place_of, place_of_name, FindsAmong};

use json_fields::FieldFault;
use json_tree::Value;
use std::marker::Model;
use tx_records::FieldName;

/// How many names have a place.
const PLACES: usize = 20;

/// The members of an object by their places. Contracts see the object.
#[derive(Drop)]
pub struct Members<'v, 'a> {
    object: &'v Value<'a>,
    members: &'v [(&'a str, Value<'a>)],
    // For each place one more than the index of its member; 0 if there is none.
    found: [usize; PLACES],
}

impl<'v, 'a> Model for Members<'v, 'a> {
    ghost use Rattle.json_tree.specs.contracts.value.Value as value;
    ghost use Rattle.json_tree.specs.declared.value.Value as declared;
    ghost use Rattle.std.specs.Coded.{codes};
    ghost use Rattle.std.specs.Prelude.{[]};
    ghost use mir.Syntax.{named};
    ghost use Rattle.record_members.specs.Members.{Finds};

    ghost Value = { declared.Value };

    ghost coded = { Prim.hlevel (codes, (value.the_row (record { mir = named 0; lft = [] })).coded) };

    ghost view = { λ a. a.object.now };

    ghost invariant = { λ a. Finds a.object.now a.members.now a.found };
}

/// The place of a name, from 0, where a transaction has a field of that name.
fn place_of(text: &str) -> Option<usize>
    ensures { result ≡ place_of text.now }
{
    match text {
        "kind" => Some(0),
        "id" => Some(1),
        "inputs" => Some(2),
        "outputs" => Some(3),
        "fee" => Some(4),
        "size" => Some(5),
        "scriptFee" => Some(6),
        "witnessed" => Some(7),
        "scripts" => Some(8),
        "from" => Some(9),
        "until" => Some(10),
        "collateral" => Some(11),
        "collateralReturn" => Some(12),
        "mint" => Some(13),
        "treasury" => Some(14),
        "donation" => Some(15),
        "withdrawals" => Some(16),
        "certs" => Some(17),
        "proposals" => Some(18),
        "votes" => Some(19),
        _ => None,
    }
}

/// The place of a field's name, with no text to compare.
fn place_of_name(name: FieldName) -> Option<usize>
    ensures { result ≡ place_of_name name }
{
    match name {
        FieldName::Kind => Some(0),
        FieldName::Id => Some(1),
        FieldName::Inputs => Some(2),
        FieldName::Outputs => Some(3),
        FieldName::Fee => Some(4),
        FieldName::Size => Some(5),
        FieldName::ScriptFee => Some(6),
        FieldName::Witnessed => Some(7),
        FieldName::Scripts => Some(8),
        FieldName::From => Some(9),
        FieldName::Until => Some(10),
        FieldName::Collateral => Some(11),
        FieldName::CollateralReturn => Some(12),
        FieldName::Mint => Some(13),
        FieldName::Treasury => Some(14),
        FieldName::Donation => Some(15),
        FieldName::Withdrawals => Some(16),
        FieldName::Certs => Some(17),
        FieldName::Proposals => Some(18),
        FieldName::Votes => Some(19),
        _ => None,
    }
}

/// For each name that has a place: one more than the index of the last member with that name.
fn found_among(members: &[(&str, Value<'_>)]) -> [usize; PLACES]
    ensures { FindsAmong members.now members.now result }
{
    let mut found = [0; PLACES];
    for at in 0..members.len() {
        let member = &members[at];
        if let Some(place) = place_of(member.0) {
            found[place] = at + 1;
        }
    }
    found
}

/// The value of the member that a place keeps.
fn kept_value<'v, 'a>(members: &'v [(&'a str, Value<'a>)], kept: usize) -> Option<&'v Value<'a>>
    ensures { option_map (λ v. view v.now) result ≡ kept_value members.now kept }
{
    if kept == 0 {
        return None;
    }
    match members.get(kept - 1) {
        Some(member) => Some(&member.1),
        None => None,
    }
}

impl<'v, 'a> Members<'v, 'a> {
    /// The members of a value; nothing where it is no object.
    pub fn new(object: &'v Value<'a>) -> Option<Members<'v, 'a>>
        ensures { MatchOption result (as_object (view object.now) ≡ None) (λ members. members ≡ object.now) }
    {
        let members = object.as_object()?;
        let found = found_among(members);
        Some(Members {
            object,
            members,
            found,
        })
    }

    /// The value of the name, if the object has it.
    fn get(&self, name: FieldName) -> Option<&'v Value<'a>>
        ensures object { is_none (as_object (view self.now)) ≡ false }
        ensures value { option_map (λ v. view v.now) result ≡ get (text_of_field name) (view self.now) }
    {
        match place_of_name(name) {
            Some(place) => {
                let found = &self.found[..];
                kept_value(self.members, found[place])
            }
            None => self.object.get(name.text()),
        }
    }

    /// The value of the name, if the object has it and it is not null.
    fn present(&self, name: FieldName) -> Option<&'v Value<'a>>
        ensures { field_in (text_of_field name) (view self.now)
            ≡ or_fault Missing (option_map (λ v. view v.now) result) }
    {
        match self.get(name) {
            Some(value) if !value.is_null() => Some(value),
            _ => None,
        }
    }

    /// The value of the object's field; a null one counts as absent.
    pub fn field(&self, name: FieldName) -> Result<&'v Value<'a>, FieldFault>
        ensures { result_map_both (λ v. view v.now) (λ e. e) result ≡ field_in (text_of_field name) (view self.now) }
    {
        match self.present(name) {
            Some(value) => Ok(value),
            None => Err(FieldFault::Missing),
        }
    }

    /// The value of the object's field, if it has one; a null one counts as absent.
    pub fn optional_field(&self, name: FieldName) -> Result<Option<&'v Value<'a>>, FieldFault>
        ensures { result_map_both (option_map (λ v. view v.now)) (λ e. e) result ≡
            optional_in (text_of_field name) (view self.now) }
    {
        Ok(self.present(name))
    }
}
