//! The names of an object that nobody reads.
ghost use Rattle.std.specs.Prelude.{◌≡◌, IfOk, OnOk, map};
ghost use Rattle.std.specs.List.{list_all};
ghost use Rattle.json_tree.specs.View.{members_view};
ghost use Rattle.record_notes.specs.Notes.{unread_said};
ghost use Rattle.record_notes.specs.Seen.{HasSaid, has_name, name_said, names_in, names_said};
ghost use Rattle.record_shapes.specs.Seen.{member_seen};

use crate::note::What;
use crate::walk::Walk;
use json_tree::Value;
use no_memory::NoMemory;
use record_shapes::Member;
use std::alloc::Global;
use std::collections::BTreeSet;

/// Whether a layout has a member of this name.
fn is_known(members: &[Member], name: &str) -> bool
    ensures { result ≡ has_name members.now name.now }
{
    members.iter().any(|member| member.name == name)
}

/// Whether it has one of each of these names.
fn are_known(members: &[Member], fields: &[(&str, Value<'_>)]) -> bool
    ensures { result ≡ list_all (λ field. has_name members.now field.0.now) fields.now }
{
    fields.iter().all(|field| is_known(members, field.0))
}

/// The names of members, each once, in order.
fn names_of<'a>(
    alloc: Global,
    fields: &[(&'a str, Value<'a>)],
) -> Result<BTreeSet<&'a str>, NoMemory>
    ensures { IfOk result (λ names. map (λ n. n.now) names.keys ≡ names_in (members_view fields.now)) }
{
    let mut names = BTreeSet::new(alloc);
    for field in fields {
        names.insert(field.0)?;
    }
    Ok(names)
}

/// The names of a set, in order.
fn listed<'a>(alloc: Global, names: &BTreeSet<&'a str>) -> Result<Vec<&'a str>, NoMemory>
    ensures { IfOk result (λ found. found.items ≡ names.now.keys) }
{
    let mut found = Vec::new(alloc);
    for name in names {
        found.push(*name)?;
    }
    Ok(found)
}

/// Says of a name that nobody reads it, if nobody does.
fn say_name(walk: &mut Walk, members: &[Member], name: &str) -> Result<(), NoMemory>
    ensures { OnOk result (HasSaid walk.old walk.new
        (name_said walk.old.path.items (map member_seen members.now) name.now)) }
{
    if is_known(members, name) {
        Ok(())
    } else {
        walk.say_of(name, What::Unread)
    }
}

/// Says of each of these names that nobody reads it, if nobody does.
fn say_names(walk: &mut Walk, members: &[Member], names: &[&str]) -> Result<(), NoMemory>
    ensures { OnOk result (HasSaid walk.old walk.new
        (names_said walk.old.path.items (map member_seen members.now) (map (λ n. n.now) names.now))) }
{
    for name in names {
        say_name(walk, members, name)?;
    }
    Ok(())
}

/// Says of each name that nobody reads, in the order of the names.
pub(crate) fn say_unread<'a>(
    walk: &mut Walk,
    members: &[Member],
    fields: &[(&'a str, Value<'a>)],
) -> Result<(), NoMemory>
    ensures { OnOk result (HasSaid walk.old walk.new
        (unread_said walk.old.all walk.old.path.items (map member_seen members.now) (members_view fields.now))) }
{
    if are_known(members, fields) {
        return Ok(());
    }
    let names = names_of(walk.alloc, fields)?;
    let names = listed(walk.alloc, &names)?;
    say_names(walk, members, names.as_slice())
}
