//! A walk over a value, along its shape.
ghost use Rattle.std.specs.Prelude.{◌≡◌, ◌∷◌, [], OnOk, bytes_eq, find, map, option_map};
ghost use Rattle.std.specs.List.{list_any};
ghost use Rattle.json_fields.specs.Kinds.{field_in, text_in};
ghost use Rattle.json_tree.specs.View.{items_view, view};
ghost use Rattle.record_notes.specs.Notes.{array_said, entries_said, fault_said, fits, list_said, member_said, members_said, object_said, one_said, out_of_range, parts_said, said_in, what_of, word_said, wrong};
ghost use Rattle.record_notes.specs.Paths.{entry_path, member_path};
ghost use Rattle.record_notes.specs.Seen.{HasSaid, is_nameless, is_quiet};
ghost use Rattle.record_shapes.specs.Forms.{form_fault};
ghost use Rattle.record_shapes.specs.Seen.{kind_seen, member_seen};
ghost use Rattle.serde_json.specs.Find.{as_array, as_object};

use crate::note::{Note, What};
use crate::path::{push_entry, push_member};
use crate::unread::say_unread;
use json_fields::{FieldFault, field, read_text};
use json_tree::Value;
use no_memory::NoMemory;
use record_shapes::{Form, Kind, Layout, Member, Shape, layout};
use std::alloc::Global;

/// A walk: where it is, and what it has said.
#[derive(Drop)]
pub(crate) struct Walk {
    pub(crate) alloc: Global,
    /// Whether it says also what is wrong.
    pub(crate) all: bool,
    pub(crate) path: Vec<u8>,
    pub(crate) notes: Vec<Note>,
}

impl Walk {
    /// Says something of the value where it is.
    fn say(&mut self, what: What) -> Result<(), NoMemory>
        ensures { OnOk result (HasSaid self.old self.new ((self.old.path.items, what) ∷ [])) }
    {
        let mut path = Vec::new(self.alloc);
        path.extend_from_slice(self.path.as_slice())?;
        self.notes.push(Note { path, what })?;
        Ok(())
    }

    /// Says something of the member of this name.
    pub(crate) fn say_of(&mut self, name: &str, what: What) -> Result<(), NoMemory>
        ensures { OnOk result (HasSaid self.old self.new ((member_path self.old.path.items name.now, what) ∷ [])) }
    {
        let len = self.path.len();
        push_member(&mut self.path, name)?;
        self.say(what)?;
        self.path.truncate(len);
        Ok(())
    }

    /// Says what is wrong with the value where it is, if that is asked for.
    fn say_wrong(&mut self, what: What) -> Result<(), NoMemory>
        ensures { OnOk result (HasSaid self.old self.new (wrong self.old.all self.old.path.items what)) }
    {
        if self.all { self.say(what) } else { Ok(()) }
    }

    /// Says what is wrong with the member of this name, if that is asked for.
    fn say_wrong_of(&mut self, name: &str, what: What) -> Result<(), NoMemory>
        ensures { OnOk result (HasSaid self.old self.new
            (wrong self.old.all (member_path self.old.path.items name.now) what)) }
    {
        if self.all {
            self.say_of(name, what)
        } else {
            Ok(())
        }
    }
}

/// What is out of range of a value.
fn range_of(value: &Value<'_>) -> What
    ensures { result ≡ out_of_range (view value.now) }
{
    if value.as_str().is_some() {
        What::UnknownForm
    } else {
        What::OutOfRange
    }
}

/// What a reader's fault says of a value.
fn what_of(fault: FieldFault, value: &Value<'_>) -> What
    ensures { result ≡ what_of fault (view value.now) }
{
    match fault {
        FieldFault::Missing => What::Missing,
        FieldFault::WrongKind => What::WrongKind,
        FieldFault::OutOfRange | FieldFault::NoMemory => range_of(value),
    }
}

/// Looks at a value that one reader takes whole.
fn look_form(walk: &mut Walk, form: Form, value: &Value<'_>) -> Result<(), NoMemory>
    ensures { OnOk result (HasSaid walk.old walk.new
        (fault_said walk.old.all walk.old.path.items (view value.now) (form_fault form (view value.now)))) }
{
    if !walk.all {
        return Ok(());
    }
    match form.fault(value) {
        Some(fault) => walk.say_wrong(what_of(fault, value)),
        None => Ok(()),
    }
}

/// Whether a word is one of these.
fn is_among(word: &str, words: &[&str]) -> bool
    ensures { result ≡ list_any (λ w. bytes_eq word.now w.now) words.now }
{
    words.iter().any(|other| word == *other)
}

/// Looks at a text that has to be one of these words.
fn look_word(walk: &mut Walk, words: &[&str], value: &Value<'_>) -> Result<(), NoMemory>
    ensures { OnOk result (HasSaid walk.old walk.new
        (word_said walk.old.all walk.old.path.items (map (λ w. w.now) words.now) (view value.now) (text_in (view value.now)))) }
{
    match read_text(value) {
        Ok(word) if is_among(word, words) => Ok(()),
        Ok(_) => walk.say_wrong(What::UnknownForm),
        Err(fault) => walk.say_wrong(what_of(fault, value)),
    }
}

/// Whether as many entries are there as an array has, whose last one may lack.
fn fit(entries: &[Shape], last_may_lack: bool, count: usize) -> bool
    ensures { result ≡ fits entries.now last_may_lack count }
{
    count == entries.len() || (last_may_lack && count < entries.len() && count + 1 == entries.len())
}

/// Whether no value of a shape has members: one reader takes it whole, it is a word, or it is an
/// array of such values.
fn is_nameless(shape: Shape) -> bool
    ensures { result ≡ is_nameless shape }
{
    matches!(
        shape,
        Shape::Plain(_)
            | Shape::GenesisVersion
            | Shape::CommitteeMembers
            | Shape::CommitteeMember
            | Shape::GenesisOutputs
            | Shape::GenesisOutput
            | Shape::GenesisAccounts
            | Shape::GenesisAccount
            | Shape::GenesisPools
            | Shape::GenesisPool
            | Shape::GenesisDreps
            | Shape::GenesisDrep
            | Shape::RewardList
            | Shape::Reward
            | Shape::References
            | Shape::Outputs
            | Shape::Output
            | Shape::Assets
            | Shape::Asset
            | Shape::Scripts
            | Shape::Mint
            | Shape::Minted
            | Shape::Withdrawals
            | Shape::Withdrawal
            | Shape::Credentials
            | Shape::NewMembers
            | Shape::NewMember
            | Shape::Version
            | Shape::ExUnits
            | Shape::Prices
            | Shape::PoolThresholds
            | Shape::DrepThresholds
            | Shape::Vote
            | Shape::What
    )
}

/// Whether nothing is to be said of values of a shape: they have no members, and what is wrong with
/// them is not asked for.
fn is_quiet(all: bool, shape: Shape) -> bool
    ensures { result ≡ is_quiet all shape }
{
    !all && is_nameless(shape)
}

/// Looks at a value, as deep as this.
#[cycle(look)]
pub(crate) fn look(
    walk: &mut Walk,
    depth: usize,
    shape: Shape,
    value: &Value<'_>,
) -> Result<(), NoMemory>
    ensures { OnOk result (HasSaid walk.old walk.new
        (said_in depth walk.old.all walk.old.path.items shape (view value.now))) }
{
    if depth == 0 {
        return Ok(());
    }
    match layout(shape) {
        Layout::Plain(form) => look_form(walk, form, value),
        Layout::Word(words) => look_word(walk, words, value),
        Layout::List(entry) => look_list(walk, depth - 1, entry, value),
        Layout::Array {
            entries,
            last_may_lack,
        } => look_array(walk, depth - 1, entries, last_may_lack, value),
        Layout::Object(members) => look_object(walk, depth - 1, members, false, value),
        Layout::Whole(members) => look_object(walk, depth - 1, members, true, value),
        Layout::OneOf { by, kinds } => look_one(walk, depth - 1, by, kinds, value),
    }
}

/// Looks at an entry of an array.
#[cycle(look)]
fn look_entry(
    walk: &mut Walk,
    depth: usize,
    shape: Shape,
    index: usize,
    value: &Value<'_>,
) -> Result<(), NoMemory>
    ensures { OnOk result (HasSaid walk.old walk.new
        (said_in depth walk.old.all (entry_path walk.old.path.items index) shape (view value.now))) }
{
    if is_quiet(walk.all, shape) {
        return Ok(());
    }
    let len = walk.path.len();
    push_entry(&mut walk.path, index)?;
    look(walk, depth, shape, value)?;
    walk.path.truncate(len);
    Ok(())
}

/// Looks at the entries of a list.
#[cycle(look)]
fn look_entries(
    walk: &mut Walk,
    depth: usize,
    shape: Shape,
    items: &[Value<'_>],
) -> Result<(), NoMemory>
    ensures { OnOk result (HasSaid walk.old walk.new
        (entries_said walk.old.all (said_in depth walk.old.all) walk.old.path.items shape 0 (items_view items.now))) }
{
    let mut index = 0usize;
    for item in items {
        look_entry(walk, depth, shape, index, item)?;
        index += 1;
    }
    Ok(())
}

/// Looks at a list.
#[cycle(look)]
fn look_list(walk: &mut Walk, depth: usize, shape: Shape, value: &Value<'_>) -> Result<(), NoMemory>
    ensures { OnOk result (HasSaid walk.old walk.new
        (list_said walk.old.all (said_in depth walk.old.all) walk.old.path.items shape (as_array (view value.now)))) }
{
    if is_quiet(walk.all, shape) {
        return Ok(());
    }
    match value.as_array() {
        Some(items) => look_entries(walk, depth, shape, items),
        None => walk.say_wrong(What::WrongKind),
    }
}

/// Looks at the entries of an array, each along its own shape.
#[cycle(look)]
fn look_parts(
    walk: &mut Walk,
    depth: usize,
    shapes: &[Shape],
    items: &[Value<'_>],
) -> Result<(), NoMemory>
    ensures { OnOk result (HasSaid walk.old walk.new
        (parts_said walk.old.all (said_in depth walk.old.all) walk.old.path.items shapes.now 0 (items_view items.now))) }
{
    let count = shapes.len().min(items.len());
    for index in 0..count {
        look_entry(walk, depth, shapes[index], index, &items[index])?;
    }
    Ok(())
}

/// Looks at an array of so many entries.
#[cycle(look)]
fn look_array(
    walk: &mut Walk,
    depth: usize,
    shapes: &[Shape],
    last_may_lack: bool,
    value: &Value<'_>,
) -> Result<(), NoMemory>
    ensures { OnOk result (HasSaid walk.old walk.new
        (array_said walk.old.all (said_in depth walk.old.all) walk.old.path.items shapes.now last_may_lack (as_array (view value.now)))) }
{
    match value.as_array() {
        Some(items) if fit(shapes, last_may_lack, items.len()) => {
            look_parts(walk, depth, shapes, items)
        }
        Some(_) => walk.say_wrong(What::OutOfRange),
        None => walk.say_wrong(What::WrongKind),
    }
}

/// Looks at a member of an object.
#[cycle(look)]
fn look_member(
    walk: &mut Walk,
    depth: usize,
    member: &Member,
    is_whole: bool,
    object: &Value<'_>,
) -> Result<(), NoMemory>
    ensures { OnOk result (HasSaid walk.old walk.new
        (member_said walk.old.all (said_in depth walk.old.all) walk.old.path.items is_whole (member_seen member.now)
        (field_in member.now.name.now (view object.now)))) }
{
    if is_quiet(walk.all, member.shape) {
        return Ok(());
    }
    match field(object, member.name) {
        Ok(value) => {
            let len = walk.path.len();
            push_member(&mut walk.path, member.name)?;
            look(walk, depth, member.shape, value)?;
            walk.path.truncate(len);
            Ok(())
        }
        Err(_) if is_whole || member.is_needed => walk.say_wrong_of(member.name, What::Missing),
        Err(_) => Ok(()),
    }
}

/// Looks at the members of an object.
#[cycle(look)]
fn look_members(
    walk: &mut Walk,
    depth: usize,
    members: &[Member],
    is_whole: bool,
    object: &Value<'_>,
) -> Result<(), NoMemory>
    ensures { OnOk result (HasSaid walk.old walk.new
        (members_said walk.old.all (said_in depth walk.old.all) walk.old.path.items is_whole (map member_seen members.now) (view object.now))) }
{
    for member in members {
        look_member(walk, depth, member, is_whole, object)?;
    }
    Ok(())
}

/// Looks at an object.
#[cycle(look)]
fn look_object(
    walk: &mut Walk,
    depth: usize,
    members: &[Member],
    is_whole: bool,
    value: &Value<'_>,
) -> Result<(), NoMemory>
    ensures { OnOk result (HasSaid walk.old walk.new
        (object_said walk.old.all (said_in depth walk.old.all) walk.old.path.items is_whole (map member_seen members.now)
        (view value.now) (as_object (view value.now)))) }
{
    match value.as_object() {
        Some(fields) => {
            say_unread(walk, members, fields)?;
            look_members(walk, depth, members, is_whole, value)
        }
        None => walk.say_wrong(What::WrongKind),
    }
}

/// Looks at an object of one of these kinds.
#[cycle(look)]
fn look_one(
    walk: &mut Walk,
    depth: usize,
    by: &str,
    kinds: &[Kind],
    value: &Value<'_>,
) -> Result<(), NoMemory>
    ensures { OnOk result (HasSaid walk.old walk.new
        (one_said walk.old.all (said_in depth walk.old.all) walk.old.path.items by.now (map kind_seen kinds.now)
        (view value.now) (as_object (view value.now)))) }
{
    if !value.is_object() {
        return walk.say_wrong(What::WrongKind);
    }
    let Ok(word) = field(value, by) else {
        return walk.say_wrong_of(by, What::Missing);
    };
    let Ok(word) = read_text(word) else {
        return walk.say_wrong_of(by, What::WrongKind);
    };
    match kind_of(kinds, word) {
        Some(shape) => look(walk, depth, shape, value),
        None => walk.say_wrong_of(by, What::UnknownForm),
    }
}

/// The shape of the kind with this word.
fn kind_of(kinds: &[Kind], word: &str) -> Option<Shape>
    ensures { result ≡ option_map (λ k. k.shape) (find (λ k. bytes_eq k.word.now word.now) kinds.now) }
{
    kinds
        .iter()
        .find(|kind| kind.word == word)
        .map(|kind| kind.shape)
}
