ghost use Rattle.std.specs.Prelude.{◌≡◌, is_some, option_map, option_and_then};
ghost use Rattle.serde_json.specs.Find.{as_array, as_bool, as_null, as_number, as_object, as_str, as_u64, get, get_member};
ghost use Rattle.json_tree.specs.View.{view, items_view, members_view};

use crate::number::Number;

/// A JSON value that borrows its texts.
/// An object keeps its members in the order of the text, also those with a repeated name.
#[derive(Drop)]
pub enum Value<'a> {
    Null,
    Bool(bool),
    Number(Number),
    String(&'a str),
    Array(Vec<Value<'a>>),
    Object(Vec<(&'a str, Value<'a>)>),
}

impl<'a> Value<'a> {
    /// Whether it is null.
    pub fn is_null(&self) -> bool
        ensures { result ≡ is_some (as_null (view self.now)) }
    {
        matches!(self, Value::Null)
    }

    /// True or false, if it is one of them.
    pub fn as_bool(&self) -> Option<bool>
        ensures { result ≡ as_bool (view self.now) }
    {
        if let Value::Bool(value) = self {
            Some(*value)
        } else {
            None
        }
    }

    /// Whether it is a number.
    pub fn is_number(&self) -> bool
        ensures { result ≡ is_some (as_number (view self.now)) }
    {
        matches!(self, Value::Number(_))
    }

    /// The number, if it is an integer of 64 bits from 0 on.
    pub fn as_u64(&self) -> Option<u64>
        ensures { result ≡ option_and_then as_u64 (as_number (view self.now)) }
    {
        if let Value::Number(Number::Unsigned(value)) = self {
            Some(*value)
        } else {
            None
        }
    }

    /// The text, if it is one.
    pub fn as_str(&self) -> Option<&'a str>
        ensures { option_map (λ s. s.now) result ≡ as_str (view self.now) }
    {
        if let Value::String(text) = self {
            Some(*text)
        } else {
            None
        }
    }

    /// The entries, if it is an array.
    pub fn as_array(&self) -> Option<&[Value<'a>]>
        ensures { option_map (λ s. items_view s.now) result ≡ as_array (view self.now) }
    {
        if let Value::Array(items) = self {
            Some(items.as_slice())
        } else {
            None
        }
    }

    /// The members in the order of the text, if it is an object.
    pub fn as_object(&self) -> Option<&[(&'a str, Value<'a>)]>
        ensures { option_map (λ s. members_view s.now) result ≡ as_object (view self.now) }
    {
        if let Value::Object(members) = self {
            Some(members.as_slice())
        } else {
            None
        }
    }

    /// Whether it is an object.
    pub fn is_object(&self) -> bool
        ensures { result ≡ is_some (as_object (view self.now)) }
    {
        self.as_object().is_some()
    }

    /// The value of the last member with the name, if it is an object that has one.
    pub fn get(&self, name: &str) -> Option<&Value<'a>>
        ensures { option_map (λ v. view v.now) result ≡ get name.now (view self.now) }
    {
        match self.as_object() {
            Some(members) => find(members, name),
            None => None,
        }
    }
}

/// The value of the last member with the name.
fn find<'v, 'a>(members: &'v [(&'a str, Value<'a>)], name: &str) -> Option<&'v Value<'a>>
    ensures { option_map (λ v. view v.now) result ≡ get_member name.now (members_view members.now) }
{
    let mut left = members.len();
    while left > 0 {
        left -= 1;
        let member = &members[left];
        if member.0 == name {
            return Some(&member.1);
        }
    }
    None
}
