/// What comes next in a JSON text.
#[derive(Clone, Copy)]
pub(crate) enum State {
    /// A value.
    Value,
    /// An entry of an array, or its end.
    FirstItem,
    /// The name of a member of an object, or the end of the object.
    FirstName,
    /// The name of a member.
    Name,
    /// The colon behind a name.
    Colon,
    /// A comma, the end of what is open, or the end of the text.
    After,
    /// A character of a text, or its end. It is a name, or a value.
    Text {
        is_name: bool,
    },
    /// The character of an escape.
    Escape {
        is_name: bool,
    },
    /// So many hex digits of an escape, behind ones of this value.
    Hex {
        is_name: bool,
        left: u8,
        value: u32,
    },
    /// The backslash of the low half of a pair.
    LowSlash {
        is_name: bool,
    },
    /// The `u` of it.
    LowLetter {
        is_name: bool,
    },
    /// Its hex digits.
    LowHex {
        is_name: bool,
        left: u8,
    },
    /// A byte of a character: one from `least` to `most`, and then so many of any.
    Wide {
        is_name: bool,
        least: u8,
        most: u8,
        left: u8,
    },
    /// A digit, behind a minus sign.
    Minus,
    /// What may be behind a 0: no digit.
    Zero,
    /// What may be behind a digit.
    Digits,
    /// A digit, behind a point.
    Point,
    /// What may be behind a digit of a fraction.
    Fraction,
    /// A sign or a digit of an exponent.
    Exponent,
    /// A digit, behind the sign of an exponent.
    Sign,
    /// What may be behind a digit of an exponent.
    Power,
    /// The rest of `true`.
    Rue,
    Ue,
    /// The last letter of `true` and `false`.
    E,
    /// The rest of `false`.
    Alse,
    Lse,
    Se,
    /// The rest of `null`.
    Ull,
    Ll,
    L,
}
