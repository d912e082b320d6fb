//! A byte of a JSON text.
ghost use Rattle.std.specs.Prelude.{◌≡◌, IfOk, option_map};
ghost use Rattle.json_place.specs.Steps.{after, begin, close, counted, digit_value, escaped, hex, inside, is_digit, is_space, letter, low, may_end, name, number, only, opened, step, text, text_end, wide, within};

use crate::state::State;
use no_memory::NoMemory;

/// How deep arrays and objects nest at most.
const MOST_OPEN: usize = 127;

/// Whether it may separate tokens.
fn is_space(byte: u8) -> bool
    ensures { result ≡ is_space byte }
{
    byte == b' ' || byte == b'\t' || byte == b'\n' || byte == b'\r'
}

/// Whether it is a digit.
fn is_digit(byte: u8) -> bool
    ensures { result ≡ is_digit byte }
{
    48 <= byte && byte <= 57
}

/// The value of a hex digit.
fn digit_value(byte: u8) -> Option<u32>
    ensures { result ≡ digit_value byte }
{
    if 48 <= byte && byte <= 57 {
        Some(byte as u32 - 48)
    } else if 65 <= byte && byte <= 70 {
        Some(byte as u32 - 55)
    } else if 97 <= byte && byte <= 102 {
        Some(byte as u32 - 87)
    } else {
        None
    }
}

/// Opens an array or an object.
fn opened(nest: &mut Vec<bool>, is_object: bool) -> Result<Option<State>, NoMemory>
    ensures { IfOk result (λ next. option_map (λ s. (s, nest.new.items)) next ≡ opened nest.old.items is_object) }
{
    if nest.len() >= MOST_OPEN {
        return Ok(None);
    }
    nest.push(is_object)?;
    Ok(Some(if is_object {
        State::FirstName
    } else {
        State::FirstItem
    }))
}

/// The first byte of a value, or a space before it.
fn begin(nest: &mut Vec<bool>, byte: u8) -> Result<Option<State>, NoMemory>
    ensures { IfOk result (λ next. option_map (λ s. (s, nest.new.items)) next ≡ begin nest.old.items byte) }
{
    match byte {
        b'"' => Ok(Some(State::Text { is_name: false })),
        b'[' => opened(nest, false),
        b'{' => opened(nest, true),
        b'-' => Ok(Some(State::Minus)),
        b'0' => Ok(Some(State::Zero)),
        b't' => Ok(Some(State::Rue)),
        b'f' => Ok(Some(State::Alse)),
        b'n' => Ok(Some(State::Ull)),
        _ => {
            if is_digit(byte) {
                Ok(Some(State::Digits))
            } else if is_space(byte) {
                Ok(Some(State::Value))
            } else {
                Ok(None)
            }
        }
    }
}

/// Closes what is open, if it is such a one.
fn close(nest: &mut Vec<bool>, is_object: bool) -> Option<State>
    ensures { option_map (λ s. (s, nest.new.items)) result ≡ close nest.old.items is_object }
{
    match nest.last() {
        Some(last) if *last == is_object => {
            let len = nest.len() - 1;
            nest.truncate(len);
            Some(State::After)
        }
        _ => None,
    }
}

/// A byte behind a value.
fn after(nest: &mut Vec<bool>, byte: u8) -> Option<State>
    ensures { option_map (λ s. (s, nest.new.items)) result ≡ after nest.old.items byte }
{
    if byte == b',' {
        match nest.last() {
            Some(true) => Some(State::Name),
            Some(false) => Some(State::Value),
            None => None,
        }
    } else if byte == b']' {
        close(nest, false)
    } else if byte == b'}' {
        close(nest, true)
    } else if is_space(byte) {
        Some(State::After)
    } else {
        None
    }
}

/// What comes behind a text.
fn text_end(is_name: bool) -> State
    ensures { result ≡ text_end is_name }
{
    if is_name { State::Colon } else { State::After }
}

/// The first byte of a character of a text that is not ASCII.
fn wide(is_name: bool, byte: u8) -> Option<State>
    ensures { result ≡ wide is_name byte }
{
    let (least, most, left) = match byte {
        194..=223 => (128, 191, 0),
        224 => (160, 191, 1),
        237 => (128, 159, 1),
        225..=239 => (128, 191, 1),
        240 => (144, 191, 2),
        241..=243 => (128, 191, 2),
        244 => (128, 143, 2),
        _ => return None,
    };
    Some(State::Wide {
        is_name,
        least,
        most,
        left,
    })
}

/// A byte of a text.
fn text(is_name: bool, byte: u8) -> Option<State>
    ensures { result ≡ text is_name byte }
{
    if byte == b'"' {
        Some(text_end(is_name))
    } else if byte == b'\\' {
        Some(State::Escape { is_name })
    } else if byte < 32 {
        None
    } else if byte < 128 {
        Some(State::Text { is_name })
    } else {
        wide(is_name, byte)
    }
}

/// The character behind the backslash of an escape.
fn letter(is_name: bool, byte: u8) -> Option<State>
    ensures { result ≡ letter is_name byte }
{
    match byte {
        b'u' => Some(State::Hex {
            is_name,
            left: 4,
            value: 0,
        }),
        b'"' | b'\\' | b'/' | b'b' | b'f' | b'n' | b'r' | b't' => Some(State::Text { is_name }),
        _ => None,
    }
}

/// What comes behind the four hex digits of an escape: the high half of a pair wants the low one.
fn escaped(is_name: bool, value: u32) -> State
    ensures { result ≡ escaped is_name value }
{
    if 55296 <= value && value <= 56319 {
        State::LowSlash { is_name }
    } else {
        State::Text { is_name }
    }
}

/// A hex digit of an escape. The low half of a pair is none alone.
fn hex(is_name: bool, left: u8, value: u32, byte: u8) -> Option<State>
    ensures { result ≡ hex is_name left value byte }
{
    let digit = digit_value(byte)?;
    let value = (value % 4096) * 16 + digit;
    if left == 3 && (220 <= value && value <= 223) {
        None
    } else if left <= 1 {
        Some(escaped(is_name, value))
    } else {
        Some(State::Hex {
            is_name,
            left: left - 1,
            value,
        })
    }
}

/// A hex digit of the low half of a pair, which begins with D and one of C to F.
fn low(is_name: bool, left: u8, byte: u8) -> Option<State>
    ensures { result ≡ low is_name left byte }
{
    let digit = digit_value(byte)?;
    if (left == 4 && digit != 13) || (left == 3 && digit < 12) {
        None
    } else if left <= 1 {
        Some(State::Text { is_name })
    } else {
        Some(State::LowHex {
            is_name,
            left: left - 1,
        })
    }
}

/// Another byte of a character that is not ASCII.
fn within(is_name: bool, least: u8, most: u8, left: u8, byte: u8) -> Option<State>
    ensures { result ≡ within is_name least most left byte }
{
    if byte < least || most < byte {
        None
    } else if left == 0 {
        Some(State::Text { is_name })
    } else {
        Some(State::Wide {
            is_name,
            least: 128,
            most: 191,
            left: left - 1,
        })
    }
}

/// The next state where the byte is this one.
fn only(wanted: u8, next: State, byte: u8) -> Option<State>
    ensures { result ≡ only wanted next byte }
{
    if byte == wanted { Some(next) } else { None }
}

/// A byte of a text or of a word.
fn inside(state: State, byte: u8) -> Option<State>
    ensures { result ≡ inside state byte }
{
    match state {
        State::Text { is_name } => text(is_name, byte),
        State::Escape { is_name } => letter(is_name, byte),
        State::Hex {
            is_name,
            left,
            value,
        } => hex(is_name, left, value, byte),
        State::LowSlash { is_name } => only(b'\\', State::LowLetter { is_name }, byte),
        State::LowLetter { is_name } => only(b'u', State::LowHex { is_name, left: 4 }, byte),
        State::LowHex { is_name, left } => low(is_name, left, byte),
        State::Wide {
            is_name,
            least,
            most,
            left,
        } => within(is_name, least, most, left, byte),
        State::Rue => only(b'r', State::Ue, byte),
        State::Ue => only(b'u', State::E, byte),
        State::E => only(b'e', State::After, byte),
        State::Alse => only(b'a', State::Lse, byte),
        State::Lse => only(b'l', State::Se, byte),
        State::Se => only(b's', State::E, byte),
        State::Ull => only(b'u', State::Ll, byte),
        State::Ll => only(b'l', State::L, byte),
        State::L => only(b'l', State::After, byte),
        _ => None,
    }
}

/// A byte of a number that goes on; none where it does not.
fn number(state: State, byte: u8) -> Option<State>
    ensures { result ≡ number state byte }
{
    match state {
        State::Minus => {
            if byte == b'0' {
                Some(State::Zero)
            } else if is_digit(byte) {
                Some(State::Digits)
            } else {
                None
            }
        }
        State::Digits if is_digit(byte) => Some(State::Digits),
        State::Zero | State::Digits if byte == b'.' => Some(State::Point),
        State::Point | State::Fraction if is_digit(byte) => Some(State::Fraction),
        State::Zero | State::Digits | State::Fraction if byte == b'e' || byte == b'E' => {
            Some(State::Exponent)
        }
        State::Exponent if byte == b'+' || byte == b'-' => Some(State::Sign),
        State::Exponent | State::Sign | State::Power if is_digit(byte) => Some(State::Power),
        _ => None,
    }
}

/// Whether a number may end there.
fn may_end(state: State) -> bool
    ensures { result ≡ may_end state }
{
    matches!(
        state,
        State::Zero | State::Digits | State::Fraction | State::Power
    )
}

/// A byte of a number, or one behind it.
fn counted(state: State, nest: &mut Vec<bool>, byte: u8) -> Option<State>
    ensures { option_map (λ s. (s, nest.new.items)) result ≡ counted state nest.old.items byte }
{
    match number(state, byte) {
        Some(next) => Some(next),
        None if may_end(state) => after(nest, byte),
        None => None,
    }
}

/// The first byte of a name, or a space before it.
fn name(state: State, byte: u8) -> Option<State>
    ensures { result ≡ name state byte }
{
    if byte == b'"' {
        Some(State::Text { is_name: true })
    } else if is_space(byte) {
        Some(state)
    } else {
        None
    }
}

/// A byte; none if no JSON text has it there.
pub(crate) fn step(state: State, nest: &mut Vec<bool>, byte: u8) -> Result<Option<State>, NoMemory>
    ensures { IfOk result (λ next. option_map (λ s. (s, nest.new.items)) next ≡ step state nest.old.items byte) }
{
    match state {
        State::Value => begin(nest, byte),
        State::FirstItem if byte == b']' => Ok(close(nest, false)),
        State::FirstItem if is_space(byte) => Ok(Some(State::FirstItem)),
        State::FirstItem => begin(nest, byte),
        State::FirstName if byte == b'}' => Ok(close(nest, true)),
        State::FirstName | State::Name => Ok(name(state, byte)),
        State::Colon if byte == b':' => Ok(Some(State::Value)),
        State::Colon if is_space(byte) => Ok(Some(State::Colon)),
        State::Colon => Ok(None),
        State::After => Ok(after(nest, byte)),
        State::Minus
        | State::Zero
        | State::Digits
        | State::Point
        | State::Fraction
        | State::Exponent
        | State::Sign
        | State::Power => Ok(counted(state, nest, byte)),
        _ => Ok(inside(state, byte)),
    }
}
