//! Paths, that grow and shrink as a walk goes.
ghost use Rattle.std.specs.Prelude.{◌≡◌, ◌++◌, OnOk, flat_map};
ghost use Rattle.record_notes.specs.Paths.{byte_text, entry_path, is_plain, member_path, name_text};

use no_memory::NoMemory;
use percent_encoding::percent_encode_byte;
use report::push_digits;

/// Whether a byte of a name is written as it is.
fn plain(byte: u8) -> bool
    ensures { result ≡ is_plain byte }
{
    byte.is_ascii_lowercase()
        || byte.is_ascii_uppercase()
        || byte.is_ascii_digit()
        || byte == b'-'
        || byte == b'_'
}

/// Adds a byte of a name.
fn push_byte(path: &mut Vec<u8>, byte: u8) -> Result<(), NoMemory>
    ensures { OnOk result (path.new.items ≡ path.old.items ++ byte_text byte) }
{
    if plain(byte) {
        path.push(byte)?;
    } else {
        path.extend_from_slice(percent_encode_byte(byte).as_bytes())?;
    }
    Ok(())
}

/// Adds a name.
fn push_name(path: &mut Vec<u8>, name: &[u8]) -> Result<(), NoMemory>
    ensures { OnOk result (path.new.items ≡ path.old.items ++ name_text name.now) }
{
    for byte in name {
        push_byte(path, *byte)?;
    }
    Ok(())
}

/// Goes to a member of an object.
pub(crate) fn push_member(path: &mut Vec<u8>, name: &str) -> Result<(), NoMemory>
    ensures { OnOk result (path.new.items ≡ member_path path.old.items name.now) }
{
    if !path.is_empty() {
        path.push(b'.')?;
    }
    push_name(path, name.as_bytes())
}

/// Goes to an entry of an array.
pub(crate) fn push_entry(path: &mut Vec<u8>, index: usize) -> Result<(), NoMemory>
    ensures { OnOk result (path.new.items ≡ entry_path path.old.items index) }
{
    path.push(b'[')?;
    push_digits(path, index as u64)?;
    path.push(b']')?;
    Ok(())
}
