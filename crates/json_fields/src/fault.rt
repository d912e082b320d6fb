ghost use Rattle.std.specs.Prelude.{◌≡◌};

use coin_frac::NoMemory;

/// Why a value cannot be read.
#[derive(Clone, Copy, Debug, PartialEq, Eq)]
pub enum FieldFault {
    /// The field is absent or null.
    Missing,
    /// The value is of another JSON kind.
    WrongKind,
    /// A number, a length or a text breaks the kind's range or form.
    OutOfRange,
    /// Memory ran out.
    NoMemory,
}

impl From<NoMemory> for FieldFault {
    ghost use Rattle.json_fields.specs.declared.fault.FieldFault.TheVariants as faults;

    ghost from_gives = { λ _ e. e ≡ faults.NoMemory };

    fn from(_error: NoMemory) -> FieldFault {
        FieldFault::NoMemory
    }
}
