//! The number of the rule of refusal that only a followed stream has, as it is printed. (Own)

/// RollbackUnknown: No accepted block of this epoch and not rolled back has the slot. Keeps `last`.
pub const ROLLBACK_UNKNOWN: u16 = 13;
