//! Readers of JSON values, one for each kind of field. Each returns `WrongKind` for a value
//! of another JSON kind, and `OutOfRange` for one that breaks the range or form.
#![tactic(auto)]

mod distinct;
mod fault;
mod kinds;
mod lists;
mod readers;

pub use distinct::read_distinct_list;
pub use fault::FieldFault;
pub use kinds::{maybe, needed};
pub use lists::{Kind, ListFault, read_list};
pub use readers::{
    field, optional_field, read_account, read_action_id, read_address, read_asset_name, read_bool,
    read_credential, read_drep, read_five, read_four, read_hash28, read_hash32, read_items,
    read_number_below, read_pair, read_pool_id, read_ratio, read_ref, read_six_or_seven, read_text,
    read_three, read_three_or_four, read_tx_id, read_u16, read_u32, read_u64, read_unit,
    read_voter,
};
