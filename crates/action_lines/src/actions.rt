ghost use Rattle.std.specs.Prelude.{◌≡◌, ◌++◌, [], ◌∷◌, IfOk, OnOk, codes, true};
ghost use Rattle.text_forms.specs.ActionText.{action_text, credentials_json, field, fields_of_action, fraction_json, hash_json, maybe, members_json, previous_field, quoted, targets_json, update_json, numbers_json};
ghost use Rattle.text_model.specs.ActionWords.{kind_text};
ghost use Rattle.action_lines.specs.Adding.{Adds};

use crate::fields::{push_field, push_maybe};
use crate::json::push_quoted;
use coin_frac::Unit;
use credential_list::CredentialList;
use gov_actions::{Action, ActionKind};
use gov_ids::{Account, ActionId, Credential};
use listed::Listed;
use no_memory::NoMemory;
use pparams::Update;
use report::kind_name;

/// Adds what a new committee has.
fn push_committee(
    out: &mut Vec<u8>,
    previous: &Option<ActionId>,
    remove: &CredentialList,
    add: &Listed<(Credential, u64)>,
    threshold: &Unit,
) -> Result<bool, NoMemory>
    ensures { IfOk result (Adds out.old.items true (previous_field previous.now
        ++ field (codes "remove") (credentials_json remove.now) ∷ field (codes "add") (members_json add.now)
        ∷ field (codes "threshold") (fraction_json threshold.now) ∷ []) out.new.items) }
{
    let begun = push_maybe(out, true, "previous", previous)?;
    let begun = push_field(out, begun, "remove", remove)?;
    let begun = push_field(out, begun, "add", add)?;
    push_field(out, begun, "threshold", threshold)
}

/// Adds what a new constitution has.
fn push_constitution(
    out: &mut Vec<u8>,
    previous: &Option<ActionId>,
    document: &[u8; 32],
    script: &Option<[u8; 28]>,
) -> Result<bool, NoMemory>
    ensures { IfOk result (Adds out.old.items true (previous_field previous.now
        ++ field (codes "document") (hash_json document.now) ∷ [] ++ maybe (codes "script") hash_json script.now) out.new.items) }
{
    let begun = push_maybe(out, true, "previous", previous)?;
    let begun = push_field(out, begun, "document", document)?;
    push_maybe(out, begun, "script", script)
}

/// Adds what a hard fork has.
fn push_fork(
    out: &mut Vec<u8>,
    previous: &Option<ActionId>,
    version: &(u32, u32),
) -> Result<bool, NoMemory>
    ensures { IfOk result (Adds out.old.items true (previous_field previous.now
        ++ field (codes "version") (numbers_json version.now) ∷ []) out.new.items) }
{
    let begun = push_maybe(out, true, "previous", previous)?;
    push_field(out, begun, "version", version)
}

/// Adds what a change of parameters has.
fn push_change(
    out: &mut Vec<u8>,
    previous: &Option<ActionId>,
    update: &Update,
    policy: &Option<[u8; 28]>,
) -> Result<bool, NoMemory>
    ensures { IfOk result (Adds out.old.items true (previous_field previous.now
        ++ field (codes "update") (update_json update.now) ∷ [] ++ maybe (codes "policy") hash_json policy.now) out.new.items) }
{
    let begun = push_maybe(out, true, "previous", previous)?;
    let begun = push_field(out, begun, "update", update)?;
    push_maybe(out, begun, "policy", policy)
}

/// Adds what withdrawals have.
fn push_withdrawals(
    out: &mut Vec<u8>,
    targets: &Listed<(Account, u64)>,
    policy: &Option<[u8; 28]>,
) -> Result<bool, NoMemory>
    ensures { IfOk result (Adds out.old.items true (field (codes "targets") (targets_json targets.now) ∷ []
        ++ maybe (codes "policy") hash_json policy.now) out.new.items) }
{
    let begun = push_field(out, true, "targets", targets)?;
    push_maybe(out, begun, "policy", policy)
}

/// Adds what an action has beside its type.
fn push_fields(out: &mut Vec<u8>, a: &Action) -> Result<bool, NoMemory>
    ensures { IfOk result (Adds out.old.items true (fields_of_action a.now) out.new.items) }
{
    match a {
        Action::NoConfidence { previous } => push_maybe(out, true, "previous", previous),
        Action::UpdateCommittee {
            previous,
            remove,
            add,
            threshold,
        } => push_committee(out, previous, remove, add, threshold),
        Action::NewConstitution {
            previous,
            document,
            script,
        } => push_constitution(out, previous, document, script),
        Action::HardForkInitiation { previous, version } => push_fork(out, previous, version),
        Action::ParameterChange {
            previous,
            update,
            policy,
        } => push_change(out, previous, update, policy),
        Action::TreasuryWithdrawals { targets, policy } => push_withdrawals(out, targets, policy),
        Action::Info => Ok(true),
    }
}

/// Adds the type of an action, as the first field.
fn push_type(out: &mut Vec<u8>, kind: ActionKind) -> Result<(), NoMemory>
    ensures { OnOk result (out.new.items ≡ out.old.items ++ field (codes "type") (quoted (kind_text kind))) }
{
    push_quoted(out, "type")?;
    out.push(b':')?;
    push_quoted(out, kind_name(kind))
}

/// Adds an action as compact JSON. After an out-of-memory error the buffer may hold anything. (Own)
/// Fields and parameters are in the order of the formats; absent ones are left out.
pub fn push_action(out: &mut Vec<u8>, a: &Action) -> Result<(), NoMemory>
    ensures { OnOk result (out.new.items ≡ out.old.items ++ action_text a.now) }
{
    out.push(b'{')?;
    push_type(out, a.kind())?;
    push_fields(out, a)?;
    out.push(b'}')?;
    Ok(())
}
