//! The lines that register accounts.
ghost use Rattle.std.specs.Prelude.{◌≡◌, ◌+◌, ◌-◌, ◌<◌, ◌≤◌, [], ◌∷◌, ◌++◌, codes, flat_map, length, map};
ghost use Rattle.std.specs.List.{range_with_len};
ghost use Rattle.load_model.specs.Amounts.{left_by_registration, place_before_registration, registration_count, registration_name};
ghost use Rattle.load_model.specs.Json.{with_commas};
ghost use Rattle.load_model.specs.Stream.{account_cert, account_output, drep_of, left_output, output_of, registration_line, transaction_begun};
ghost use Rattle.gen_load.specs.Pieces.{cert_begun};
ghost use Rattle.gen_load.specs.declared.line.TheConstants.{LINE_MAX};

use crate::accounts::{end_of, first_of, name_of, registration_name_of, weight_of};
use crate::line::LineBuffer;
use crate::parts::Part::{Hash28, Hash32, Number, Text};
use crate::parts::push_parts;

/// Adds the output of an account, by the number in its name.
fn push_output(line: &mut LineBuffer, name: u64, lovelace: u64)
    requires { length line.old + 149 ≤ LINE_MAX }
    ensures text { line.new ≡ line.old ++ output_of name lovelace }
    ensures longer { length line.new ≤ length line.old + 149 }
{
    push_parts(
        line,
        &[
            Text("[\"1k"),
            Hash28(1),
            Text("+k"),
            Hash28(name),
            Text("\","),
            Number(lovelace),
            Text(",0]"),
        ],
    );
}

/// Adds the output of an account, and a comma.
fn push_account_output(line: &mut LineBuffer, seed: u64, account: u32)
    requires account { account ≤ 1000000 }
    requires room { length line.old + 150 ≤ LINE_MAX }
    ensures text { line.new ≡ line.old ++ (account_output seed account ++ 44 ∷ []) }
    ensures longer { length line.new ≤ length line.old + 150 }
{
    let name = name_of(account);
    let weight = weight_of(seed, account);
    push_output(line, name, weight);
    line.push(b",");
}

/// Adds the outputs of the accounts from `first` on, each followed by a comma.
fn push_account_outputs(line: &mut LineBuffer, seed: u64, first: u32, end: u32)
    requires few { end ≤ first + 500 }
    requires accounts { end ≤ 1000000 }
    requires room { length line.old + 75000 ≤ LINE_MAX }
    ensures text { line.new ≡
        line.old ++ flat_map (λ i. account_output seed i ++ 44 ∷ []) (range_with_len first (end - first)) }
    ensures longer { length line.new ≤ length line.old + 75000 }
{
    for account in first..end {
        push_account_output(line, seed, account);
    }
}

/// Adds the DRep that an account delegates its vote to.
fn push_drep(line: &mut LineBuffer, account: u32)
    requires room { length line.old + 57 ≤ LINE_MAX }
    ensures text { line.new ≡ line.old ++ drep_of account }
    ensures longer { length line.new ≤ length line.old + 57 }
{
    match account % 4 {
        3 => push_parts(line, &[Text("abstain")]),
        2 => push_parts(line, &[Text("k"), Hash28(31)]),
        _ => push_parts(line, &[Text("k"), Hash28(30)]),
    }
}

/// Begins the registration of an account, by the number in its name.
fn begin_cert(line: &mut LineBuffer, name: u64)
    requires { length line.old + 170 ≤ LINE_MAX }
    ensures text { line.new ≡ line.old ++ cert_begun name }
    ensures longer { length line.new ≤ length line.old + 170 }
{
    push_parts(
        line,
        &[
            Text("{\"cert\":\"account-reg\",\"cred\":\"k"),
            Hash28(name),
            Text("\",\"pool\":\""),
            Hash28(50),
            Text("\",\"drep\":\""),
        ],
    );
}

/// Adds the registration of an account.
fn push_account_cert(line: &mut LineBuffer, account: u32)
    requires account { account ≤ 1000000 }
    requires room { length line.old + 249 ≤ LINE_MAX }
    ensures text { line.new ≡ line.old ++ account_cert account }
    ensures longer { length line.new ≤ length line.old + 249 }
{
    let name = name_of(account);
    begin_cert(line, name);
    push_drep(line, account);
    line.push(b"\"}");
}

/// Adds a comma, and the registration of an account.
fn push_further_cert(line: &mut LineBuffer, account: u32)
    requires account { account ≤ 1000000 }
    requires room { length line.old + 250 ≤ LINE_MAX }
    ensures text { line.new ≡ line.old ++ 44 ∷ account_cert account }
    ensures longer { length line.new ≤ length line.old + 250 }
{
    line.push(b",");
    push_account_cert(line, account);
}

/// Adds the registrations of the accounts from `first` on.
fn push_account_certs(line: &mut LineBuffer, first: u32, end: u32)
    requires some { first < end }
    requires few { end ≤ first + 500 }
    requires accounts { end ≤ 1000000 }
    requires room { length line.old + 125000 ≤ LINE_MAX }
    ensures text { line.new ≡ line.old ++ with_commas (map account_cert (range_with_len first (end - first))) }
    ensures longer { length line.new ≤ length line.old + 125000 }
{
    push_account_cert(line, first);
    for account in first + 1..end {
        push_further_cert(line, account);
    }
}

/// The place of the output that a registration takes.
fn place_before(accounts: u32, registration: u32) -> u64
    requires accounts { accounts ≤ 1000000 }
    requires registration { registration < registration_count accounts }
    ensures { result ≡ place_before_registration accounts registration }
{
    if registration == 0 {
        return 0;
    }
    u64::from(end_of(accounts, registration - 1) - first_of(registration - 1))
}

/// Begins a transaction, up to its outputs.
fn begin(line: &mut LineBuffer, name: u64, place: u64)
    requires empty { line.old ≡ [] }
    requires name { 0 < name }
    ensures text { line.new ≡ transaction_begun name place }
    ensures longer { length line.new ≤ 300 }
{
    push_parts(
        line,
        &[
            Text("{\"kind\":\"tx\",\"id\":\""),
            Hash32(name),
            Text("\",\"inputs\":[\""),
            Hash32(name - 1),
            Text("#"),
            Number(place),
            Text("\"],\"outputs\":["),
        ],
    );
}

/// Adds the output of the rest.
fn push_left(line: &mut LineBuffer, left: u64)
    requires { length line.old + 100 ≤ LINE_MAX }
    ensures text { line.new ≡ line.old ++ left_output left }
    ensures longer { length line.new ≤ length line.old + 100 }
{
    push_parts(
        line,
        &[
            Text("[\"1k"),
            Hash28(1),
            Text("\","),
            Number(left),
            Text(",0]"),
        ],
    );
}

/// Ends the outputs and begins the certificates.
fn push_middle(line: &mut LineBuffer)
    requires { length line.old + 30 ≤ LINE_MAX }
    ensures text { line.new ≡ line.old ++ codes "],\"fee\":1,\"size\":0,\"certs\":[" }
    ensures longer { length line.new ≤ length line.old + 30 }
{
    line.push(b"],\"fee\":1,\"size\":0,\"certs\":[");
}

/// Writes the line of a registration; `left` is the rest, in lovelace.
pub(crate) fn push_registration_line(
    line: &mut LineBuffer,
    seed: u64,
    accounts: u32,
    registration: u32,
    left: u64,
)
    requires empty { line.old ≡ [] }
    requires accounts { accounts ≤ 1000000 }
    requires registration { registration < registration_count accounts }
    requires left { left ≡ left_by_registration seed accounts registration }
    ensures text { line.new ≡ registration_line seed accounts registration }
    ensures short { length line.new ≤ 201000 }
{
    let first = first_of(registration);
    let end = end_of(accounts, registration);
    let name = registration_name_of(registration);
    let place = place_before(accounts, registration);
    begin(line, name, place);
    push_account_outputs(line, seed, first, end);
    push_left(line, left);
    push_middle(line);
    push_account_certs(line, first, end);
    line.push(b"]}");
}
