//! The count at which the next token is issued, and that token.

ghost use Rattle.std.specs.Prelude.{◌≡◌, ◌≢◌, ◌+◌, ◌<◌, ◌≤◌, ◌^◌, true, false, Some, None, Err, IfOk, IsOk, OnOk, OnErr};
ghost use Rattle.paygo_spec.specs.Chain.{token_at};
ghost use Rattle.ledger_spec.specs.Issuing.{is_clean, pick};
ghost use Rattle.ledger_spec.specs.Tables.{is_limit};
ghost use Rattle.token_issue.specs.Kept.{key_of, is_kept, front, new_front};
ghost use Rattle.token_issue.specs.Lists.{counts_for};

use crate::chosen::Chosen;
use crate::listing::tokens_of;
use crate::searching::{self, least_clean};
use crate::table_key::table_of;
use crate::tables::Tables;
use ledger_spec::Kind;
use paygo_spec::{GREAT, LAST, Memory};
use std::alloc::Global;
use token_chain::Mixer;

/// Why no count is issued.
#[derive(Clone, Copy, Debug, PartialEq, Eq)]
pub enum IssueFault {
    /// No count above the last one and up to the limit, of the kind's parity, is clean.
    NoCount,
    /// There was no memory for the list of tokens, or for keeping it.
    Memory,
}

/// The count at which a token of this kind and value is issued to the device with this key and starting code, and that
/// token. The count is the least one above the device's last count and up to its limit, of the kind's parity, whose
/// token no other count has, of those up to 4,095 and up to its own. `NoCount` comes exactly where there is none.
///
/// The starting code is below 1,000,000,000, the value is from 0 to 999, the limit is 4,095 or 16,383, and the last
/// count is at most the limit.
///
/// The call asks the list of the tokens of all counts up to the limit, and takes the token from its place in the list,
/// so that the chain is walked once at most. It takes memory only where the list isn't kept, and keeps it then, in
/// front of those that are kept; `Memory` leaves these as they were.
#[tactic(auto, using(crate::proofs::Listed::listed_pick, crate::proofs::Listed::values_length))]
pub fn next_token<M: Mixer>(
    alloc: Global,
    tables: &mut Tables<M>,
    key: &[u8; 16],
    start: u32,
    last: u16,
    limit: u16,
    kind: Kind,
    value: u16,
) -> Result<Chosen, IssueFault>
    requires start { start < 10 ^ 9 }
    requires last { last ≤ limit }
    requires limit { is_limit limit ≡ true }
    requires value { value < 1000 }

    // The count that is issued, and its token.
    ensures count { IfOk result (λ chosen. pick (M.next key.now) start limit last kind value ≡ Some chosen.count) }
    ensures token { IfOk result (λ chosen. chosen.token ≡ token_at (M.next key.now) start value chosen.count) }
    ensures below { IfOk result (λ chosen. chosen.token < 10 ^ 9) }
    ensures none { result ≡ Err IssueFault.NoCount → pick (M.next key.now) start limit last kind value ≡ None }

    // The lists that are kept.
    ensures memory_only_for_a_new_list { is_kept (key_of key.now start value (limit + 1)) tables.old ≡ true →
        result ≢ Err IssueFault.Memory }
    ensures used { let list = key_of key.now start value (limit + 1) in
        is_kept list tables.old ≡ true → tables.new ≡ front list tables.old }
    ensures new { let list = key_of key.now start value (limit + 1) in
        is_kept list tables.old ≡ false → result ≢ Err IssueFault.Memory → tables.new ≡ new_front list tables.old }
    ensures memory { result ≡ Err IssueFault.Memory → tables.new ≡ tables.old }
{
    let table = table_of(key, start, value, limit + 1);
    if let Some(tokens) = tables.tokens(&table) {
        let found = least_clean(tokens, last, limit, kind);
        tables.bring_to_front(&table);
        return found.ok_or(IssueFault::NoCount);
    }
    let Ok(tokens) = tokens_of::<M>(alloc, &table) else {
        return Err(IssueFault::Memory);
    };
    let found = least_clean(&tokens, last, limit, kind);
    if tables.keep(table, tokens).is_err() {
        return Err(IssueFault::Memory);
    }
    found.ok_or(IssueFault::NoCount)
}

/// The count at which a token of this kind and value is issued to the device with this key and starting code: the least
/// one above its last count and up to its limit, of the kind's parity, whose token no other count has, of those up to
/// 4,095 and up to its own. `NoCount` comes exactly where there is none.
///
/// The starting code is below 1,000,000,000, the value is from 0 to 999, the limit is 4,095 or 16,383, and the last
/// count is at most the limit.
///
/// The call asks the list of the tokens of all counts up to the limit. It takes memory only where the list isn't kept,
/// and keeps it then, in front of those that are kept; `Memory` leaves these as they were.
pub fn next_count<M: Mixer>(
    alloc: Global,
    tables: &mut Tables<M>,
    key: &[u8; 16],
    start: u32,
    last: u16,
    limit: u16,
    kind: Kind,
    value: u16,
) -> Result<u16, IssueFault>
    requires start { start < 10 ^ 9 }
    requires last { last ≤ limit }
    requires limit { is_limit limit ≡ true }
    requires value { value < 1000 }

    // The count that is issued.
    ensures count { IfOk result (λ count. pick (M.next key.now) start limit last kind value ≡ Some count) }
    ensures none { result ≡ Err IssueFault.NoCount → pick (M.next key.now) start limit last kind value ≡ None }

    // The lists that are kept.
    ensures memory_only_for_a_new_list { is_kept (key_of key.now start value (limit + 1)) tables.old ≡ true →
        result ≢ Err IssueFault.Memory }
    ensures used { let list = key_of key.now start value (limit + 1) in
        is_kept list tables.old ≡ true → tables.new ≡ front list tables.old }
    ensures new { let list = key_of key.now start value (limit + 1) in
        is_kept list tables.old ≡ false → result ≢ Err IssueFault.Memory → tables.new ≡ new_front list tables.old }
    ensures memory { result ≡ Err IssueFault.Memory → tables.new ≡ tables.old }
{
    match next_token(alloc, tables, key, start, last, limit, kind, value) {
        Ok(chosen) => Ok(chosen.count),
        Err(fault) => Err(fault),
    }
}

/// Whether no other count, from 0 to the greater of 4,095 and this one, has the token of this count and value, on the
/// device with this key and starting code.
///
/// The starting code is below 1,000,000,000, the count is from 0 to 16,383, and the value is from 0 to 999.
///
/// The call asks the list of the tokens of 4,096 counts where that has the count, and of 16,384 counts where it hasn't.
/// It takes memory only where the list isn't kept, and keeps it then, in front of those that are kept; `Memory` leaves
/// these as they were.
#[tactic(auto, using(crate::proofs::Listed::listed_clean, crate::proofs::Listed::values_length))]
pub fn clean<M: Mixer>(
    alloc: Global,
    tables: &mut Tables<M>,
    key: &[u8; 16],
    start: u32,
    count: u16,
    value: u16,
) -> Result<bool, Memory>
    requires start { start < 10 ^ 9 }
    requires count { count ≤ GREAT }
    requires value { value < 1000 }

    // The answer.
    ensures answer { IfOk result (λ answer. answer ≡ is_clean (M.next key.now) start value count) }

    // The lists that are kept.
    ensures memory_only_for_a_new_list { is_kept (key_of key.now start value (counts_for count)) tables.old ≡ true →
        IsOk result }
    ensures used { let list = key_of key.now start value (counts_for count) in
        is_kept list tables.old ≡ true → tables.new ≡ front list tables.old }
    ensures new { let list = key_of key.now start value (counts_for count) in
        is_kept list tables.old ≡ false → OnOk result (tables.new ≡ new_front list tables.old) }
    ensures memory { OnErr result (tables.new ≡ tables.old) }
{
    let table = table_of(key, start, value, counts_for(count));
    if let Some(tokens) = tables.tokens(&table) {
        let answer = searching::is_clean(tokens, count);
        tables.bring_to_front(&table);
        return Ok(answer);
    }
    let tokens = tokens_of::<M>(alloc, &table)?;
    let answer = searching::is_clean(&tokens, count);
    tables.keep(table, tokens)?;
    Ok(answer)
}

/// How many counts the list has that tells whether this count is clean.
fn counts_for(count: u16) -> u16
    requires { count ≤ GREAT }
    ensures counts { result ≡ counts_for count }
    ensures within { count < result }
    ensures whole { LAST < result }
{
    if count > LAST { GREAT + 1 } else { LAST + 1 }
}
