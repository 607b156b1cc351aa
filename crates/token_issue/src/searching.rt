//! Which counts are clean, by the list of the tokens up to the limit.

ghost use Rattle.std.specs.Prelude.{◌≡◌, ◌+◌, ◌<◌, ◌≤◌, None, Some, IfSome, length, slice_index};
ghost use Rattle.paygo_spec.specs.Least.{least};
ghost use Rattle.ledger_spec.specs.Issuing.{parity_of};
ghost use Rattle.token_issue.specs.Lists.{is_once, may_take};

use crate::chosen::Chosen;
use ledger_spec::Kind;
use paygo_spec::LAST;
use sip_lanes::count_equal;

/// The rest by two of the counts of a kind: those of add tokens are even.
fn parity(kind: Kind) -> u16
    ensures { result ≡ parity_of kind }
{
    match kind {
        Kind::Add => 0,
        Kind::Set | Kind::Disable | Kind::Sync => 1,
    }
}

/// Whether the token of a count stands once among those of the counts from 0 to the greater of 4,095 and this one.
pub(crate) fn is_clean(tokens: &[u32], count: u16) -> bool
    requires within { count < length tokens.now }
    requires whole { LAST < length tokens.now }
    ensures { result ≡ is_once tokens.now count }
{
    let reach = usize::from(LAST.max(count));
    let token = tokens[usize::from(count)];
    count_equal(&tokens[..reach + 1], token) == 1
}

/// Whether a token of this kind may be issued at a count, where `last` was the last count.
fn is_next(tokens: &[u32], last: u16, kind: Kind, count: u16) -> bool
    requires within { count < length tokens.now }
    requires whole { LAST < length tokens.now }
    ensures { result ≡ may_take tokens.now last kind count }
{
    count > last && count % 2 == parity(kind) && is_clean(tokens, count)
}

/// The least count above the last one, of the kind's parity, whose token no other count has, of those up to 4,095 and
/// up to its own, if the list has one; and the token that stands at its place in the list.
#[tactic(auto, using(paygo_spec::proofs::Leasts::least_none, paygo_spec::proofs::Leasts::least_skip, paygo_spec::proofs::Leasts::least_found))]
pub(crate) fn least_clean(tokens: &[u32], last: u16, limit: u16, kind: Kind) -> Option<Chosen>
    requires whole { LAST ≤ limit }
    requires low { limit ≤ 16383 }
    requires length { length tokens.now ≡ limit + 1 }
    ensures none { result ≡ None → least (may_take tokens.now last kind) (limit + 1) ≡ None }
    ensures count { IfSome result (λ chosen. least (may_take tokens.now last kind) (limit + 1) ≡ Some chosen.count) }
    ensures within { IfSome result (λ chosen. chosen.count ≤ limit) }
    ensures token { IfSome result (λ chosen. chosen.token ≡ slice_index tokens.now chosen.count) }
{
    'counts: for count in 0..limit + 1 {
        if is_next(tokens, last, kind, count) {
            return Some(Chosen {
                count,
                token: tokens[usize::from(count)],
            });
        }
    }
    None
}
