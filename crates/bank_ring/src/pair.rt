// Which two banks of a media are shown.
ghost use Rattle.std.specs.Prelude.{◌≡◌, ◌≢◌, ℕ, ◌-◌, ◌≤◌, ◌<◌, ◌*◌, ◌==◌, IfSome, length, slice_index, if◌then◌else◌};
ghost use Rattle.paygo_spec.specs.Least.{least};
ghost use Rattle.paygo_spec.specs.Rail.{is_railed, number_in};
ghost use Rattle.paygo_spec.specs.Recovery.{is_header};
ghost use Rattle.bank_ring.specs.View.{next_bank, previous_bank, is_bad, is_twin, has_twin, is_passed, is_newest, by_newest, by_twins, by_bad, start_pair, in_slot, newest_slot, erased_by, pair_with, IsPair, pair_of};

use word_rail::{paired, unrail};

// The number of the last bank of a journal.
const LAST_BANK: u32 = 100_000;

/// Two banks of a media: the one that is shown as bank 0, and the one that is shown as bank 1.
#[derive(Clone, Copy, Debug, PartialEq, Eq)]
pub struct Pair {
    /// The bank of the media that is shown as bank 0.
    pub first: u16,
    /// The bank of the media that is shown as bank 1.
    pub second: u16,
}

// The bank after this one, in turn.
pub(crate) fn next_bank(banks: u16, bank: u16) -> u16
    requires { bank < banks }
    ensures value { result ≡ next_bank banks bank }
    ensures within { result < banks }
{
    if bank + 1 == banks { 0 } else { bank + 1 }
}

// The bank before this one, in turn.
fn previous_bank(banks: u16, bank: u16) -> u16
    requires { bank < banks }
    ensures value { result ≡ previous_bank banks bank }
    ensures within { result < banks }
{
    if bank == 0 { banks - 1 } else { bank - 1 }
}

// Whether a header is paired, and has a bank's number where it is railed.
fn is_sound(word: u64) -> bool
    ensures { result ≡ is_header word }
{
    paired(word)
        && match unrail(word) {
            Some(number) => 1 <= number && number <= LAST_BANK,
            None => true,
        }
}

// Whether the header of this bank is one that no cut leaves.
fn is_bad(headers: &[u64], bank: u16) -> bool
    requires { bank < length headers.now }
    ensures { result ≡ is_bad (λ b. slice_index headers.now b) bank }
{
    !is_sound(headers[usize::from(bank)])
}

// Whether another bank has the same railed number.
fn is_twin(headers: &[u64], bank: u16, other: u16) -> bool
    requires bank { bank < length headers.now }
    requires other { other < length headers.now }
    ensures { result ≡ is_twin (λ b. slice_index headers.now b) bank other }
{
    let word = headers[usize::from(bank)];
    let twin = headers[usize::from(other)];
    bank != other
        && match (unrail(word), unrail(twin)) {
            (Some(number), Some(same)) => number == same,
            _ => false,
        }
}

// Whether the other bank has a greater number.
fn is_passed(headers: &[u64], bank: u16, other: u16) -> bool
    requires bank { bank < length headers.now }
    requires other { other < length headers.now }
    ensures { result ≡ is_passed (λ b. slice_index headers.now b) bank other }
{
    let word = headers[usize::from(bank)];
    match unrail(headers[usize::from(other)]) {
        Some(number) => ((word >> 32) as u32) < number,
        None => false,
    }
}

// The first bank with a header that no cut leaves.
#[tactic(auto, using(paygo_spec::proofs::Leasts::least_none, paygo_spec::proofs::Leasts::least_skip, paygo_spec::proofs::Leasts::least_found))]
fn first_bad(headers: &[u64], banks: u16) -> Option<u16>
    requires { length headers.now ≡ banks }
    ensures value { result ≡ least (is_bad (λ b. slice_index headers.now b)) banks }
    ensures within { IfSome result (λ found. found < banks) }
{
    'banks: for bank in 0..banks {
        if is_bad(headers, bank) {
            return Some(bank);
        }
    }
    None
}

// The first other bank with the number of this one.
#[tactic(auto, using(paygo_spec::proofs::Leasts::least_none, paygo_spec::proofs::Leasts::least_skip, paygo_spec::proofs::Leasts::least_found))]
fn twin_of(headers: &[u64], banks: u16, bank: u16) -> Option<u16>
    requires whole { length headers.now ≡ banks }
    requires within { bank < banks }
    ensures value { result ≡ least (is_twin (λ b. slice_index headers.now b) bank) banks }
    ensures within { IfSome result (λ found. found < banks) }
{
    'banks: for other in 0..banks {
        if is_twin(headers, bank, other) {
            return Some(other);
        }
    }
    None
}

// The first bank that has a twin.
#[tactic(auto, using(paygo_spec::proofs::Leasts::least_none, paygo_spec::proofs::Leasts::least_skip, paygo_spec::proofs::Leasts::least_found))]
fn first_twin(headers: &[u64], banks: u16) -> Option<u16>
    requires { length headers.now ≡ banks }
    ensures value { result ≡ least (has_twin (λ b. slice_index headers.now b) banks) banks }
    ensures within { IfSome result (λ found. found < banks) }
{
    'banks: for bank in 0..banks {
        if twin_of(headers, banks, bank).is_some() {
            return Some(bank);
        }
    }
    None
}

// The first bank with a greater number.
#[tactic(auto, using(paygo_spec::proofs::Leasts::least_none, paygo_spec::proofs::Leasts::least_skip, paygo_spec::proofs::Leasts::least_found))]
fn passed_by(headers: &[u64], banks: u16, bank: u16) -> Option<u16>
    requires whole { length headers.now ≡ banks }
    requires within { bank < banks }
    ensures value { result ≡ least (is_passed (λ b. slice_index headers.now b) bank) banks }
    ensures within { IfSome result (λ found. found < banks) }
{
    'banks: for other in 0..banks {
        if is_passed(headers, bank, other) {
            return Some(other);
        }
    }
    None
}

// Whether no bank has a greater number than this one, which is railed.
fn is_newest(headers: &[u64], banks: u16, bank: u16) -> bool
    requires whole { length headers.now ≡ banks }
    requires within { bank < banks }
    ensures { result ≡ is_newest (λ b. slice_index headers.now b) banks bank }
{
    unrail(headers[usize::from(bank)]).is_some() && passed_by(headers, banks, bank).is_none()
}

// The newest bank.
#[tactic(auto, using(paygo_spec::proofs::Leasts::least_none, paygo_spec::proofs::Leasts::least_skip, paygo_spec::proofs::Leasts::least_found))]
fn newest(headers: &[u64], banks: u16) -> Option<u16>
    requires { length headers.now ≡ banks }
    ensures value { result ≡ least (is_newest (λ b. slice_index headers.now b) banks) banks }
    ensures within { IfSome result (λ found. found < banks) }
{
    'banks: for bank in 0..banks {
        if is_newest(headers, banks, bank) {
            return Some(bank);
        }
    }
    None
}

// The two banks that a ring shows when it starts, by the headers of all banks.
pub(crate) fn start_pair(headers: &[u64], banks: u16) -> Pair
    requires whole { length headers.now ≡ banks }
    requires two { 2 ≤ banks }
    ensures { result ≡ start_pair (λ b. slice_index headers.now b) banks }
{
    if let Some(bank) = first_bad(headers, banks) {
        return Pair {
            first: bank,
            second: next_bank(banks, bank),
        };
    }
    if let Some(bank) = first_twin(headers, banks) {
        return Pair {
            first: bank,
            second: match twin_of(headers, banks, bank) {
                Some(twin) => twin,
                None => next_bank(banks, bank),
            },
        };
    }
    match newest(headers, banks) {
        Some(bank) => Pair {
            first: bank,
            second: previous_bank(banks, bank),
        },
        None => Pair {
            first: 0,
            second: 1,
        },
    }
}

impl Pair {
    // The bank that is shown as bank 0 or 1.
    pub(crate) fn slot(self, slot: u16) -> u16
        ensures value { result ≡ in_slot self slot }
        ensures within { (banks : ℕ) → IsPair banks self → result < banks }
    {
        if slot == 0 { self.first } else { self.second }
    }

    // This bank in the place of bank 0 or 1.
    pub(crate) fn with(self, slot: u16, bank: u16) -> Pair
        ensures { result ≡ pair_with self slot bank }
    {
        if slot == 0 {
            Pair {
                first: bank,
                second: self.second,
            }
        } else {
            Pair {
                first: self.first,
                second: bank,
            }
        }
    }

    // The bank to which an erase of a shown bank goes, by the headers of the two.
    pub(crate) fn erased_by(self, banks: u16, slot: u16, first: u64, second: u64) -> u16
        requires pair { IsPair banks self }
        requires slot { slot < 2 }
        ensures value { result ≡ erased_by banks self slot (newest_slot first second) }
        ensures within { result < banks }
        ensures other { result ≢ in_slot self (1 - slot) }
    {
        match newest_slot(first, second) {
            Some(newest) if newest != slot => next_bank(banks, self.slot(newest)),
            _ => self.slot(slot),
        }
    }
}

// The newest of the two banks shown, by their headers.
fn newest_slot(first: u64, second: u64) -> Option<u16>
    ensures value { result ≡ newest_slot first second }
    ensures within { IfSome result (λ slot. slot < 2) }
{
    match (unrail(first), unrail(second)) {
        (Some(one), Some(other)) => Some(if other <= one { 0 } else { 1 }),
        (Some(_), None) => Some(0),
        (None, Some(_)) => Some(1),
        (None, None) => None,
    }
}
