// The plain types of the device, a few tests on them and, in specs/, the definitions that the contracts of other crates cite.
// What a word of a contract means is read in the four crates of definitions: here for the device, in ledger_spec for the
// shop, in run_spec for a run of both and in fleet_spec for a fleet; and where a crate above has words of its own, in its specs/.
#![tactic(auto)]

ghost use Rattle.std.specs.Prelude.{◌≡◌, ◌≢◌, ◌↔◌, IsNone, IfSome};
ghost use Rattle.paygo_spec.specs.Clock.{divides_day};
ghost use Rattle.paygo_spec.specs.Digits.{digit_count, form_of};
ghost use Rattle.paygo_spec.specs.History.{kind_of};

/// The greatest count of a token on a device that wasn't raised. The counts of a chain run from 0 to this one.
pub const LAST: u16 = 4095;

/// The greatest count of a token on a device that was raised.
pub const GREAT: u16 = 16_383;

/// The greatest time left, in seconds: more than 30,000 years.
pub const MOST_LEFT: u64 = 1_000_000_000_000;

/// How many seconds a day has.
pub const DAY: u32 = 86_400;

/// Whether a day has a whole number of seconds for so many units of time: only then can a device have this divider.
pub fn is_divider(n: u64) -> bool
    ensures { result ≡ divides_day n }
{
    n > 0 && n < 256 && u64::from(DAY) % n == 0
}

/// What a device's history is made of: one entry for each event that changed its state, and one for each tick. Of ticks
/// that changed nothing the flash keeps no entry.
#[derive(Clone, Copy, Debug, PartialEq, Eq)]
pub enum Entry {
    /// A token was accepted: its count, from 1 to 16,383, and its value, from 0 to 999.
    Accept { count: u16, value: u16 },
    /// A typed token was invalid.
    Bad,
    /// So many seconds passed: at most 999,999,999, and on the flash at least 1.
    Elapsed { seconds: u32 },
    /// The device was raised: from now on it takes counts up to 16,383, and the least match of a token alone decides. No
    /// word of the flash says so: it stands in the head of a bank.
    Raised,
}

/// What kind of token a count and a value are.
#[derive(Clone, Copy, Debug, PartialEq, Eq)]
pub enum TokenKind {
    /// An add token: its units are added to the time left.
    Add,
    /// A set token: the time left becomes its units.
    Set,
    /// A disable token: the device is paid off, and free from now on.
    Free,
    /// A sync token: only the count moves.
    Sync,
}

impl TokenKind {
    /// The kind of the token of this count and value. A value up to 995 is that of a set token with an odd count, and of
    /// an add token with an even one; with an odd count 998 is that of a disable token, and 999 that of a sync token.
    /// None for any others, which no token has.
    pub fn of(count: u16, value: u16) -> Option<TokenKind>
        ensures { result ≡ kind_of count value }
    {
        if count % 2 == 1 {
            match value {
                0..=995 => Some(TokenKind::Set),
                998 => Some(TokenKind::Free),
                999 => Some(TokenKind::Sync),
                _ => None,
            }
        } else if value <= 995 {
            Some(TokenKind::Add)
        } else {
            None
        }
    }
}

/// The form in which a token is typed.
#[derive(Clone, Copy, Debug, PartialEq, Eq)]
pub enum Form {
    /// Nine digits from `0` to `9`: the token as a decimal number, with its leading zeros.
    Nine,
    /// Fifteen digits from `1` to `4`: the token's 30 bits in pairs from the most significant, each as its number
    /// plus one.
    Fifteen,
}

impl Form {
    /// The form with this number of digits. None exactly where the number is neither 9 nor 15.
    pub fn of(number: u8) -> Option<Form>
        ensures none { IsNone result ↔ ((number ≢ 9) × (number ≢ 15)) }
        ensures form { IfSome result (λ form. digit_count form ≡ number) }
        ensures value { result ≡ form_of number }
    {
        match number {
            9 => Some(Form::Nine),
            15 => Some(Form::Fifteen),
            _ => None,
        }
    }

    /// How many digits a token has in this form: 9 or 15.
    pub fn length(self) -> usize
        ensures { result ≡ digit_count self }
    {
        match self {
            Form::Nine => 9,
            Form::Fifteen => 15,
        }
    }
}

/// What a device is made with, once in its life.
#[derive(Clone, Copy, Debug, PartialEq, Eq)]
pub struct Config {
    /// The key of the token chain, which the shop keeps too.
    pub key: [u8; 16],
    /// The starting code of the token chain, below 1,000,000,000.
    pub start: u32,
    /// How many units of time make a day: from 1 to 255, a divisor of 86,400.
    pub divider: u8,
    /// The form in which its customer types tokens.
    pub form: Form,
}

/// What may happen to a device.
#[derive(Clone, Copy, Debug, PartialEq, Eq)]
pub enum Event {
    /// The power comes on, or comes back.
    Power,
    /// The device is made, with this configuration.
    Make(Config),
    /// A key of the pad is pressed: a byte from `0` to `9`, `*` or `#`.
    Key(u8),
    /// So many seconds pass, at most 999,999,999.
    Tick(u32),
    /// The device is asked what it shows.
    Show,
    /// The device is raised, to the greater of the two limits.
    Raise,
}

/// What a device answers to an event. Time left and blocks are in seconds.
#[derive(Clone, Copy, Debug, PartialEq, Eq)]
pub enum Reply {
    /// A set token was accepted: the time left is now what it says.
    Set {
        count: u16,
        value: u16,
        left: u64,
    },
    /// An add token was accepted: its time was added, but not on a device that is free.
    Added {
        count: u16,
        value: u16,
        left: u64,
        free: bool,
    },
    /// A disable token was accepted: the device is paid off, and free from now on.
    Free {
        count: u16,
    },
    /// A sync token was accepted: it only moves the last count.
    Synced {
        count: u16,
    },
    /// The token is one of the device's own chain that gives nothing: it was used or overtaken, or it is that of count 0, or
    /// its value is none that its count takes. Nothing changed but the pad, which is cleared.
    Old,
    /// The digits are the token of no count in reach. Entries are blocked for so long.
    Invalid {
        block: u32,
    },
    /// Entries are blocked for so long. Nothing changed but the pad, which is cleared.
    Blocked {
        block: u32,
    },
    /// The entry has so many digits, a number that stops at 99, and the form has another. Nothing changed but the pad,
    /// which is cleared.
    Length {
        n: u8,
    },
    /// At this place, counted from 1, stands the first digit of the entry that isn't one of the form. Nothing changed but
    /// the pad, which is cleared.
    Digits {
        place: u8,
    },
    /// The flash has no room for one more entry. The event wasn't taken.
    Worn,
    /// The device takes counts up to 16,383, from now on or since before.
    Raised,
    /// The flash failed. The device is off until its power comes back, and the event counts wholly or not at all, which
    /// that shows.
    Down,
    /// The device is up: its last count, its time left, whether it is free, and its block.
    Up {
        count: u16,
        left: u64,
        free: bool,
        block: u32,
    },
    /// The time passed: the time left, whether the device is free, and its block.
    Ticked {
        left: u64,
        free: bool,
        block: u32,
    },
    /// The device hasn't been made yet.
    Unmade,
    /// The device was made before: the number of the bank in use.
    Made {
        number: u32,
    },
    /// The flash is damaged, as its word at this place, from 0 to 1,023, shows.
    Damaged {
        place: u16,
    },
    /// What the device shows: its last count, its time left, whether it is free, its failures, its block, how many
    /// digits its pad holds, and how many more entries its flash has room for.
    Shown {
        count: u16,
        left: u64,
        free: bool,
        fails: u8,
        block: u32,
        held: u8,
        room: u64,
    },
}

/// What a device makes of a token that is typed in.
#[derive(Clone, Copy, Debug, PartialEq, Eq)]
pub enum Found {
    /// The device takes it: the least count at which it is valid, from 1 to 16,383, and its value, from 0 to 999.
    Valid { count: u16, value: u16 },
    /// It is a token of the device's own chain, and gives nothing: it was used or overtaken, or it is that of count 0,
    /// or its value is none that its count takes. The least count whose token it is, from 0 to 16,383.
    Old { count: u16 },
    /// It is the token of no count from 0 to the reach, the greatest count that the device takes next.
    Invalid,
}

/// A planned power cut: `after` live calls that pass, and then one that fails.
#[derive(Clone, Copy, Debug, PartialEq, Eq)]
pub struct Cut {
    /// How many live calls pass before the one that fails.
    pub after: u32,
    /// Which bits the call that fails leaves 1: programming `w` leaves `w | keep`, and erasing leaves `old | keep` in each
    /// word of the bank. The other calls leave the words as they were.
    pub keep: u64,
}

/// Want of memory: what a call asked of the allocator wasn't given.
#[derive(Clone, Copy, Debug, PartialEq, Eq)]
pub struct Memory;
