use super::*;

/// Tokens, and their nine and fifteen digits.
const TOKENS: [(u32, &[u8; 9], &[u8; 15]); 3] = [
    (0, b"000000000", b"111111111111111"),
    (999_999_999, b"999999999", b"434323341324444"),
    (123_463_819, b"123463819", b"124223443313134"),
];

#[test]
fn digits_of_tokens(rt: HostRuntime) {
    for (token, nine, fifteen) in TOKENS {
        assert!(rt; token < 1_000_000_000);
        let mut out = *b"---------------";
        assert_eq!(rt; write(Form::Nine, token, &mut out), 9);
        assert!(rt; out[..9] == nine[..] && out[9..] == b"------"[..]);
        assert_eq!(rt; write(Form::Fifteen, token, &mut out), 15);
        assert!(rt; out == *fifteen);
        assert_eq!(rt; read(Form::Nine, nine), Ok(token));
        assert_eq!(rt; read(Form::Fifteen, fifteen), Ok(token));
    }
}

/// What is typed where fifteen digits are due, and what it says.
const TYPED: [(&[u8], Result<u32, DigitFault>); 4] = [
    (b"444444444444444", Ok(1_073_741_823)),
    (b"123450000000000", Err(DigitFault::Digit(5))),
    (b"123", Err(DigitFault::Length(3))),
    (b"", Err(DigitFault::Length(0))),
];

#[test]
fn faults_of_digits(rt: HostRuntime) {
    for (digits, want) in TYPED {
        assert!(rt; read(Form::Fifteen, digits) == want);
    }
    assert!(rt; Form::of(9) == Some(Form::Nine));
    assert!(rt; Form::of(15) == Some(Form::Fifteen));
    assert!(rt; Form::of(10).is_none());
    digits_and_tokens();
}
