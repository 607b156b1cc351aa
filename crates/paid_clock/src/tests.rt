use super::*;

/// What happens to a clock whose unit is a day.
enum Step {
    Credit(u16, u16),
    Bad,
    Pass(u32),
}

/// The parts of a clock: seconds left, whether the device is free, failures, and seconds of block.
type Parts = (u64, bool, u8, u32);

fn parts(clock: &Clock) -> Parts {
    (clock.left(), clock.free(), clock.fails(), clock.block())
}

/// Each step and the clock after it: a set token and an hour; an add token; three failures, each with its time, and
/// a set token after them; a token that frees the device, an add token, and a set token.
const STEPS: [(Step, Parts); 13] = [
    (Step::Credit(1, 30), (2_592_000, false, 0, 0)),
    (Step::Pass(3_600), (2_588_400, false, 0, 0)),
    (Step::Credit(1, 30), (2_592_000, false, 0, 0)),
    (Step::Credit(2, 5), (3_024_000, false, 0, 0)),
    (Step::Pass(3_024_000), (0, false, 0, 0)),
    (Step::Bad, (0, false, 1, 120)),
    (Step::Pass(120), (0, false, 1, 0)),
    (Step::Bad, (0, false, 2, 240)),
    (Step::Pass(240), (0, false, 2, 0)),
    (Step::Credit(1, 30), (2_592_000, false, 0, 0)),
    (Step::Credit(1, 998), (0, true, 0, 0)),
    (Step::Credit(2, 5), (0, true, 0, 0)),
    (Step::Credit(3, 30), (2_592_000, false, 0, 0)),
];

#[test]
fn steps_of_a_clock(rt: HostRuntime) {
    let mut clock = Clock::fresh();
    assert!(rt; parts(&clock) == (0, false, 0, 0));
    for (step, want) in &STEPS {
        match step {
            Step::Credit(count, value) => {
                assert!(rt; *value <= 995 || (*value == 998 && *count % 2 == 1));
                assert!(rt; clock.block() == 0);
                clock.credit(*count, *value, 86_400);
            }
            Step::Bad => {
                assert!(rt; clock.block() == 0);
                clock.bad();
            }
            Step::Pass(seconds) => clock.pass(*seconds),
        }
        assert!(rt; parts(&clock) == *want);
    }
}

/// Parts that break the rule: too much time, too many failures, time on a free device, a block without a failure, and
/// a block that is too long.
const BROKEN: [Parts; 5] = [
    (1_000_000_000_001, false, 0, 0),
    (0, false, 11, 0),
    (1, true, 0, 0),
    (0, false, 0, 1),
    (0, false, 2, 241),
];

#[test]
fn clocks_of_parts(rt: HostRuntime) {
    for (left, free, fails, block) in BROKEN {
        assert!(rt; Clock::of_parts(left, free, fails, block).is_none());
    }
    let kept = (2_592_000, false, 2, 240);
    assert!(rt;
        Clock::of_parts(2_592_000, false, 2, 240).is_some_and(|clock| parts(&clock) == kept)
    );
    rule_is_kept();
}
