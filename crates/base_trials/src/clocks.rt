//! A clock that stands.

use outside::{Clock, HandClock, MAX_MOMENT};

fn twin_of<C: Clock>(clock: &C) -> C {
    clock.twin()
}

#[test]
fn a_hand_clock_stands(rt: HostRuntime) {
    assert_eq!(rt; HandClock::at(7).now(), 7);
    assert_eq!(rt;
        twin_of(&HandClock::at(MAX_MOMENT)).now(),
        9_007_199_254_740_991
    );
}
