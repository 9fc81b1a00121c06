// Worked numbers, and edge cases of the rules.
use super::*;
use ic_base::Flow;
use std::test::Fail;

/// How many packets fit in the window.
fn packets(window: &Window) -> u32 {
    window.room(0, 1000)
}

#[test]
fn slow_start_ends_at_the_depth_and_after_a_loss_at_half(rt: HostRuntime) {
    let mut window = Window::new(4, Flow::Loss);
    assert_eq!(rt; packets(&window), 1);
    for wanted in [2, 3, 4, 4] {
        window.grown(1);
        assert_eq!(rt; packets(&window), wanted);
    }
    window.lost();
    assert_eq!(rt; packets(&window), 1);
    // The window in 1/256 packet is 512, then 640, then 742, and then 830.
    for wanted in [2, 2, 2, 3] {
        window.grown(1);
        assert_eq!(rt; packets(&window), wanted);
    }
}

#[test]
fn a_time_is_four_ticks_then_what_samples_say(rt: HostRuntime) {
    let mut window = Window::new(4, Flow::Loss);
    for (tries, wanted) in [(0, 4), (1, 8), (3, 32), (4, 64), (u32::MAX, 64)] {
        assert_eq!(rt; window.wait(tries), wanted, "after {tries} tries");
    }
    window.sample(10);
    assert_eq!(rt; window.wait(0), 30);
    assert_eq!(rt; window.wait(2), 64);
    window.sample(2);
    assert_eq!(rt; window.wait(0), 32);
}
