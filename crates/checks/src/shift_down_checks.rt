//! Shifts and drops, worked by hand from the two rules.

use shift_down::{drop_class, shift};

fn shifts_are_as_worked() -> bool {
    shift(4, Some(5)) == 5 && shift(0, None) == 1 && shift(1, None) == 0
}

fn drops_are_as_worked() -> bool {
    drop_class(5, 5, 0, Some(1)) == 2 && drop_class(5, 4, 0, Some(1)) == 4
}

#[test]
fn shift_and_drop_give_the_worked_values(rt: HostRuntime) {
    assert!(rt; shifts_are_as_worked());
    assert!(rt; drops_are_as_worked());
}
