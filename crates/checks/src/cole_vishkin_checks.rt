//! Bit steps, worked by hand from the two numbers in binary and the least place in which they differ.

use cole_vishkin::bit_step;

fn wide_steps_are_as_worked() -> bool {
    let (greatest, half) = (
        340282366920938463463374607431768211455,
        170141183460469231731687303715884105727,
    );
    bit_step(greatest, Some(half)) == 255
        && bit_step(18446744073709551615, Some(9223372036854775807)) == 127
}

fn small_steps_are_as_worked() -> bool {
    bit_step(6, Some(4)) == 3 && bit_step(6, None) == 0 && bit_step(1, Some(3)) == 2
}

#[test]
fn the_bit_step_gives_the_worked_values(rt: HostRuntime) {
    assert!(rt; wide_steps_are_as_worked());
    assert!(rt; small_steps_are_as_worked());
}
