//! Each call of `forest_merge`, at the ends of words and at the greatest colour.

use forest_merge::{COLOURS, ChosenSet, has_free, least_free, step_of};

// The greatest colour.
const GREATEST: u16 = COLOURS - 1;

// Colours at the ends of words, and others.
static ADDED: [u16; 7] = [0, 1, 63, 64, 127, 128, GREATEST];

static OTHERS: [u16; 9] = [2, 62, 65, 126, 129, 191, 1023, 1024, 2046];

// Whether a set has a colour only once it is added.
fn has_what_is_added(chosen: &mut ChosenSet, colour: u16) -> bool {
    if colour > GREATEST || chosen.has(colour) {
        return false;
    }
    chosen.add(colour);
    chosen.has(colour)
}

fn has_all_that_is_added(chosen: &mut ChosenSet, colours: &[u16]) -> bool {
    for colour in colours {
        if !has_what_is_added(chosen, *colour) {
            return false;
        }
    }
    true
}

fn has_none(chosen: &ChosenSet, colours: &[u16]) -> bool {
    for colour in colours {
        if *colour > GREATEST || chosen.has(*colour) {
            return false;
        }
    }
    true
}

#[test]
fn a_set_has_what_was_added(rt: HostRuntime) {
    let mut chosen = ChosenSet::new();
    assert!(rt; has_all_that_is_added(&mut chosen, &ADDED));
    assert!(rt; has_none(&chosen, &OTHERS));
    assert!(rt; chosen.copy().has(127));
    chosen.clear();
    assert!(rt; has_none(&chosen, &ADDED));
}

// The colours below `end` are chosen, those from `first` and below `last` barred; the least free colour of 0 to `span`.
static LEAST: [(u16, u16, u16, u16, Option<u16>); 21] = [
    (0, 0, 0, 0, Some(0)),
    (2, 0, 0, 1, None),
    (2, 0, 0, 2, Some(2)),
    (63, 0, 0, 100, Some(63)),
    (64, 0, 0, 100, Some(64)),
    (64, 0, 0, 63, None),
    (127, 0, 0, 127, Some(127)),
    (128, 0, 0, 127, None),
    (1023, 0, 0, 1023, Some(1023)),
    (GREATEST, 0, 0, GREATEST, Some(GREATEST)),
    (COLOURS, 0, 0, GREATEST, None),
    (0, 0, 1, 0, None),
    (0, 0, 1, 1, Some(1)),
    (0, 1, 2, 1, Some(0)),
    (2, 1, 3, 3, Some(3)),
    (63, 63, 65, 100, Some(65)),
    (64, 64, 128, 127, None),
    (64, 64, 128, 128, Some(128)),
    (0, 0, 1024, 1024, Some(1024)),
    (1023, 1023, GREATEST, GREATEST, Some(GREATEST)),
    (1024, 1024, COLOURS, GREATEST, None),
];

fn least_of(end: u16, first: u16, last: u16, span: u16) -> Option<u16> {
    if end > COLOURS || last > COLOURS {
        return None;
    }
    let mut chosen = ChosenSet::new();
    for colour in 0..end {
        chosen.add(colour);
    }
    let mut barred = ChosenSet::new();
    for colour in first..last {
        barred.add(colour);
    }
    if has_free(&chosen, &barred, span) {
        Some(least_free(&chosen, &barred, span))
    } else {
        None
    }
}

#[test]
fn the_least_free_colour_is_chosen(rt: HostRuntime) {
    for (end, first, last, span, least) in &LEAST {
        assert!(rt;
            least_of(*end, *first, *last, *span) == *least,
            "{end} chosen, {first} to {last} barred, span {span}"
        );
    }
}

// Whether a gap at 130 comes before what is free at the end, and is passed over once it is barred.
fn gap_is_chosen(chosen: &ChosenSet, barred: &mut ChosenSet) -> bool {
    let before = !has_free(chosen, barred, 129)
        && has_free(chosen, barred, 130)
        && least_free(chosen, barred, 130) == 130;
    barred.add(130);
    before
        && !has_free(chosen, barred, 299)
        && has_free(chosen, barred, 300)
        && least_free(chosen, barred, 300) == 300
}

#[test]
fn a_gap_that_is_not_barred_is_chosen(rt: HostRuntime) {
    let mut chosen = ChosenSet::new();
    for colour in 0..300 {
        if colour != 130 {
            chosen.add(colour);
        }
    }
    let mut barred = ChosenSet::new();
    assert!(rt; gap_is_chosen(&chosen, &mut barred));
}

// Steps and spans, and the pairs and colours that they are of.
static STEPS: [(u32, u16, u32, u8, u16); 9] = [
    (0, 2, 0, 0, 0),
    (8, 2, 0, 2, 2),
    (9, 2, 1, 0, 0),
    (17, 2, 1, 2, 2),
    (5, 0, 1, 2, 0),
    (3071, 1023, 0, 2, 1023),
    (3072, 1023, 1, 0, 0),
    (6143, GREATEST, 0, 2, GREATEST),
    (6144, GREATEST, 1, 0, 0),
];

#[test]
fn steps_are_counted(rt: HostRuntime) {
    for (t, span, round, pair, colour) in &STEPS {
        assert!(rt;
            step_of(*t, *span) == (*round, *pair, *colour),
            "step {t}, span {span}"
        );
    }
}
