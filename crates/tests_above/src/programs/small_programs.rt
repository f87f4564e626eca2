//! Rows of the small programs of `ratio_uses`.
use num_rational::{Rational64, Reduced64, SplitRefusal, WeightRefusal};
use ratio_uses::accounts::move_part;
use ratio_uses::beats::{Voice, meet, next_beat, start_at};
use ratio_uses::callers::{greatest, mean};
use ratio_uses::conditions::{chained, together};
use ratio_uses::gears::nearest_pair;
use ratio_uses::ledger::{Refusal, in_cents, rent, split_to};
use ratio_uses::readme::{faster, third_of, total};
use ratio_uses::units::{convert, in_octave};
use std::cmp::Ordering;
use std::process::Abort;

// The fraction of these two numbers.
fn frac(rt: &impl Abort, numer: i64, denom: i64) -> Reduced64 {
    Reduced64::checked_new(numer, denom).expect(rt, "the row is a fraction")
}

// The result has these fields, or there is none.
fn answers(rt: &impl Abort, answer: Option<Reduced64>, want: Option<(i64, i64)>) {
    let fields = answer.map(|x| x.into_raw());
    assert!(rt; fields == want, "{fields:?}, not {want:?}");
}

fn holds(rt: &impl Abort, what: &str, fact: bool) {
    assert!(rt; fact, "{what}");
}

// The teeth of both wheels, if there is a result.
fn teeth(wanted: &Reduced64, least: u32, most: u32) -> Option<(u32, u32)> {
    let gears = nearest_pair(wanted, least, most)?;
    Some((gears.first, gears.second))
}

// The first row whose wheels differ. A row has the two numbers of the wanted ratio, the least and the most teeth
// of a wheel, and the teeth of both.
fn first_wrong_wheels(rows: &[(i64, i64, u32, u32, u32, u32)]) -> Option<usize> {
    for (i, &(numer, denom, least, most, first, second)) in rows.iter().enumerate() {
        let wheels = Reduced64::checked_new(numer, denom).and_then(|wanted| teeth(
            &wanted, least, most,
        ));
        if wheels != Some((first, second)) {
            return Some(i);
        }
    }
    None
}

// How far the nearest wheels are from the wanted ratio.
fn off(wanted: &Reduced64, least: u32, most: u32) -> Option<Reduced64> {
    nearest_pair(wanted, least, most).and_then(|gears| gears.off)
}

// The fields of both accounts after the part has moved.
fn moved(from: &Reduced64, to: &Reduced64, part: &Reduced64) -> Option<((i64, i64), (i64, i64))> {
    let (rest, more) = move_part(from, to, part)?;
    Some((rest.into_raw(), more.into_raw()))
}

#[test]
fn test_accounts(rt: HostRuntime) {
    let (half, third, sixth) = (frac(&rt, 1, 2), frac(&rt, 1, 3), frac(&rt, 1, 6));
    let least = frac(&rt, i64::MIN, 1);
    holds(
        &rt,
        "a sixth",
        moved(&half, &third, &sixth) == Some(((1, 3), (1, 2))),
    );
    holds(&rt, "no room below", moved(&least, &third, &sixth) == None);
    holds(
        &rt,
        "no room above",
        moved(&half, &frac(&rt, i64::MAX, 1), &sixth) == None,
    );
}

#[test]
fn test_gears(rt: HostRuntime) {
    let rows = [
        (1618033988, 1000000000, 1, 100, 89, 55),
        (1618033988, 1000000000, 30, 100, 89, 55),
        (1003, 10, 1, 100, 100, 1),
        (1003, 10, 12, 100, 100, 12),
        (52, 14, 1, 7, 7, 2),
        (52, 14, 8, 60, 52, 14),
        (7, 5, 12, 20, 18, 13),
        (355, 113, 8, 100, 44, 14),
        (7, 10, 1, 2, 1, 2),
        (3, 2, 1, 1, 1, 1),
        (5, 2, 1, 2, 2, 1),
        (5, 2, 7, 7, 7, 7),
        (i64::MAX, 2, 1, 3, 3, 1),
        (i64::MAX, 1, 1, 5, 5, 1),
        (i64::MAX, i64::MAX - 1, 20, 22, 20, 20),
    ];
    let wrong = first_wrong_wheels(&rows);
    assert!(rt; wrong.is_none(), "row {wrong:?}");
    let golden = frac(&rt, 1618033988, 1000000000);
    answers(&rt, off(&golden, 1, 100), Some((-406533, 2750000000)));
    answers(&rt, off(&frac(&rt, 355, 113), 8, 100), Some((-1, 791)));
    holds(&rt, "0", teeth(&Reduced64::zero(), 1, 10) == None);
    holds(&rt, "below 0", teeth(&frac(&rt, -3, 2), 1, 10) == None);
    holds(&rt, "no teeth", teeth(&golden, 0, 10) == None);
    holds(&rt, "no range", teeth(&golden, 11, 10) == None);
}

// For these ratios, the first wheel has the fewest teeth and the second the most.
#[test]
fn test_gears_near_zero(rt: HostRuntime) {
    let rows = [
        (1, 2, 1, 1, 1, 1),
        (1, 10, 1, 3, 1, 3),
        (1, 4, 1, 2, 1, 2),
        (1, 21, 1, 10, 1, 10),
        (1, 20, 1, 10, 1, 10),
        (1, 19, 1, 10, 1, 10),
        (1, 2, 3, 5, 3, 5),
        (1, i64::MAX, 5, 9, 5, 9),
    ];
    let wrong = first_wrong_wheels(&rows);
    assert!(rt; wrong.is_none(), "row {wrong:?}");
    answers(&rt, off(&frac(&rt, 1, 10), 1, 3), Some((-7, 30)));
    answers(&rt, off(&frac(&rt, 1, i64::MAX), 1, 3), None);
}

// The most teeth that a wheel can have.
#[test]
fn test_gears_of_many_teeth(rt: HostRuntime) {
    let rows = [
        (i64::MAX, 1, u32::MAX, u32::MAX, u32::MAX, u32::MAX),
        (
            8589934591,
            4294967295,
            u32::MAX - 1,
            u32::MAX,
            u32::MAX,
            u32::MAX - 1,
        ),
        (1, 1, u32::MAX - 2, u32::MAX, u32::MAX - 2, u32::MAX - 2),
    ];
    let wrong = first_wrong_wheels(&rows);
    assert!(rt; wrong.is_none(), "row {wrong:?}");
}

// What `rent` returns, and what each owes after the call.
fn rents(
    rt: &impl Abort,
    cents: i64,
    days: &[i64],
    want: Result<(), WeightRefusal>,
    want_owed: &[i64; 3],
) {
    let mut owed = [7; 3];
    let answer = rent(cents, days, &mut owed);
    assert!(rt;
        answer == want && owed == *want_owed,
        "{answer:?}, {owed:?}"
    );
}

#[test]
fn test_rent(rt: HostRuntime) {
    rents(&rt, 100000, &[10, 10, 11], Ok(()), &[32258, 32258, 35484]);
    let none = Err(WeightRefusal::AllZero);
    rents(&rt, 100000, &[0, 0, 0], none, &[7, 7, 7]);
}

// What `split_to` returns, and the parts after the call.
fn splits_to(
    rt: &impl Abort,
    amount: &Reduced64,
    shares: &[Reduced64],
    unit_parts: i64,
    want: Result<(), Refusal>,
    want_parts: &[(i64, i64)],
) {
    let mut parts = [Reduced64::one(); 3];
    if unit_parts > 0 && want_parts.len() <= 3 {
        let answer = split_to(amount, shares, unit_parts, &mut parts[..want_parts.len()]);
        assert!(rt; answer == want, "{answer:?}");
        for (part, want) in parts.iter().zip(want_parts) {
            let fields = part.into_raw();
            assert!(rt; fields == *want, "{fields:?}, not {want:?}");
        }
    }
}

#[test]
fn test_cents(rt: HostRuntime) {
    let third = frac(&rt, 1, 3);
    let thirds = [third; 3];
    let (ten, half) = (frac(&rt, 10, 1), frac(&rt, 1, 2));
    let cents = [(333, 100), (167, 50), (333, 100)];
    splits_to(&rt, &ten, &thirds, 100, Ok(()), &cents);
    let owed = [(-333, 100), (-167, 50), (-333, 100)];
    splits_to(&rt, &frac(&rt, -10, 1), &thirds, 100, Ok(()), &owed);
    let quarters = [(1, 4), (1, 4), (1, 4)];
    splits_to(&rt, &frac(&rt, 3, 4), &thirds, 4, Ok(()), &quarters);
    let wholes = [
        (3074457345618258602, 1),
        (3074457345618258603, 1),
        (3074457345618258602, 1),
    ];
    splits_to(&rt, &frac(&rt, i64::MAX, 1), &thirds, 1, Ok(()), &wholes);
    let unchanged = [(1, 1), (1, 1), (1, 1)];
    let short = Err(Refusal::Shares(SplitRefusal::Length));
    splits_to(&rt, &ten, &thirds, 100, short, &unchanged[..2]);
    let below = [half, half, frac(&rt, -1, 2)];
    let owes = Err(Refusal::Shares(SplitRefusal::BelowZero));
    splits_to(&rt, &ten, &below, 100, owes, &unchanged);
    let fine = Err(Refusal::NotMultiple);
    splits_to(&rt, &third, &thirds, 100, fine, &unchanged);
    let two = [third, frac(&rt, 2, 3)];
    let wide = Err(Refusal::Shares(SplitRefusal::NotHeld));
    splits_to(
        &rt,
        &frac(&rt, 1 << 62, 1),
        &two,
        100,
        wide,
        &unchanged[..2],
    );
    let less = Err(Refusal::Shares(SplitRefusal::NotOne));
    splits_to(&rt, &ten, &[half, third], 100, less, &unchanged[..2]);
    let text = in_cents(&third);
    holds(&rt, "cents", text.as_str() == "0.33");
}

#[test]
fn test_units(rt: HostRuntime) {
    let mile = frac(&rt, 1, 1);
    let feet = frac(&rt, 5280, 1);
    let inches = frac(&rt, 12, 1);
    answers(&rt, convert(&mile, &[feet, inches]), Some((63360, 1)));
    answers(
        &rt,
        convert(&frac(&rt, 100, 1), &[frac(&rt, 1, 12)]),
        Some((25, 3)),
    );
    answers(
        &rt,
        convert(&frac(&rt, i64::MAX, 1), &[inches, frac(&rt, 1, 12)]),
        None,
    );
    answers(&rt, convert(&feet, &[]), Some((5280, 1)));
}

#[test]
fn test_octaves(rt: HostRuntime) {
    let fifth = frac(&rt, 3, 2);
    answers(&rt, in_octave(&fifth), Some((3, 2)));
    answers(
        &rt,
        convert(&fifth, &[fifth; 1]).and_then(|x| in_octave(&x)),
        Some((9, 8)),
    );
    answers(
        &rt,
        convert(&fifth, &[fifth; 2]).and_then(|x| in_octave(&x)),
        Some((27, 16)),
    );
    answers(
        &rt,
        convert(&fifth, &[fifth; 3]).and_then(|x| in_octave(&x)),
        Some((81, 64)),
    );
    answers(
        &rt,
        convert(&fifth, &[fifth; 4]).and_then(|x| in_octave(&x)),
        Some((243, 128)),
    );
    answers(
        &rt,
        convert(&fifth, &[fifth; 5]).and_then(|x| in_octave(&x)),
        Some((729, 512)),
    );
    answers(&rt, in_octave(&frac(&rt, 1, 3)), Some((4, 3)));
    answers(&rt, in_octave(&frac(&rt, 2, 1)), Some((1, 1)));
    answers(&rt, in_octave(&Reduced64::zero()), None);
}

#[test]
fn test_callers(rt: HostRuntime) {
    let third = frac(&rt, 1, 3);
    let half = frac(&rt, 1, 2);
    answers(&rt, total(&[third, half, third]), Some((7, 6)));
    answers(&rt, greatest(&[third, half, third]), Some((1, 2)));
    answers(&rt, mean(&third, &half), Some((5, 12)));
    let text = third_of("2/2");
    holds(&rt, "third", text == Ok(Some(third)));
    holds(&rt, "faster", faster(&third, &half) == Ordering::Less);
    let (two, three) = (Rational64::from_integer(2), Rational64::from_integer(3));
    holds(
        &rt,
        "together",
        together(&two, &three) == Some(Rational64::from_integer(5)),
    );
    holds(
        &rt,
        "chained",
        chained(&[two, three]) == Some(Rational64::from_integer(6)),
    );
}

// The voices have these counts.
fn have_counts(voices: &[Voice], counts: &[i64]) -> bool {
    voices.len() == counts.len()
        && voices
            .iter()
            .zip(counts)
            .all(|(voice, count)| voice.count == *count)
}

// The next beats come at these times, and leave these counts. Without a time there is no beat.
fn plays(rt: &impl Abort, voices: &mut [Voice], times: &[Option<(i64, i64)>], counts: &[i64]) {
    for (i, &want) in times.iter().enumerate() {
        let time = next_beat(voices).map(|time| time.into_raw());
        assert!(rt; time == want, "beat {i}: {time:?}");
    }
    holds(rt, "counts", have_counts(voices, counts));
}

// The voices start at this time with these counts. Where they do not start, nothing has changed.
fn starts(rt: &impl Abort, voices: &mut [Voice], time: (i64, i64), want: bool, counts: &[i64]) {
    let time = frac(rt, time.0, time.1);
    holds(rt, "starts", start_at(voices, &time) == want);
    holds(rt, "counts at the start", have_counts(voices, counts));
}

// A voice with this period and no beats yet.
fn voice(rt: &impl Abort, numer: i64, denom: i64) -> Voice {
    Voice {
        period: frac(rt, numer, denom),
        count: 0,
    }
}

#[test]
fn test_beats(rt: HostRuntime) {
    let mut voices = [voice(&rt, 1, 3), voice(&rt, 1, 4), voice(&rt, 1, 6)];
    let times = [
        Some((1, 6)),
        Some((1, 4)),
        Some((1, 3)),
        Some((1, 2)),
        Some((2, 3)),
        Some((3, 4)),
        Some((5, 6)),
        Some((1, 1)),
    ];
    plays(&rt, &mut voices, &times, &[3, 4, 6]);
}

#[test]
fn test_two_voices(rt: HostRuntime) {
    let mut voices = [voice(&rt, 1, 2), voice(&rt, 1, 3)];
    let times = [Some((1, 3)), Some((1, 2)), Some((2, 3)), Some((1, 1))];
    plays(&rt, &mut voices, &times, &[2, 3]);
}

// The second beat of the first voice does not fit, so the other has no beat either.
#[test]
fn test_last_beat(rt: HostRuntime) {
    let mut voices = [voice(&rt, i64::MAX, 1), voice(&rt, i64::MAX, 2)];
    let times = [Some((i64::MAX, 2)), Some((i64::MAX, 1)), None];
    plays(&rt, &mut voices, &times, &[1, 2]);
}

#[test]
fn test_no_voice(rt: HostRuntime) {
    let mut voices: [Voice; 0] = [];
    plays(&rt, &mut voices, &[None], &[]);
}

// The voices start at a time, and then beat.
fn starts_and_plays(
    rt: &impl Abort,
    voices: &mut [Voice],
    time: (i64, i64),
    first: &[i64],
    times: &[Option<(i64, i64)>],
    last: &[i64],
) {
    starts(rt, voices, time, true, first);
    plays(rt, voices, times, last);
}

#[test]
fn test_start(rt: HostRuntime) {
    let mut voices = [voice(&rt, 1, 3), voice(&rt, 1, 4), voice(&rt, 2, 7)];
    let times = [
        Some((2, 1)),
        Some((9, 4)),
        Some((16, 7)),
        Some((7, 3)),
        Some((5, 2)),
        Some((18, 7)),
        Some((8, 3)),
    ];
    starts_and_plays(&rt, &mut voices, (7, 4), &[5, 7, 6], &times, &[8, 10, 9]);
}

#[test]
fn test_start_below_zero(rt: HostRuntime) {
    let mut voices = [voice(&rt, 1, 3), voice(&rt, 1, 4)];
    let times = [Some((0, 1)), Some((1, 4)), Some((1, 3)), Some((1, 2))];
    starts_and_plays(&rt, &mut voices, (-1, 4), &[-1, -1], &times, &[1, 2]);
}

// The count fits, though the time over the period does not.
#[test]
fn test_start_late(rt: HostRuntime) {
    let mut voices = [voice(&rt, 3, 5)];
    starts(
        &rt,
        &mut voices,
        (i64::MAX, 2),
        true,
        &[7686143364045646505],
    );
}

#[test]
fn test_no_start(rt: HostRuntime) {
    let mut voices = [voice(&rt, 3, 5), voice(&rt, 1, 2)];
    starts(&rt, &mut voices, (i64::MAX, 1), false, &[0, 0]);
}

#[test]
fn test_no_start_without_period(rt: HostRuntime) {
    let mut voices = [voice(&rt, 1, 2), voice(&rt, 0, 1)];
    starts(&rt, &mut voices, (1, 1), false, &[0, 0]);
}

#[test]
fn test_no_start_below_zero(rt: HostRuntime) {
    let mut voices = [voice(&rt, -1, 2)];
    starts(&rt, &mut voices, (1, 1), false, &[0]);
}

// The voices of these periods meet at this time, or at none that fits.
fn meets(rt: &impl Abort, periods: [(i64, i64); 3], want: Option<(i64, i64)>) {
    let [first, second, third] = periods;
    let voices = [
        voice(rt, first.0, first.1),
        voice(rt, second.0, second.1),
        voice(rt, third.0, third.1),
    ];
    answers(rt, meet(&voices), want);
}

#[test]
fn test_meet(rt: HostRuntime) {
    let max = i64::MAX;
    meets(&rt, [(1, 2), (1, 3), (1, 3)], Some((1, 1)));
    meets(&rt, [(1, 4), (1, 6), (1, 4)], Some((1, 2)));
    meets(&rt, [(1, 3), (1, 4), (2, 7)], Some((2, 1)));
    meets(&rt, [(5, 6), (5, 6), (5, 6)], Some((5, 6)));
    meets(&rt, [(max, 1), (max, 1), (max, 1)], Some((max, 1)));
    meets(&rt, [(1, max), (1, max - 1), (1, 1)], Some((1, 1)));
    meets(&rt, [(max, 1), (max - 1, 1), (1, 1)], None);
    meets(&rt, [(1, 2), (0, 1), (1, 3)], None);
    meets(&rt, [(-1, 2), (1, 2), (1, 3)], None);
    meets(&rt, [(1, 2), (1, 3), (-1, 2)], None);
    answers(&rt, meet(&[]), None);
}
