//! Two pairs of wheels: the products of their teeth, as Python's `fractions` found them among all trains.
use num_rational::Reduced64;
use ratio_uses::trains::nearest_train;

// The product of the teeth of two wheels.
fn product(first: u16, second: u16) -> u32 {
    first as u32 * second as u32
}

// The product of the drivers' teeth and that of the driven wheels' teeth, if there is a train.
fn products(wanted: &Reduced64, least: u16, most: u16) -> Option<(u32, u32)> {
    let train = nearest_train(wanted, least, most)?;
    let drivers = product(train.first.driver, train.second.driver);
    Some((drivers, product(train.first.driven, train.second.driven)))
}

// The first row whose train differs. A row has the two numbers of the wanted ratio, the least and the most teeth
// of a wheel, and both products.
fn first_wrong_train(rows: &[(i64, i64, u16, u16, u32, u32)]) -> Option<usize> {
    for (i, &(numer, denom, least, most, drivers, driven)) in rows.iter().enumerate() {
        let train = Reduced64::checked_new(numer, denom).and_then(|wanted| products(
            &wanted, least, most,
        ));
        if train != Some((drivers, driven)) {
            return Some(i);
        }
    }
    None
}

// The wheels of the train: the driver and the driven wheel of the first pair, and those of the second.
fn wheels(numer: i64, denom: i64, least: u16, most: u16) -> Option<[u16; 4]> {
    let wanted = Reduced64::checked_new(numer, denom)?;
    let train = nearest_train(&wanted, least, most)?;
    let (first, second) = (train.first, train.second);
    Some([first.driver, first.driven, second.driver, second.driven])
}

// The first row whose wheels differ. A row has the two numbers of the wanted ratio, the least and the most teeth of a
// wheel, and the wheels of the train.
fn first_wrong_wheels(rows: &[(i64, i64, u16, u16, [u16; 4])]) -> Option<usize> {
    for (i, &(numer, denom, least, most, expected)) in rows.iter().enumerate() {
        if wheels(numer, denom, least, most) != Some(expected) {
            return Some(i);
        }
    }
    None
}

// How far the train is from this ratio.
fn off(numer: i64, denom: i64, least: u16, most: u16) -> Option<(i64, i64)> {
    let wanted = Reduced64::checked_new(numer, denom)?;
    let train = nearest_train(&wanted, least, most)?;
    train.off.map(|x| x.into_raw())
}

// Whether there is no train for this ratio.
fn has_none(numer: i64, denom: i64, least: u16, most: u16) -> bool {
    let wanted = Reduced64::checked_new(numer, denom);
    wanted
        .and_then(|wanted| nearest_train(&wanted, least, most))
        .is_none()
}

#[test]
fn test_trains(rt: HostRuntime) {
    let rows = [
        (355, 113, 8, 14, 196, 64),
        (355, 113, 8, 20, 380, 121),
        (3141592653, 1000000000, 12, 24, 528, 168),
        (1618033988, 1000000000, 8, 20, 220, 136),
        (52, 14, 1, 7, 15, 4),
        (1, 1, 8, 14, 64, 64),
        (7, 10, 1, 2, 1, 2),
        (5, 2, 1, 2, 2, 1),
        (3, 2, 1, 1, 1, 1),
        (5, 2, 65535, 65535, 4294836225, 4294836225),
        (i64::MAX, i64::MAX - 1, 10, 14, 100, 100),
    ];
    let wrong = first_wrong_train(&rows);
    assert!(rt; wrong.is_none(), "row {wrong:?}");
}

// Of all wheels with the same products, the second pair has the fewest teeth.
#[test]
fn test_wheels_of_trains(rt: HostRuntime) {
    let rows = [
        (355, 113, 8, 20, [20, 11, 19, 11]),
        (1, 1, 8, 14, [8, 8, 8, 8]),
        (3, 2, 12, 60, [18, 12, 12, 12]),
        (24, 25, 12, 48, [18, 15, 12, 15]),
        (401, 60, 12, 48, [46, 18, 34, 13]),
        (210, 143, 10, 60, [21, 13, 10, 11]),
        (48, 1, 3, 24, [24, 3, 18, 3]),
        (1, 7, 9, 15, [9, 15, 9, 15]),
        (
            4294967291,
            4294967279,
            65525,
            65535,
            [65532, 65535, 65531, 65528],
        ),
        (i64::MAX, i64::MAX - 1, 10, 14, [10, 10, 10, 10]),
    ];
    let wrong = first_wrong_wheels(&rows);
    assert!(rt; wrong.is_none(), "row {wrong:?}");
}

#[test]
fn test_trains_out_of_reach(rt: HostRuntime) {
    let rows = [
        (100, 1, 8, 14, 196, 64),
        (1003, 10, 12, 20, 400, 144),
        (22, 7, 10, 16, 256, 100),
        (1, 7, 9, 15, 81, 225),
        (i64::MAX, 2, 1, 4, 16, 1),
        (i64::MAX, 1, 3, 6, 36, 9),
        (1, i64::MAX, 3, 6, 9, 36),
    ];
    let wrong = first_wrong_train(&rows);
    assert!(rt; wrong.is_none(), "row {wrong:?}");
}

#[test]
fn test_how_far_trains_are_off(rt: HostRuntime) {
    assert!(rt; off(355, 113, 8, 20) == Some((15, 13673)), "355/113");
    assert!(rt; off(52, 14, 1, 7) == Some((-1, 28)), "52/14");
    assert!(rt;
        off(i64::MAX, 1, 3, 6) == Some((9223372036854775803, 1)),
        "the greatest"
    );
    assert!(rt; off(1, i64::MAX, 3, 6) == None, "the least above 0");
}

#[test]
fn test_no_train(rt: HostRuntime) {
    assert!(rt; has_none(0, 1, 1, 10), "0");
    assert!(rt; has_none(-3, 2, 1, 10), "below 0");
    assert!(rt; has_none(3, 2, 0, 10), "no teeth");
    assert!(rt; has_none(3, 2, 11, 10), "no range");
}
