//! A thousand sales of parts of shares. Expected values are from Python's `fractions`.

use num_rational::{Reduced64, Rounding};
use ratio_big::BigFraction;
use ratio_uses::shareholders::sell;
use std::alloc::{AllocError, Global};
use std::collections::VecDeque;
use std::process::Abort;
use std::test::Fail;

/// The shares of ten owners after the sales, with 40 places, and the lengths of their texts.
const SHARES: [(&str, usize); 10] = [
    ("0.1085347230864732283327900617590004812620", 1566),
    ("0.1085834369859952559881161672194617518438", 1552),
    ("0.0724044289771244771793301673503240739741", 1554),
    ("0.1086065578362914131042852445908375272681", 1556),
    ("0.0868737143073117796900219081190487251280", 1556),
    ("0.1085533204597263764795309193893639091519", 1558),
    ("0.0930185487591162594412086553351235559186", 1560),
    ("0.1084903513598246771314014089867986757312", 1560),
    ("0.0964298663580837977134140994827820629409", 1562),
    ("0.1085050518700527349399013677672592367813", 1564),
];

/// One over this number.
fn part(rt: &impl Abort, number: u32) -> BigFraction {
    let part = Reduced64::checked_new(1, i64::from(number));
    BigFraction::from_reduced(part.expect(rt, "the number is not 0"))
}

/// The shares of ten owners, who have a tenth each, after so many sales. In each one an owner sells a third, a fourth, .. or a tenth of its
/// share to the next owner, in turn. The owner whose turn it is comes first.
fn after_sales(
    rt: &impl Abort,
    alloc: Global,
    sales: u32,
) -> Result<VecDeque<BigFraction>, AllocError> {
    let mut seller = part(rt, 10);
    let mut others = VecDeque::new(alloc);
    for _ in 0..9 {
        others.push_back(part(rt, 10))?;
    }
    for sale in 0..sales {
        let buyer = others.pop_front().expect(rt, "nine owners");
        let (rest, more) = sell(alloc, &seller, &buyer, &part(rt, sale % 8 + 3))?;
        others.push_back(rest)?;
        seller = more;
    }
    others.push_front(seller)?;
    Ok(others)
}

#[test]
fn test_one_sale(rt: HostRuntime) -> Result<(), Fail> {
    let (rest, more) = sell(rt.alloc(), &part(&rt, 2), &part(&rt, 3), &part(&rt, 4))?;
    let rest = rest.to_reduced().map(|x| x.into_raw());
    let more = more.to_reduced().map(|x| x.into_raw());
    assert!(rt; rest == Some((3, 8)), "{rest:?}");
    assert!(rt; more == Some((11, 24)), "{more:?}");
    Ok(())
}

#[test]
fn test_thousand_sales(rt: HostRuntime) -> Result<(), Fail> {
    let alloc = rt.alloc();
    let shares = after_sales(&rt, alloc, 1000)?;
    let mut total = BigFraction::zero();
    for (share, &(decimal, length)) in shares.iter().zip(SHARES.iter()) {
        let printed = share.decimal(alloc, 40, Rounding::HalfEven)?;
        assert_eq!(rt; printed.as_str(), decimal);
        assert_eq!(rt; share.to_text(alloc)?.len(), length);
        total = total.add(alloc, share)?;
    }
    assert_eq!(rt; shares.len(), 10);
    assert_eq!(rt; total.to_text(alloc)?.as_str(), "1");
    Ok(())
}
