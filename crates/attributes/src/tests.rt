use crate::{Limits, decimal, needed, optional_decimal, optional_whole, whole};
use basics::{Kind, Spot, Stop};
use std::alloc::{AllocError, Global};
use std::process::Abort;
use std::test::Fail;

/// Limits that lie on both sides of 0.
const LIMITS: Limits = Limits {
    least: -5,
    greatest: 1_000,
    kind: Kind::UnitsRange,
};

/// An element, and what each call answers of its attribute `a`: `needed`; `decimal`, by its raw number;
/// `optional_decimal`; `whole`; and `optional_whole`.
const ELEMENTS: [(&str, [&str; 5]); 17] = [
    (
        "<e/>",
        [
            "MissingAttribute a 0",
            "MissingAttribute a 0",
            "none",
            "MissingAttribute a 0",
            "none",
        ],
    ),
    (
        "<e A='1' aa='2'>a='3'<e a='4'/></e>",
        [
            "MissingAttribute a 0",
            "MissingAttribute a 0",
            "none",
            "MissingAttribute a 0",
            "none",
        ],
    ),
    ("<e b='7' a='12'/>", ["12", "786432", "786432", "12", "12"]),
    ("<e a='12' b='7'/>", ["12", "786432", "786432", "12", "12"]),
    (
        "<e a=' +3.00 '/>",
        [" +3.00 ", "196608", "196608", "3", "3"],
    ),
    ("<e a='-0'/>", ["-0", "0", "0", "0", "0"]),
    ("<e a='-5'/>", ["-5", "-327680", "-327680", "-5", "-5"]),
    (
        "<e a='-6'/>",
        [
            "-6",
            "-393216",
            "-393216",
            "UnitsRange a -6",
            "UnitsRange a -6",
        ],
    ),
    (
        "<e a='1000'/>",
        ["1000", "65536000", "65536000", "1000", "1000"],
    ),
    (
        "<e a='1001'/>",
        [
            "1001",
            "65601536",
            "65601536",
            "UnitsRange a 1001",
            "UnitsRange a 1001",
        ],
    ),
    // 32,768 has no raw number with 16 binary places in 32 bits.
    (
        "<e a='32768'/>",
        [
            "32768",
            "NumberRange a 0",
            "NumberRange a 0",
            "UnitsRange a 32768",
            "UnitsRange a 32768",
        ],
    ),
    // 2 ^ 31.
    (
        "<e a='2147483648'/>",
        [
            "2147483648",
            "NumberRange a 0",
            "NumberRange a 0",
            "NumberRange a 0",
            "NumberRange a 0",
        ],
    ),
    // Decimals come before the range.
    (
        "<e a='2147483648.5'/>",
        [
            "2147483648.5",
            "NumberRange a 0",
            "NumberRange a 0",
            "NotWhole a 0",
            "NotWhole a 0",
        ],
    ),
    (
        "<e a='-0.5'/>",
        ["-0.5", "-32768", "-32768", "NotWhole a 0", "NotWhole a 0"],
    ),
    (
        "<e a=''/>",
        [
            "",
            "NotNumber a 0",
            "NotNumber a 0",
            "NotNumber a 0",
            "NotNumber a 0",
        ],
    ),
    (
        "<e a='1e3'/>",
        [
            "1e3",
            "NotNumber a 0",
            "NotNumber a 0",
            "NotNumber a 0",
            "NotNumber a 0",
        ],
    ),
    (
        "<e a='1&#46;50'/>",
        ["1.50", "98304", "98304", "NotWhole a 0", "NotWhole a 0"],
    ),
];

/// A number as text.
fn number(alloc: Global, number: i32) -> Result<String, AllocError> {
    format!(in alloc; "{number}")
}

/// A number that may be absent, as text.
fn optional(alloc: Global, found: Option<i32>) -> Result<String, AllocError> {
    match found {
        Some(found) => number(alloc, found),
        None => String::from_str(alloc, "none"),
    }
}

/// The kind, the item and the value of a fault, where its offset is this one and all else is 0.
fn fault(alloc: Global, spot: &Spot, at: u64) -> Result<String, AllocError> {
    if spot.at != at || spot.also != 0 || spot.second != 0 {
        return format!(in alloc; "at {} {} {}", spot.at, spot.also, spot.second);
    }
    format!(in alloc;
        "{} {} {}",
        spot.kind.name(),
        spot.item.as_str(),
        spot.first
    )
}

/// Stops the test where a call answers something else of an element at this offset.
fn expect(
    rt: &impl Abort,
    alloc: Global,
    at: u64,
    answer: Result<String, Stop>,
    wanted: &str,
) -> Result<(), AllocError> {
    let answer = match answer {
        Ok(shown) => shown,
        Err(Stop::NoMemory) => String::from_str(alloc, "NoMemory")?,
        Err(Stop::At(spot)) => fault(alloc, &spot, at)?,
    };
    assert_eq!(rt; answer.as_str(), wanted);
    Ok(())
}

/// The text of the attribute `a`.
fn text_of(alloc: Global, element: &markup::Element) -> Result<String, Stop> {
    Ok(String::from_str(alloc, needed(alloc, "a", element)?)?)
}

/// Its decimal number.
fn decimal_of(alloc: Global, element: &markup::Element) -> Result<String, Stop> {
    Ok(number(alloc, decimal(alloc, "a", element)?.raw())?)
}

/// The same, if it is there.
fn optional_decimal_of(alloc: Global, element: &markup::Element) -> Result<String, Stop> {
    let found = optional_decimal(alloc, "a", element)?;
    Ok(optional(alloc, found.map(|found| found.raw()))?)
}

/// Its whole number.
fn whole_of(alloc: Global, element: &markup::Element) -> Result<String, Stop> {
    Ok(number(alloc, whole(alloc, &LIMITS, "a", element)?)?)
}

/// The same, if it is there.
fn optional_whole_of(alloc: Global, element: &markup::Element) -> Result<String, Stop> {
    Ok(optional(alloc, optional_whole(alloc, &LIMITS, "a", element)?)?)
}

/// Stops the test where a call answers something else of the element in the text.
fn expect_all(
    rt: &impl Abort,
    alloc: Global,
    text: &str,
    at: u64,
    wanted: &[&str; 5],
) -> Result<(), Stop> {
    let element = &markup::read(alloc, text.as_bytes())?;
    let [text, decimal, optional_decimal, whole, optional_whole] = wanted;
    expect(rt, alloc, at, text_of(alloc, element), text)?;
    expect(rt, alloc, at, decimal_of(alloc, element), decimal)?;
    expect(
        rt,
        alloc,
        at,
        optional_decimal_of(alloc, element),
        optional_decimal,
    )?;
    expect(rt, alloc, at, whole_of(alloc, element), whole)?;
    expect(
        rt,
        alloc,
        at,
        optional_whole_of(alloc, element),
        optional_whole,
    )?;
    Ok(())
}

#[test]
fn attributes(rt: HostRuntime) -> Result<(), Fail> {
    for (text, wanted) in &ELEMENTS {
        for (before, at) in [("", 0), ("\n<!-- a -->\n", 12)] {
            let text = format!(in rt.alloc(); "{before}{text}")?;
            let done = expect_all(&rt, rt.alloc(), text.as_str(), at, wanted);
            assert!(rt; done.is_ok(), "{text}");
        }
    }
    Ok(())
}
