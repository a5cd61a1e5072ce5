//! Lists of filters behind boxes: an outline through all in order.

use super::{Dot, Widen, is_fit, outline, shown};
use crate::{FilterRefusal, GlyphFilter, Reverse, Shift, apply_all};
use glif::Outline;
use std::alloc::{AllocError, Global};
use std::fmt::Write;
use std::test::Fail;

/// Points of a contour.
const DOTS: &[Dot] = &[(1, 2, true), (3, 4, false), (5, 6, true)];

/// What filters in order answer, as text.
fn answer_of_all(
    alloc: Global,
    filters: &mut [Box<dyn GlyphFilter>],
    outline: Outline,
) -> Result<String, AllocError> {
    if !is_fit(&outline) {
        return String::from_str(alloc, "not fit");
    }
    match apply_all(alloc, filters, outline) {
        Ok(image) => shown(alloc, &image),
        Err((number, FilterRefusal::NoMemory)) => format!(in alloc; "{number} NoMemory"),
        Err((number, FilterRefusal::Range(value))) => format!(in alloc; "{number} Range {value}"),
    }
}

/// The names of filters and how often they were applied, as text.
fn counts(alloc: Global, filters: &[Box<dyn GlyphFilter>]) -> Result<String, AllocError> {
    let mut text = String::new(alloc);
    for filter in filters {
        write!(text, "{} {};", filter.name(), filter.touched())?;
    }
    Ok(text)
}

#[test]
fn filters_in_order(rt: HostRuntime) -> Result<(), Fail> {
    let alloc = rt.alloc();
    let mut filters: Vec<Box<dyn GlyphFilter>> = Vec::new(alloc);
    let drawn = outline(alloc, 500, &[DOTS])?;
    assert_eq!(rt;
        answer_of_all(alloc, &mut filters, drawn)?.as_str(),
        "500 [(1,2)!(3,4)(5,6)]"
    );
    let mut shift = Shift::new();
    assert!(rt; shift.configure("10:20"));
    filters.push(Box::new(alloc, Reverse::new())?)?;
    filters.push(Box::new(alloc, shift)?)?;
    let drawn = outline(alloc, 500, &[DOTS])?;
    assert_eq!(rt;
        answer_of_all(alloc, &mut filters, drawn)?.as_str(),
        "500 [(11,22)(15,26)!(13,24)]"
    );
    let far = outline(alloc, 500, &[&[(16383, 2, true)]])?;
    assert_eq!(rt;
        answer_of_all(alloc, &mut filters, far)?.as_str(),
        "1 Range 16393"
    );
    assert_eq!(rt; counts(alloc, &filters)?.as_str(), "reverse 2;shift 2;");
    Ok(())
}

// The first filter wants memory at its third call; its image of the widest outline is out of range.
#[test]
fn refusals_in_order(rt: HostRuntime) -> Result<(), Fail> {
    let alloc = rt.alloc();
    let mut filters: Vec<Box<dyn GlyphFilter>> = Vec::new(alloc);
    let widen = Widen {
        wants_at: 3,
        calls: 0,
    };
    filters.push(Box::new(alloc, widen)?)?;
    filters.push(Box::new(alloc, Reverse::new())?)?;
    let wants = [
        (500, "501 [(1,2)(5,6)!(3,4)]"),
        (16383, "0 Range 16384"),
        (500, "0 NoMemory"),
        (0, "1 [(1,2)(5,6)!(3,4)]"),
    ];
    for (advance, want) in wants {
        let drawn = outline(alloc, advance, &[DOTS])?;
        assert_eq!(rt; answer_of_all(alloc, &mut filters, drawn)?.as_str(), want);
    }
    assert_eq!(rt; counts(alloc, &filters)?.as_str(), "widen 4;reverse 2;");
    Ok(())
}
