ghost use Rattle.std.specs.Prelude.{◌≡◌, ◌+◌, length};
ghost use Rattle.region_support.specs.Regions.{is_within, cuts, ratio, is_below, greatest_ratio, cut_triple, cut_triples, cut_by};

use fixpoint::Fix;
use variation_rules::Triple;

/// How far from the peak to the end of an axis a value lies.
#[derive(Clone, Copy)]
struct Share {
    part: u32,
    whole: u32,
}

// Whether another master's value is the peak or strictly inside the axis as it stands.
fn is_within(triple: &Triple, value: Fix<14>) -> bool
    ensures { result ≡ is_within triple.now value }
{
    let (start, peak, end) = (triple.start.raw(), triple.peak.raw(), triple.end.raw());
    let value = value.raw();
    if peak == 0 {
        value == 0
    } else {
        value != 0 && (value == peak || (start < value && value < end))
    }
}

// Whether a master with these values cuts the region: it lies within on each axis.
fn cuts(region: &[Triple], other: &[Fix<14>]) -> bool
    ensures { result ≡ cuts region.now other.now }
{
    let [triple, triples @ ..] = region else {
        return true;
    };
    let [value, values @ ..] = other else {
        return true;
    };
    is_within(triple, *value) && cuts(triples, values)
}

// How far from the peak the value lies, on its side.
fn ratio(triple: &Triple, value: Fix<14>) -> Share
    ensures part { result.part ≡ (ratio triple.now value).0 }
    ensures whole { result.whole ≡ (ratio triple.now value).1 }
{
    let (start, peak, end) = (triple.start.raw(), triple.peak.raw(), triple.end.raw());
    let value = value.raw();
    if peak < value {
        Share {
            part: value.abs_diff(peak),
            whole: end.abs_diff(peak),
        }
    } else if value < peak {
        Share {
            part: peak.abs_diff(value),
            whole: peak.abs_diff(start),
        }
    } else {
        Share { part: 0, whole: 1 }
    }
}

impl Share {
    // Whether the ratio is the lesser one, as a fraction.
    fn is_below(self, other: Share) -> bool
        ensures { result ≡ is_below (self.part, self.whole) (other.part, other.whole) }
    {
        u64::from(self.part) * u64::from(other.whole)
            < u64::from(other.part) * u64::from(self.whole)
    }
}

// The greatest ratio of any axis.
fn greatest_ratio(region: &[Triple], other: &[Fix<14>]) -> Share
    ensures part { result.part ≡ (greatest_ratio region.now other.now).0 }
    ensures whole { result.whole ≡ (greatest_ratio region.now other.now).1 }
{
    let [triple, triples @ ..] = region else {
        return Share { part: 0, whole: 1 };
    };
    let [value, values @ ..] = other else {
        return Share { part: 0, whole: 1 };
    };
    let own = ratio(triple, *value);
    let rest = greatest_ratio(triples, values);
    if own.is_below(rest) { rest } else { own }
}

// The axis after a cut: where its ratio is the greatest, the end on the value's side becomes the value.
fn cut_triple(greatest: Share, triple: &Triple, value: Fix<14>) -> Triple
    ensures { result ≡ cut_triple (greatest.part, greatest.whole) triple.now value }
{
    if ratio(triple, value).is_below(greatest) {
        *triple
    } else if triple.peak.raw() < value.raw() {
        Triple {
            start: triple.start,
            peak: triple.peak,
            end: value,
        }
    } else if value.raw() < triple.peak.raw() {
        Triple {
            start: value,
            peak: triple.peak,
            end: triple.end,
        }
    } else {
        *triple
    }
}

// Cuts each axis that has the greatest ratio.
fn cut_triples(greatest: Share, region: &mut [Triple], other: &[Fix<14>])
    ensures { region.new ≡ cut_triples (greatest.part, greatest.whole) region.old other.now }
{
    for axis in 0..region.len().min(other.len()) {
        region[axis] = cut_triple(greatest, &region[axis], other[axis]);
    }
}

/// Lets an earlier master with these values meet the region.
pub(crate) fn cut_by(region: &mut [Triple], other: &[Fix<14>])
    ensures { region.new ≡ cut_by region.old other.now }
{
    if cuts(region, other) {
        let greatest = greatest_ratio(region, other);
        cut_triples(greatest, region, other);
    }
}
