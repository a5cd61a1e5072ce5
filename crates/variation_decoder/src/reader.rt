ghost use Rattle.std.specs.Prelude.{◌≡◌, ℕ, ℤ, List, Option, Some, None, IfOk, MatchOption};
ghost use Rattle.variation_decoder.specs.Reading.{Gives, many};
ghost use Rattle.variation_decoder.specs.Tuples.{tuple_points_at, pairs, part_at, tuple_at, tuples_at, shared_points_at, header_at, data_header_at, headers_at, glyph_data_at, tuples_of};
ghost use Rattle.variation_rules.specs.TupleVariations.{MeansTuples};
ghost use Rattle.variation_rules.specs.declared.tuple.TupleVariation.{TupleVariation};

use crate::fields::word_at;
use crate::header::{Head, header_at};
use crate::packed::{deltas_at, points_at};
use crate::refusal::Refusal;
use basics::{NoMemory, Seq};
use fixpoint::{Fix, Pair};
use std::alloc::Global;
use variation_rules::TupleVariation;

/// The bit of the count word that says that shared points follow the headers.
const SHARED_POINTS: u16 = 0x8000;

/// The bits of the count word that are reserved.
const RESERVED: u16 = 0x7000;

/// The bits of the count word that hold the number of tuples.
const TUPLE_COUNT: u16 = 0x0FFF;

/// What stands before the packed data of a glyph.
#[derive(Drop)]
pub struct DataHeader {
    /// The word with the number of tuples.
    pub count: u16,
    /// The offset at which the packed data begin, as the data say it.
    pub offset: u16,
    /// The headers, one for each tuple.
    pub heads: Seq<Head>,
}

/// The points of a tuple, its own or the shared ones, and the bytes after them.
#[tactic(auto, unfolding(crate::specs::Tuples::tuple_points_at))]
fn tuple_points_at<'a>(
    alloc: Global,
    total: u16,
    shared: &Option<Seq<u16>>,
    private: bool,
    bytes: &'a [u8],
) -> Result<(Seq<u16>, &'a [u8]), Refusal>
    ensures { Gives (λ x. (x.0, x.1.now)) result (tuple_points_at total shared.now private bytes.now) }
{
    if private {
        return points_at(alloc, total, bytes);
    }
    match shared {
        None => Err(Refusal::NoReading),
        Some(points) => {
            let points = Vec::from_slice(alloc, points.as_slice())?;
            Ok((Seq::from_vec(points), bytes))
        }
    }
}

/// The pairs of these numbers, as far as both lists go.
fn pairs(alloc: Global, xs: &[i32], ys: &[i32]) -> Result<Seq<Pair>, Refusal>
    ensures { Gives (λ x. x) result (Some (pairs xs.now ys.now)) }
{
    let mut pairs = Seq::new(alloc);
    let mut xs = xs;
    let mut ys = ys;
    while let [x, later_xs @ ..] = xs {
        let [y, later_ys @ ..] = ys else {
            return Ok(pairs);
        };
        pairs.push(Pair { x: *x, y: *y })?;
        xs = later_xs;
        ys = later_ys;
    }
    Ok(pairs)
}

/// The tuple of this header from its packed part, and the bytes after it.
#[tactic(auto, unfolding(crate::specs::Tuples::part_at))]
fn part_at<'a>(
    alloc: Global,
    total: u16,
    shared: &Option<Seq<u16>>,
    head: &Head,
    part: &'a [u8],
) -> Result<(TupleVariation, &'a [u8]), Refusal>
    ensures { Gives (λ x. (x.0, x.1.now)) result (part_at total shared.now head.now part.now) }
{
    let (points, rest) = tuple_points_at(alloc, total, shared, head.private, part)?;
    let (xs, rest) = deltas_at(alloc, points.len(), rest)?;
    let (ys, rest) = deltas_at(alloc, points.len(), rest)?;
    let deltas = pairs(alloc, xs.as_slice(), ys.as_slice())?;
    let region = Seq::from_vec(Vec::from_slice(alloc, head.region.as_slice())?);
    Ok((
        TupleVariation {
            region,
            points,
            deltas,
        },
        rest,
    ))
}

/// The tuple of this header, and the bytes after its packed part, which has the size that the header
/// says.
#[tactic(auto, unfolding(crate::specs::Tuples::tuple_at))]
fn tuple_at<'a>(
    alloc: Global,
    total: u16,
    shared: &Option<Seq<u16>>,
    head: &Head,
    bytes: &'a [u8],
) -> Result<(TupleVariation, &'a [u8]), Refusal>
    ensures { Gives (λ x. (x.0, x.1.now)) result (tuple_at total shared.now head.now bytes.now) }
{
    let size = usize::from(head.size);
    if bytes.len() < size {
        return Err(Refusal::NoReading);
    }
    let (part, rest) = bytes.split_at(size);
    let (tuple, left_over) = part_at(alloc, total, shared, head, part)?;
    if !left_over.is_empty() {
        return Err(Refusal::NoReading);
    }
    Ok((tuple, rest))
}

/// One tuple for each header, and the bytes after their packed parts.
fn tuples_at<'a>(
    alloc: Global,
    total: u16,
    shared: &Option<Seq<u16>>,
    heads: &[Head],
    bytes: &'a [u8],
) -> Result<(Seq<TupleVariation>, &'a [u8]), Refusal>
    ensures { Gives (λ x. (x.0, x.1.now)) result (tuples_at total shared.now heads.now bytes.now) }
{
    let mut tuples = Seq::new(alloc);
    let mut rest = bytes;
    for head in heads {
        let (tuple, after) = tuple_at(alloc, total, shared, head, rest)?;
        tuples.push(tuple)?;
        rest = after;
    }
    Ok((tuples, rest))
}

/// The shared points where there are some, and the bytes after them.
#[tactic(auto, unfolding(crate::specs::Tuples::shared_points_at))]
fn shared_points_at(
    alloc: Global,
    total: u16,
    are_there: bool,
    bytes: &[u8],
) -> Result<(Option<Seq<u16>>, &[u8]), Refusal>
    ensures { Gives (λ x. (x.0, x.1.now)) result (shared_points_at total are_there bytes.now) }
{
    if !are_there {
        return Ok((None, bytes));
    }
    let (points, rest) = points_at(alloc, total, bytes)?;
    Ok((Some(points), rest))
}

/// So many headers, and the bytes after them.
fn heads_at<'a>(
    alloc: Global,
    axes: u16,
    peaks: &Seq<Seq<Fix<14>>>,
    count: u16,
    bytes: &'a [u8],
) -> Result<(Seq<Head>, &'a [u8]), Refusal>
    ensures { Gives (λ x. (x.0, x.1.now)) result (many (header_at axes peaks.now) count bytes.now) }
{
    let mut heads = Seq::new(alloc);
    let mut rest = bytes;
    for _ in 0..count {
        let (head, after) = header_at(alloc, axes, peaks, rest)?;
        heads.push(head)?;
        rest = after;
    }
    Ok((heads, rest))
}

/// The count, the offset and the headers, and the bytes after them.
#[tactic(auto, unfolding(crate::specs::Tuples::data_header_at))]
fn data_header_at<'a>(
    alloc: Global,
    axes: u16,
    peaks: &Seq<Seq<Fix<14>>>,
    bytes: &'a [u8],
) -> Result<(DataHeader, &'a [u8]), Refusal>
    ensures { Gives (λ x. (x.0, x.1.now)) result (data_header_at axes peaks.now bytes.now) }
{
    let (count, rest) = word_at(bytes)?;
    let (offset, rest) = word_at(rest)?;
    if count & RESERVED != 0 {
        return Err(Refusal::NoReading);
    }
    let (heads, rest) = heads_at(alloc, axes, peaks, count & TUPLE_COUNT, rest)?;
    Ok((
        DataHeader {
            count,
            offset,
            heads,
        },
        rest,
    ))
}

/// The same, where the offset leads after the headers.
#[tactic(auto, unfolding(crate::specs::Tuples::headers_at))]
fn headers_at<'a>(
    alloc: Global,
    axes: u16,
    peaks: &Seq<Seq<Fix<14>>>,
    bytes: &'a [u8],
) -> Result<(DataHeader, &'a [u8]), Refusal>
    ensures { Gives (λ x. (x.0, x.1.now)) result (headers_at axes peaks.now bytes.now) }
{
    let (prefix, rest) = data_header_at(alloc, axes, peaks, bytes)?;
    if usize::from(prefix.offset) + rest.len() != bytes.len() {
        return Err(Refusal::NoReading);
    }
    Ok((prefix, rest))
}

/// The tuples of a glyph's data, and the bytes after them.
#[tactic(auto, unfolding(crate::specs::Tuples::glyph_data_at))]
fn glyph_data_at<'a>(
    alloc: Global,
    axes: u16,
    total: u16,
    peaks: &Seq<Seq<Fix<14>>>,
    bytes: &'a [u8],
) -> Result<(Seq<TupleVariation>, &'a [u8]), Refusal>
    ensures { Gives (λ x. (x.0, x.1.now)) result (glyph_data_at axes total peaks.now bytes.now) }
{
    let (prefix, rest) = headers_at(alloc, axes, peaks, bytes)?;
    let has_shared = prefix.count & SHARED_POINTS != 0;
    let (shared, rest) = shared_points_at(alloc, total, has_shared, rest)?;
    let (tuples, rest) = tuples_at(alloc, total, &shared, prefix.heads.as_slice(), rest)?;
    Ok((tuples, rest))
}

/// The tuples that the bytes mean, or a refusal.
#[tactic(auto, unfolding(crate::specs::Tuples::tuples_of))]
fn tuples_of(
    alloc: Global,
    axes: u16,
    total: u16,
    peaks: &Seq<Seq<Fix<14>>>,
    bytes: &[u8],
) -> Result<Seq<TupleVariation>, Refusal>
    ensures { Gives (λ x. x) result (tuples_of axes total peaks.now bytes.now) }
{
    if bytes.is_empty() {
        return Ok(Seq::new(alloc));
    }
    let (tuples, rest) = glyph_data_at(alloc, axes, total, peaks, bytes)?;
    if !rest.is_empty() {
        return Err(Refusal::NoReading);
    }
    Ok(tuples)
}

/// Reads one glyph's variation data (OpenType, "gvar" and "Tuple variation store").
///
/// The glyph has `total` points, the four phantom points among them, in a font of so many `axes` with
/// these shared `peaks`. The answer is `None` where the bytes have no meaning: where they end too
/// early or too late, a reserved bit is set, the offset doesn't lead after the headers, a run holds
/// more values than are wanted, points don't rise or pass the total, a shared peak or the shared
/// points are named and aren't there. The reader is plain and slow, for tests to compare with.
pub fn read_tuples(
    alloc: Global,
    axes: u16,
    total: u16,
    peaks: &Seq<Seq<Fix<14>>>,
    bytes: &[u8],
) -> Result<Option<Seq<TupleVariation>>, NoMemory>
    // What is found is what the bytes mean, and nothing is found only where they mean nothing.
    ensures found { IfOk result (λ found. MatchOption found ((tuples : List TupleVariation) → MeansTuples axes total peaks.now bytes.now tuples → ⊥) (λ tuples. MeansTuples axes total peaks.now bytes.now tuples)) }
    // What the bytes mean is found.
    ensures only { (tuples : List TupleVariation) → MeansTuples axes total peaks.now bytes.now tuples → IfOk result (λ found. found ≡ Some tuples) }
{
    match tuples_of(alloc, axes, total, peaks, bytes) {
        Ok(tuples) => Ok(Some(tuples)),
        Err(Refusal::NoReading) => Ok(None),
        Err(Refusal::NoMemory) => Err(NoMemory),
    }
}

/// Bytes have at most one meaning, though a list has many spellings.
pub fn reading_law()
    ensures { (axes total : ℕ) (peaks : List (List ℤ)) (bytes : List ℕ) (xs ys : List TupleVariation) → MeansTuples axes total peaks bytes xs → MeansTuples axes total peaks bytes ys → xs ≡ ys }
{}
