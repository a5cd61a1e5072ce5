//! Which drawing each component names.

ghost use Rattle.std.specs.Prelude.{◌≡◌, ℕ, List, None, IfOk, MatchResult, Some};
ghost use Rattle.std.specs.Option.{option_map};
ghost use Rattle.compat.specs.Names.{number_in, number_of, base_numbers, references, dangling_in, dangling_refusal, first_dangling};
ghost use Rattle.compat.specs.Stops.{StopsAt};

use crate::refusal::{FlattenStop, Refusal};
use basics::{Kind, Name, NoMemory, Seq};
use glif::Drawing;
use std::alloc::Global;
use std::collections::HashMap;

/// The number of each drawing, by its name.
fn numbers_by_name(alloc: Global, drawings: &[Drawing]) -> Result<HashMap<&str, usize>, NoMemory>
    ensures { IfOk result (λ numbers. (name : List ℕ) → number_in numbers name ≡ number_of drawings.now name) }
{
    let mut numbers = HashMap::new(alloc);
    for number in (0..drawings.len()).rev() {
        numbers.insert(drawings[number].name.as_str(), number)?;
    }
    Ok(numbers)
}

/// The number of the drawing of this name.
fn number_of(numbers: &HashMap<&str, usize>, name: &Name) -> Option<usize>
    ensures { result ≡ number_in numbers.now name.now }
{
    numbers.get(name.as_str()).copied()
}

/// The numbers of the bases of the components of the drawing of this number, or the first component whose base has
/// none.
fn base_numbers(
    alloc: Global,
    numbers: &HashMap<&str, usize>,
    number: usize,
    drawing: &Drawing,
) -> Result<Seq<usize>, FlattenStop>
    ensures { MatchResult result (λ bases. (bases ≡ base_numbers (number_in numbers.now) drawing.now) × (dangling_in (number_in numbers.now) drawing.now ≡ None)) (StopsAt (λ refusal. option_map (dangling_refusal number) (dangling_in (number_in numbers.now) drawing.now) ≡ Some refusal)) }
{
    let mut bases = Vec::new(alloc);
    for (index, component) in drawing.components.as_slice().iter().enumerate() {
        match number_of(numbers, &component.base) {
            Some(base) => bases.push(base)?,
            None => {
                return Err(FlattenStop::Refused(Refusal {
                    drawing: number,
                    kind: Kind::DanglingComponent,
                    at: index,
                    first: 0,
                }));
            }
        }
    }
    Ok(Seq::from_vec(bases))
}

/// For each drawing the numbers of its components' bases, or the first component whose base is no drawing.
pub(crate) fn references(
    alloc: Global,
    drawings: &[Drawing],
) -> Result<Seq<Seq<usize>>, FlattenStop>
    ensures { MatchResult result (λ graph. (graph ≡ references drawings.now) × (first_dangling drawings.now ≡ None)) (StopsAt (λ refusal. first_dangling drawings.now ≡ Some refusal)) }
{
    let numbers = numbers_by_name(alloc, drawings)?;
    let mut graph = Vec::new(alloc);
    for (number, drawing) in drawings.iter().enumerate() {
        let bases = base_numbers(alloc, &numbers, number, drawing)?;
        graph.push(bases)?;
    }
    Ok(Seq::from_vec(graph))
}
