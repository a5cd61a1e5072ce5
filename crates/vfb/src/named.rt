ghost use Rattle.std.specs.Prelude.{◌≡◌, find, position, IfSome};
ghost use Rattle.std.specs.Str.{bytes_eq};
ghost use Rattle.vfb.specs.Named.{without};

use filters::GlyphFilter;

/// Whether the filter has this name.
pub(crate) fn is_called(filter: &Box<dyn GlyphFilter>, name: &str) -> bool
    ensures { result ≡ bytes_eq (called filter.now) name.now }
{
    filter.name() == name
}

/// The number of the first filter of this name, from 0.
fn number_called(filters: &[Box<dyn GlyphFilter>], name: &str) -> Option<usize>
    ensures { result ≡ position (λ filter. bytes_eq (called filter) name.now) filters.now }
{
    for (number, filter) in filters.iter().enumerate() {
        if is_called(filter, name) {
            return Some(number);
        }
    }
    None
}

/// Takes the first filter of this name out of the list, or answers None exactly where no filter has it. The others stay
/// in their order.
pub(crate) fn take_called(
    filters: &mut Vec<Box<dyn GlyphFilter>>,
    name: &str,
) -> Option<Box<dyn GlyphFilter>>
    ensures taken { result ≡ find (λ filter. bytes_eq (called filter) name.now) filters.old.items }
    ensures named { IfSome result (λ filter. called filter ≡ name.now) }
    ensures others { filters.new.items ≡ without (λ filter. bytes_eq (called filter) name.now) filters.old.items }
{
    let number = number_called(filters, name)?;
    Some(filters.remove(number))
}
