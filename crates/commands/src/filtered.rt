ghost use Rattle.std.specs.Prelude.{◌≡◌, map, IfOk};
ghost use Rattle.commands.specs.Command.{filter_of};
ghost use Rattle.commands.specs.Words.{seen_word};

use basics::NoMemory;
use std::alloc::Global;

/// A filter that the words ask for.
#[derive(Clone, Copy)]
pub struct FilterWord<'a> {
    /// Its name.
    pub name: &'a str,
    /// The text that configures it.
    pub text: &'a str,
}

/// The filter that a word asks for: its name, and after the first colon the text, which is empty where there is no colon.
fn filter_of(word: &str) -> FilterWord<'_>
    ensures { seen_word result ≡ filter_of word.now }
{
    match word.split_once(':') {
        Some((name, text)) => FilterWord { name, text },
        None => FilterWord {
            name: word,
            text: "",
        },
    }
}

/// The filters that the words ask for, in their order.
pub(crate) fn filter_words<'a>(
    alloc: Global,
    words: &[&'a str],
) -> Result<Vec<FilterWord<'a>>, NoMemory>
    ensures { IfOk result (λ filters. map seen_word filters.items ≡ map filter_of (map (λ word. word.now) words.now)) }
{
    let mut filters = Vec::with_capacity(alloc, words.len())?;
    for word in words {
        filters.push(filter_of(word))?;
    }
    Ok(filters)
}
