ghost use Rattle.std.specs.Prelude.{◌≡◌, ◌≤◌, length};
ghost use Rattle.font_text.specs.Utf16.{unit_count, utf16_length};

/// How many units of UTF-16 the text takes, as names of a font are written (OpenType, "name").
#[tactic(auto, unfolding(crate::specs::Utf16::utf16_length))]
pub fn utf16_length(text: &str) -> usize
    ensures value { result ≡ utf16_length text.now }
    ensures size { result ≤ length text.now }
{
    let mut units = 0;
    for character in text.chars() {
        units += character.len_utf16();
    }
    units
}
