ghost use Rattle.std.specs.Prelude.{◌≡◌};
ghost use Rattle.std.specs.List.{list_all};
ghost use Rattle.font_text.specs.Tags.{filled, is_printable, tag_of};

/// Whether all bytes are ASCII from the space to the tilde.
fn are_printable(bytes: &[u8]) -> bool
    ensures { result ≡ list_all is_printable bytes.now }
{
    bytes.iter().all(|byte| 32 <= *byte && *byte <= 126)
}

/// One to four bytes, filled with spaces.
fn filled(bytes: &[u8]) -> Option<[u8; 4]>
    ensures { result ≡ filled bytes.now }
{
    match bytes {
        [a] => Some([*a, b' ', b' ', b' ']),
        [a, b] => Some([*a, *b, b' ', b' ']),
        [a, b, c] => Some([*a, *b, *c, b' ']),
        [a, b, c, d] => Some([*a, *b, *c, *d]),
        _ => None,
    }
}

/// The tag that a text writes: one to four bytes of ASCII from the space to the tilde, filled with spaces
/// (OpenType, "Data Types", `Tag`).
#[tactic(auto, unfolding(crate::specs::Tags::tag_of))]
pub fn tag_of(text: &str) -> Option<[u8; 4]>
    ensures { result ≡ tag_of text.now }
{
    let bytes = text.as_bytes();
    if are_printable(bytes) {
        filled(bytes)
    } else {
        None
    }
}
