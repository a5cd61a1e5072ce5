ghost use Rattle.std.specs.Prelude.{◌≡◌};
ghost use Rattle.std.specs.List.{list_all};
ghost use Rattle.basics.specs.Bytes as runs;
ghost use Rattle.basics.specs.Bytes.{after_run};

/// Whether the byte is a space, tab, line feed or carriage return (XML 1.0, "White Space").
pub fn is_blank(byte: u8) -> bool
    ensures { result ≡ runs.is_blank byte }
{
    byte == b' ' || byte == b'\t' || byte == b'\n' || byte == b'\r'
}

/// The text without the blanks at its start.
pub fn after_blanks(text: &[u8]) -> &[u8]
    ensures { result.now ≡ after_run runs.is_blank text.now }
{
    for (index, byte) in text.iter().enumerate() {
        if !is_blank(*byte) {
            return &text[index..];
        }
    }
    &[]
}

/// Whether there are blanks alone.
pub fn are_blanks(text: &[u8]) -> bool
    ensures { result ≡ list_all runs.is_blank text.now }
{
    text.iter().all(|byte| is_blank(*byte))
}
