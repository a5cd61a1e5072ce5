ghost use Rattle.std.specs.Prelude.{◌≡◌, ◌<◌, ◌%◌, ◌^◌, length};
ghost use Rattle.be_bytes.specs.WordSum.{word_sum};

/// The sum of the big-endian 32-bit words, the last one filled with zeros, modulo 2^32.
pub fn sum32(bytes: &[u8]) -> u32
    ensures { result ≡ word_sum bytes.now % 2 ^ 32 }
{
    let mut sum = 0u32;
    let mut rest = bytes;
    while let [a, b, c, d, after @ ..] = rest {
        sum = sum.wrapping_add(u32::from_be_bytes([*a, *b, *c, *d]));
        rest = after;
    }
    sum.wrapping_add(last_word(rest))
}

/// The word that begins with these bytes and goes on with zeros; 0 where there are none.
fn last_word(bytes: &[u8]) -> u32
    requires { length bytes.now < 4 }
    ensures { result ≡ word_sum bytes.now }
{
    match bytes {
        [] => 0,
        [a] => u32::from_be_bytes([*a, 0, 0, 0]),
        [a, b] => u32::from_be_bytes([*a, *b, 0, 0]),
        [a, b, c, ..] => u32::from_be_bytes([*a, *b, *c, 0]),
    }
}
