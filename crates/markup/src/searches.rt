ghost use Rattle.std.specs.Prelude.{◌≡◌, ◌<◌, ◌≤◌, ◌+◌, length, IfSome, IsTrue};
ghost use Rattle.basics.specs.Bytes as runs;

use memchr::memchr;

/// The first index of a byte.
#[tactic(auto, using(crate::proofs::ByteSearch::index_is, crate::proofs::ByteSearch::index_within))]
pub(crate) fn index_of(byte: u8, bytes: &[u8]) -> Option<usize>
    ensures index { result ≡ runs.index_of byte bytes.now }
    ensures within { IfSome result (λ index. index < length bytes.now) }
{
    memchr(byte, bytes)
}

/// Whether the mark stands at the start.
#[tactic(auto, using(markup_rules::proofs::Searches::begins_is))]
pub(crate) fn begins(mark: &[u8], bytes: &[u8]) -> bool
    ensures value { result ≡ runs.begins mark.now bytes.now }
    ensures room { IsTrue result → length mark.now ≤ length bytes.now }
{
    bytes.starts_with(mark)
}

/// The first index at which the mark stands.
pub(crate) fn first_index(mark: &[u8], bytes: &[u8]) -> Option<usize>
    ensures index { result ≡ runs.first_index (runs.begins mark.now) bytes.now }
    ensures within { IfSome result (λ index. index + length mark.now ≤ length bytes.now) }
{
    for (index, _) in bytes.iter().enumerate() {
        if begins(mark, &bytes[index..]) {
            return Some(index);
        }
    }
    None
}
