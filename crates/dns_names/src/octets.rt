//! Octets compared by words: names are short, so that a call for it costs more than to compare them.
ghost use Rattle.std.specs.Prelude.{◌≡◌, ◌+◌, ◌≤◌, ◌<◌, length, take, drop};
ghost use Rattle.std.specs.Int.{w32, w64, from_le_bytes};
ghost use Rattle.std.specs.Str.{bytes_eq};

use byteorder::{ByteOrder, LittleEndian};

/// Eight octets as one number.
#[inline(always)]
fn word_at(octets: &[u8], at: usize) -> u64
    requires { at + 8 ≤ length octets.now }
    ensures { result ≡ from_le_bytes w64 (take 8 (drop at octets.now)) }
{
    LittleEndian::read_u64(&octets[at..])
}

/// Four octets as one number.
#[inline(always)]
fn half_at(octets: &[u8], at: usize) -> u32
    requires { at + 4 ≤ length octets.now }
    ensures { result ≡ from_le_bytes w32 (take 4 (drop at octets.now)) }
{
    LittleEndian::read_u32(&octets[at..])
}

/// Whether as many octets, fewer than eight, are the same. Of four and more the first four and the last four
/// tell it.
#[inline(always)]
fn same_few(octets: &[u8], others: &[u8]) -> bool
    requires same { length octets.now ≡ length others.now }
    requires few { length octets.now < 8 }
    ensures { result ≡ bytes_eq octets.now others.now }
{
    let size = octets.len();
    if size >= 4 {
        return half_at(octets, 0) == half_at(others, 0)
            && half_at(octets, size - 4) == half_at(others, size - 4);
    }
    let mut at = 0;
    'octets: while at < size {
        if octets[at] != others[at] {
            return false;
        }
        at += 1;
    }
    true
}

/// Whether octets are the same: eight at a time, and the last eight.
#[inline(always)]
pub fn same_octets(octets: &[u8], others: &[u8]) -> bool
    ensures { result ≡ bytes_eq octets.now others.now }
{
    let size = octets.len();
    if size != others.len() {
        return false;
    }
    if size < 8 {
        return same_few(octets, others);
    }
    let last = size - 8;
    let mut at = 0;
    'words: while at < last {
        if word_at(octets, at) != word_at(others, at) {
            return false;
        }
        at += 8;
    }
    word_at(octets, last) == word_at(others, last)
}
