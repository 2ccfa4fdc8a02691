ghost use Rattle.std.specs.Prelude.{◌≡◌, true};
ghost use Rattle.kiss2.specs.Texts.{FitsPart, part_of};
ghost use Rattle.kiss2.specs.Headings.{count_of, decimal, is_count, reset_name, short_name};

use crate::line::opens_with_stop;
use crate::part::{Part, Word};
use machine::Refusal;

// Whether the word has one to five digits and nothing else.
fn is_count(bytes: &[u8]) -> bool
    ensures { result ≡ is_count bytes.now }
{
    (1..=5).contains(&bytes.len()) && bytes.iter().all(|byte| byte.is_ascii_digit())
}

// The number that up to five digits write.
// By a loop, as `output_word`. A `parse` takes text, so the bytes would be tested for being text, and then again for being digits.
fn decimal(bytes: &[u8]) -> u32
    requires { is_count bytes.now ≡ true }
    ensures { result ≡ decimal bytes.now }
{
    let mut number = 0;
    for byte in bytes {
        number = number * 10 + u32::from(*byte - b'0');
    }
    number
}

// The count that the word writes, where it is one in this range.
pub(crate) fn count_of(bytes: &[u8], least: u32, most: u32) -> Result<u32, Refusal>
    ensures { result ≡ count_of least most bytes.now }
{
    if !is_count(bytes) {
        return Err(Refusal::BadLine);
    }
    let count = decimal(bytes);
    if !(least..=most).contains(&count) {
        return Err(Refusal::BadLine);
    }
    Ok(count)
}

// Whether a name has at most 16 bytes.
pub(crate) fn short_name(bytes: &[u8]) -> bool
    ensures { result ≡ short_name bytes.now }
{
    bytes.len() <= 16
}

// The part of the text that the name of a reset state is.
pub(crate) fn reset_name(name: Word) -> Result<Part, Refusal>
    requires { FitsPart name }
    ensures { result ≡ reset_name (part_of name.entry) name.entry.bytes.now }
{
    if opens_with_stop(name.bytes) {
        return Err(Refusal::BadLine);
    }
    if !short_name(name.bytes) {
        return Err(Refusal::BadName);
    }
    Ok(name.part())
}
