ghost use Rattle.std.specs.Prelude.{◌≡◌, ◌+◌, ◌*◌, ◌^◌, ◌<◌, ◌≤◌, length, if◌then◌else◌, Some, None, ◌==◌, nat_eq};
ghost use Rattle.kiss2.specs.Rows.{has_width, is_bit, output_word};

// Whether the byte is `0`, `1` or a dash.
fn is_bit(byte: u8) -> bool
    ensures { result ≡ is_bit byte }
{
    matches!(byte, b'0' | b'1' | b'-')
}

// Whether the word has as many such bytes as the width says, and no other.
pub(crate) fn has_width(bytes: &[u8], width: u8) -> bool
    ensures { result ≡ has_width width bytes.now }
{
    bytes.len() == usize::from(width) && bytes.iter().all(|byte| is_bit(*byte))
}

// The bit that a digit stands for; none for a dash, which in an input matches both.
pub(crate) fn bit_of(digit: u8) -> Option<bool>
    ensures { result ≡ (if nat_eq digit 45 then None else Some (digit == 49)) }
{
    if digit == b'-' {
        None
    } else {
        Some(digit == b'1')
    }
}

// A number with one bit more behind it: the leftmost digit comes first and is the highest bit.
pub(crate) fn longer(number: usize, bit: bool) -> usize
    requires { number < 2 ^ 60 }
    ensures { result ≡ number * 2 + (if bit then 1 else 0) }
{
    number * 2 + usize::from(bit)
}

// The output word that up to 32 digits write, the leftmost as the highest bit.
// By a loop: the closure of a `fold` does not know how many digits came before, which is what keeps the word small.
pub(crate) fn output_word(digits: &[u8]) -> u32
    requires { length digits.now ≤ 32 }
    ensures { result ≡ output_word digits.now }
{
    let mut word = 0;
    for digit in digits {
        // In an output a dash reads as 0.
        word = longer(word, bit_of(*digit).unwrap_or(false));
    }
    word as u32
}
