ghost use Rattle.std.specs.Prelude.{◌≡◌, nat_lt};
ghost use Rattle.machine.specs.Lists.{all};
ghost use Rattle.machine.specs.Outputs.{first_difference};
ghost use Rattle.machine.specs.Sequences.{legal};
ghost use Rattle.compare.specs.Replays.{replayed};

use super::product::Product;
use machine::{Device, Refusal};
use search::Walk;

// The most letters that a sequence may have.
const MOST_LETTERS: usize = 16384;

// Whether each letter is below the count. A function: with the chain in `is_legal` the check does not find its answer.
fn letters_below(count: u8, sequence: &[u8]) -> bool
    ensures { result ≡ all (λ l. nat_lt l count) sequence.now }
{
    sequence.iter().all(|letter| *letter < count)
}

// Whether the device takes the sequence: it has letters, not too many, and all are the device's. A test, since callers outside ask it too.
pub fn is_legal<D: Device>(device: &D, sequence: &[u8]) -> bool
    ensures { result ≡ legal (D.meaning device.now).letters sequence.now }
{
    !sequence.is_empty()
        && sequence.len() <= MOST_LETTERS
        && letters_below(device.letters(), sequence)
}

// The first place at which the outputs along the sequence differ.
fn difference<D: Device>(product: &Product<D>, sequence: &[u8]) -> Option<usize>
    ensures { result ≡ first_difference (D.meaning product.now.device.now) product.now.first product.now.second sequence.now }
{
    let mut pair = product.start();
    // A loop: a `try_fold` would carry the pair and tell the place as its error, which it is not.
    for (place, letter) in sequence.iter().enumerate() {
        match product.step(pair, *letter) {
            None => return Some(place),
            Some(next) => pair = next,
        }
    }
    None
}

// The first place, counted from 0, at which the outputs of two members along the sequence differ.
pub fn first_difference<D: Device>(
    device: &D,
    first: u16,
    second: u16,
    sequence: &[u8],
) -> Option<usize>
    ensures { result ≡ first_difference (D.meaning device.now) first second sequence.now }
{
    let product = Product {
        device,
        first,
        second,
    };
    difference(&product, sequence)
}

// Replays a sequence on two members: the first place with outputs that differ, or none.
pub fn replay<D: Device>(
    device: &D,
    first: u16,
    second: u16,
    sequence: &[u8],
) -> Result<Option<usize>, Refusal>
    ensures { result ≡ replayed (D.meaning device.now) first second sequence.now }
{
    let product = Product::new(device, first, second)?;
    if !is_legal(device, sequence) {
        return Err(Refusal::BadSequence);
    }
    Ok(difference(&product, sequence))
}
