ghost use Rattle.std.specs.Prelude.{◌≡◌, None, Ok};
ghost use Rattle.machine.specs.Outputs.{Equivalent};
ghost use Rattle.compare.specs.Checks.{checked, finding, flaw_at, flaw_at_letters, flaw_at_places, listed};
ghost use Rattle.compare.specs.PairSets.{has_pair, IsSetOf};

use super::flaw::Flaw;
use super::pair_set::PairSet;
use super::product::Product;
use machine::{Device, Pair, Refusal};
use search::Walk;

// What a check goes by: the product machine, and the pairs that are listed, as a set. Their list is walked through once and lent to that walk alone.
#[derive(Drop)]
struct Checker<'a, D: Device> {
    product: Product<'a, D>,
    listed: &'a PairSet,
    ghost same: { listed.now.states ≡ (D.meaning product.device.now).states },
}

impl<'a, D: Device> Checker<'a, D> {
    // What is wrong at one pair and one letter, if anything.
    fn check_letter(&self, place: usize, pair: Pair, letter: u8) -> Option<Flaw>
        ensures { result ≡ flaw_at (D.meaning self.now.product.device.now) self.now.product.first self.now.product.second (has_pair self.now.listed.now) place pair letter }
    {
        match self.product.step(pair, letter) {
            None => Some(Flaw::OutputsDiffer { place, letter }),
            Some(next) if self.listed.contains(next) => None,
            Some(_) => Some(Flaw::SuccessorMissing { place, letter }),
        }
    }

    // What is wrong at one pair, at the least of the first letters.
    fn check_letters(&self, place: usize, pair: Pair, letters: u8) -> Option<Flaw>
        ensures { result ≡ flaw_at_letters (D.meaning self.now.product.device.now) self.now.product.first self.now.product.second (has_pair self.now.listed.now) place pair 0 letters }
    {
        // A loop: with a `find_map` here the whole check took 103 million instructions for 65 million, and 70 million was the bar.
        for letter in 0..letters {
            let flaw = self.check_letter(place, pair, letter);
            if flaw.is_some() {
                return flaw;
            }
        }
        None
    }

    // What is wrong at one pair, at the least letter.
    fn check_pair(&self, place: usize, pair: Pair) -> Option<Flaw>
        ensures { let m = D.meaning self.now.product.device.now in result ≡ flaw_at_letters m self.now.product.first self.now.product.second (has_pair self.now.listed.now) place pair 0 m.letters }
    {
        self.check_letters(place, pair, self.product.letters())
    }

    // What is wrong at the least place of the list whose pairs these are.
    fn check_pairs(&self, pairs: &[Pair]) -> Option<Flaw>
        requires { IsSetOf pairs.now self.now.listed.now }
        ensures { result ≡ flaw_at_places (D.meaning self.now.product.device.now) self.now.product.first self.now.product.second (listed pairs.now) 0 pairs.now }
    {
        pairs
            .iter()
            .enumerate()
            .find_map(|(place, pair)| self.check_pair(place, *pair))
    }

    // What is wrong with the list whose pairs these are.
    fn check_list(&self, pairs: &[Pair]) -> Option<Flaw>
        requires { IsSetOf pairs.now self.now.listed.now }
        ensures { result ≡ finding (D.meaning self.now.product.device.now) self.now.product.first self.now.product.second pairs.now }
    {
        if self.listed.contains(self.product.start()) {
            self.check_pairs(pairs)
        } else {
            Some(Flaw::NoResetPair)
        }
    }
}

// What is wrong with the pairs that are listed, or nothing: then the list is closed, and shows that the two members are equivalent.
pub fn check<D: Device>(
    device: &D,
    first: u16,
    second: u16,
    pairs: &[Pair],
) -> Result<Option<Flaw>, Refusal>
    ensures answer { result ≡ checked (D.meaning device.now) first second pairs.now }
    ensures proof { result ≡ Ok None → Equivalent (D.meaning device.now) first second }
{
    let product = Product::new(device, first, second)?;
    let mut listed = PairSet::new(device.states());
    listed.insert_all(pairs)?;
    let checker = Checker {
        product,
        listed: &listed,
    };
    Ok(checker.check_list(pairs))
}
