ghost use Rattle.std.specs.Prelude.{◌≡◌, ◌⊎◌, ◌≤◌, IfErr, IfOk, OnErr, OnOk};
ghost use Rattle.compare.specs.Comparisons.{Members};
ghost use Rattle.compare.specs.Soundness.{pair_sound};
ghost use Rattle.compare.specs.Walks.{pair_graph, pair_number, PairInside};

use machine::{Device, Pair, Refusal, outputs_differ, row_major};
use search::Walk;

// The number of a pair of states: pairs of states below the count have different numbers.
pub(crate) fn pair_number(states: u16, pair: Pair) -> usize
    ensures { result ≡ pair_number states pair }
{
    row_major(states, pair.first, pair.second)
}

// The product machine of two members, from their resets: a position is a pair of states, and unequal outputs are the goal.
// Public calls take its three parts one by one, as callers have handed them from the first.
#[derive(Clone, Copy)]
pub(crate) struct Product<'a, D> {
    pub(crate) device: &'a D,
    pub(crate) first: u16,
    pub(crate) second: u16,
}

impl<'a, D: Device> Product<'a, D> {
    // Refuses two numbers that are not both members of the device.
    pub(crate) fn new(device: &'a D, first: u16, second: u16) -> Result<Product<'a, D>, Refusal>
        ensures product { IfOk result (λ p. p ≡ record { device = device.entry; first = first; second = second }) }
        ensures members { OnOk result (Members (D.meaning device.now) first second) }
        ensures refusal { IfErr result (λ e. e ≡ Refusal.NoSuchMember) }
        ensures strangers { OnErr result (((D.meaning device.now).members ≤ first) ⊎ ((D.meaning device.now).members ≤ second)) }
    {
        let members = device.members();
        if first >= members || second >= members {
            return Err(Refusal::NoSuchMember);
        }
        Ok(Product {
            device,
            first,
            second,
        })
    }
}

impl<'a, D: Device> Walk for Product<'a, D> {
    type Position = Pair;

    ghost graph = { λ w. pair_graph (D.Device.meaning w.device.now) w.first w.second };

    ghost Inside = { λ w p. PairInside (D.Device.meaning w.device.now) p };

    ghost sound = { λ w. pair_sound (D.Device.meaning w.device.now) (D.Device.sound w.device.now) w.first w.second };

    // The pair of resets.
    fn start(&self) -> Pair {
        Pair {
            first: self.device.reset(self.first),
            second: self.device.reset(self.second),
        }
    }

    fn letters(&self) -> u8 {
        self.device.letters()
    }

    fn count(&self) -> usize {
        let states = usize::from(self.device.states());
        states * states
    }

    fn number(&self, position: Pair) -> usize {
        pair_number(self.device.states(), position)
    }

    fn step(&self, position: Pair, letter: u8) -> Option<Pair> {
        let (first, x) = self.device.step(self.first, position.first, letter);
        let (second, y) = self.device.step(self.second, position.second, letter);
        if outputs_differ(x, y) {
            None
        } else {
            Some(Pair { first, second })
        }
    }
}
