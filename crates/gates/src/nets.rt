ghost use Rattle.std.specs.Prelude.{◌≡◌, ℕ, ◌+◌, ◌*◌, ◌^◌, ◌<◌, ◌≤◌, true, ◌++◌, length, take, if◌then◌else◌, slice_set};
ghost use Rattle.gates.specs.Nets.{gate_at, value_at, word_at};
ghost use Rattle.gates.specs.Words.{bits};
ghost use Rattle.gates.specs.Rules.{name_nets};

use crate::gate::Gate;

// How many nets a gate list may have.
pub(crate) const MOST_NETS: usize = 512;

// The value of each net, in an array, as libraries use no heap; those past the last net mean nothing. An `ArrayVec` would keep a length beside them, which the pass knows.
// That a number names a net is asked at each call: numbers are the caller's `u16`, and a type of its own would be made from each at every reading.
#[derive(Drop)]
pub(crate) struct Nets {
    values: [bool; MOST_NETS],
    ghost long: { length values ≡ 512 },
}

impl Nets {
    pub(crate) fn new() -> Nets {
        Nets {
            values: [false; MOST_NETS],
        }
    }

    // Writes the lowest bits of a word to the nets from a number on.
    pub(crate) fn write_bits(&mut self, first: usize, count: usize, word: u16)
        requires { first + count ≤ 512 }
        ensures { take (first + count) self.new.values ≡ take first self.old.values ++ bits count word }
    {
        let mut rest = word;
        for value in self.values[first..first + count].iter_mut() {
            *value = rest % 2 == 1;
            rest /= 2;
        }
    }

    // Gives a net a value.
    pub(crate) fn set(&mut self, net: usize, value: bool)
        requires { net < 512 }
        ensures { self.new.values ≡ slice_set self.old.values net value }
    {
        self.values[net] = value;
    }

    fn value(&self, net: u16) -> bool
        requires { net < 512 }
        ensures { result ≡ value_at self.now.values net }
    {
        self.values[usize::from(net)]
    }

    // The value of a gate whose nets have their values.
    pub(crate) fn gate_value(&self, gate: &Gate) -> bool
        requires left { gate.now.left < 512 }
        requires right { gate.now.right < 512 }
        ensures { result ≡ gate_at self.now.values gate.now }
    {
        gate.kind
            .value(self.value(gate.left), self.value(gate.right))
    }

    // The word of the nets with these numbers, the first of them as bit 0.
    #[tactic(auto, using(crate::proofs::Reading::word_more, crate::proofs::Reading::word_fits, crate::proofs::Reading::named_here))]
    pub(crate) fn word(&self, numbers: &[u16]) -> u32
        requires few { length numbers.now ≤ 32 }
        requires inside { name_nets 512 numbers.now ≡ true }
        ensures { result ≡ word_at self.now.values numbers.now }
    {
        // A loop: from a `sum` of mapped bits the check finds neither that they fit nor which word they are.
        let mut word = 0;
        for (place, number) in numbers.iter().enumerate() {
            word += bit(place, self.value(*number));
        }
        word
    }
}

// The bit of a place.
fn bit(place: usize, value: bool) -> u32
    requires { place < 32 }
    ensures { result ≡ (if value then 2 ^ place else 0) }
{
    u32::from(value) << place
}
