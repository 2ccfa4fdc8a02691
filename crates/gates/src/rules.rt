ghost use Rattle.std.specs.Prelude.{◌≡◌, ◌+◌, ◌≤◌, length, nat_lt};
ghost use Rattle.gates.specs.Rules.{net_count, gates_ordered, name_nets};

use crate::gate::Gate;
use machine::Pins;

// The net of the first gate: the pins and flip-flops come before it.
pub(crate) fn first_gate(pins: Pins, loads: &[u16]) -> usize
    ensures { result ≡ pins.count + length loads.now }
{
    usize::from(pins.count) + loads.len()
}

// How many nets there are.
pub(crate) fn net_count(pins: Pins, gates: &[Gate], loads: &[u16]) -> usize
    ensures { result ≡ net_count pins.count gates.now loads.now }
{
    first_gate(pins, loads) + gates.len()
}

// Whether each gate is in order; the first has the net with the number first.
pub(crate) fn gates_ordered(first: usize, gates: &[Gate]) -> bool
    requires { first + length gates.now ≤ 512 }
    ensures { result ≡ gates_ordered first gates.now }
{
    // Numbered by `enumerate`: with a range in a `zip` a large list took two thirds more time to take in. The sum wraps for none, which a closure does not know.
    gates
        .iter()
        .enumerate()
        .all(|(i, gate)| gate.is_ordered(first.wrapping_add(i)))
}

// Whether a number names one of the nets. A function of its own, whose contract is the rule of one number in the proof of the next.
fn names_net(count: usize, number: u16) -> bool
    ensures { result ≡ nat_lt number count }
{
    usize::from(number) < count
}

// Whether each number does so.
pub(crate) fn name_nets(count: usize, numbers: &[u16]) -> bool
    ensures { result ≡ name_nets count numbers.now }
{
    numbers.iter().all(|&number| names_net(count, number))
}
