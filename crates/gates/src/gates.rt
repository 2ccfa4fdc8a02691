ghost use Rattle.std.specs.Prelude.{◌≡◌, ◌+◌, ◌^◌, ◌<◌, ◌≤◌, true, length};
ghost use Rattle.gates.specs.Rules.{net_count, gates_ordered, name_nets};

use crate::gate::Gate;
use machine::Pins;

mod device;
mod idle;
mod taking_in;

// A device given by a gate list. The nets are numbered: first the pins, then the flip-flops, then the gates.
// A flip-flop and an output each name the net that they read. Bits are counted from 0: pins give those of a letter, flip-flops those of a state, outputs those of a word.
// Fault 1 + 2 * n + v is net n stuck at v.
#[derive(Clone, Copy, PartialEq, Eq, Hash, Debug)]
pub struct Gates<'a> {
    gates: &'a [Gate],
    loads: &'a [u16],
    outputs: &'a [u16],
    pins: Pins,
    reset: u16,
    ghost few_loads: { length loads.now ≤ 8 },
    ghost few_outputs: { length outputs.now ≤ 32 },
    ghost few_nets: { net_count pins.count gates.now loads.now ≤ 512 },
    ghost reset_inside: { reset < 2 ^ length loads.now },
    ghost in_order: { gates_ordered (pins.count + length loads.now) gates.now ≡ true },
    ghost loads_inside: { name_nets (net_count pins.count gates.now loads.now) loads.now ≡ true },
    ghost outputs_inside: { name_nets (net_count pins.count gates.now loads.now) outputs.now ≡ true },
}
