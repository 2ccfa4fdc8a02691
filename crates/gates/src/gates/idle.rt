ghost use Rattle.std.specs.Prelude.{◌≡◌};
ghost use Rattle.gates.specs.GateLists.{idle, machine_of};

use crate::gates::Gates;
use machine::Pins;

impl<'a> Gates<'a> {
    // The idle device, which has no nets: one member, one letter, one state and output 0.
    pub fn idle() -> Gates<'a>
        ensures { machine_of result ≡ idle }
    {
        Gates {
            gates: &[],
            loads: &[],
            outputs: &[],
            pins: Pins::NONE,
            reset: 0,
        }
    }
}
