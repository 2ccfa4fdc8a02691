ghost use Rattle.std.specs.Prelude.{◌≡◌, ◌+◌, ◌^◌, ◌<◌, ◌≤◌, length, take};
ghost use Rattle.machine.specs.Machines.{Machine};
ghost use Rattle.gates.specs.GateLists.{machine_of, nets_of, values_of};
ghost use Rattle.gates.specs.Nets.{word_at};
ghost use Rattle.gates.specs.Soundness.{gates_sound};

use crate::gates::Gates;
use crate::nets::Nets;
use crate::pass::Pass;
use crate::rules::{first_gate, net_count};
use crate::stuck_at::StuckAt;
use machine::{Device, within};

// How many states some flip-flops have. Not one function with `Pins::letters`: 256 states are past a byte, which letters are.
pub(crate) fn state_count(flip_flops: usize) -> u16
    requires { flip_flops ≤ 8 }
    ensures { result ≡ 2 ^ flip_flops }
{
    1 << flip_flops
}

impl<'a> Gates<'a> {
    // Works out the nets of a member, at a state and a letter.
    fn settle(&self, nets: &mut Nets, member: u16, state: u16, letter: u8)
        requires { member < (machine_of self.now).members }
        ensures { take (nets_of self.now) nets.new.values ≡ values_of self.now member state letter }
    {
        let pins = usize::from(self.pins.count);
        nets.write_bits(0, pins, u16::from(letter));
        nets.write_bits(pins, self.loads.len(), state);
        let pass = Pass {
            first: first_gate(self.pins, self.loads),
            gates: self.gates,
        };
        match StuckAt::of(member) {
            None => pass.evaluate(nets),
            Some(stuck) => pass.evaluate_held(nets, stuck),
        }
    }

    // The state that the flip-flops load.
    fn next_state(&self, nets: &Nets) -> u16
        ensures { result ≡ word_at (take (nets_of self.now) nets.now.values) self.now.loads.now }
    {
        nets.word(self.loads) as u16
    }

    // The word at the outputs.
    fn output_word(&self, nets: &Nets) -> u32
        ensures { result ≡ word_at (take (nets_of self.now) nets.now.values) self.now.outputs.now }
    {
        nets.word(self.outputs)
    }

    // One step of a member that there is.
    fn step_inside(&self, member: u16, state: u16, letter: u8) -> (u16, u32)
        requires { member < (machine_of self.now).members }
        ensures { result ≡ ((machine_of self.now).next member state letter, (machine_of self.now).output member state letter) }
    {
        let mut nets = Nets::new();
        self.settle(&mut nets, member, state, letter);
        (self.next_state(&nets), self.output_word(&nets))
    }
}

impl<'a> Device for Gates<'a> {
    ghost meaning = { machine_of };

    ghost sound = { gates_sound };

    fn members(&self) -> u16 {
        2 * net_count(self.pins, self.gates, self.loads) as u16 + 1
    }

    fn letters(&self) -> u8 {
        self.pins.letters()
    }

    fn states(&self) -> u16 {
        state_count(self.loads.len())
    }

    fn reset(&self, _member: u16) -> u16 {
        self.reset
    }

    fn step(&self, member: u16, state: u16, letter: u8) -> (u16, u32) {
        self.step_inside(
            within(self.members(), member),
            within(self.states(), state),
            within(self.letters(), letter),
        )
    }
}
