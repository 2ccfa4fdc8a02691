ghost use Rattle.std.specs.Prelude.{◌≡◌};
ghost use Rattle.machine.specs.Machines.{Machine};
ghost use Rattle.layers.specs.Layers.{rivals};
ghost use Rattle.layers.specs.Soundness.{rivals_sound};

use machine::{Device, within};

// The good machines of two devices, side by side: member 0 is that of the first, member 1 that of the second.
#[derive(Clone, Copy, PartialEq, Eq, Hash, Debug)]
pub struct Rivals<A, B> {
    first: A,
    second: B,
}

impl<A, B> Rivals<A, B> {
    pub fn new(first: A, second: B) -> Rivals<A, B>
        ensures first { result.first ≡ first }
        ensures second { result.second ≡ second }
    {
        Rivals { first, second }
    }
}

impl<A: Device, B: Device> Device for Rivals<A, B> {
    ghost meaning = { λ r. rivals (A.Device.meaning r.first) (B.Device.meaning r.second) };

    ghost sound = { λ r. rivals_sound (A.Device.meaning r.first) (B.Device.meaning r.second) (A.Device.sound r.first) (B.Device.sound r.second) };

    fn members(&self) -> u16 {
        2
    }

    fn letters(&self) -> u8 {
        self.first.letters().min(self.second.letters())
    }

    fn states(&self) -> u16 {
        self.first.states().max(self.second.states())
    }

    fn reset(&self, member: u16) -> u16 {
        match member {
            1 => self.second.reset(0),
            _ => self.first.reset(0),
        }
    }

    fn step(&self, member: u16, state: u16, letter: u8) -> (u16, u32) {
        let letter = within(self.letters(), letter);
        match member {
            1 => self.second.step(0, state, letter),
            _ => self.first.step(0, state, letter),
        }
    }
}
