ghost use Rattle.std.specs.Prelude.{◌≡◌};
ghost use Rattle.machine.specs.Machines.{Machine};
ghost use Rattle.layers.specs.Layers.{tied};
ghost use Rattle.layers.specs.Soundness.{tied_sound};

use machine::{Device, within};

// A device with pins tied: only the pins of keep follow the letter, and those of the value are 1.
#[derive(Clone, Copy, PartialEq, Eq, Hash, Debug)]
pub struct Tied<D> {
    below: D,
    keep: u8,
    value: u8,
}

impl<D> Tied<D> {
    pub fn new(below: D, keep: u8, value: u8) -> Tied<D>
        ensures below { result.below ≡ below }
        ensures keep { result.keep ≡ keep }
        ensures value { result.value ≡ value }
    {
        Tied { below, keep, value }
    }
}

impl<D: Device> Device for Tied<D> {
    ghost meaning = { λ t. tied t.keep t.value (D.Device.meaning t.below) };

    ghost sound = { λ t. tied_sound t.keep t.value (D.Device.meaning t.below) (D.Device.sound t.below) };

    fn members(&self) -> u16 {
        self.below.members()
    }

    fn letters(&self) -> u8 {
        self.below.letters()
    }

    fn states(&self) -> u16 {
        self.below.states()
    }

    fn reset(&self, member: u16) -> u16 {
        self.below.reset(member)
    }

    fn step(&self, member: u16, state: u16, letter: u8) -> (u16, u32) {
        let letter = within(self.below.letters(), letter);
        self.below
            .step(member, state, letter & self.keep | self.value)
    }
}
