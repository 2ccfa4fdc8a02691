ghost use Rattle.std.specs.Prelude.{◌≡◌};
ghost use Rattle.machine.specs.Machines.{Machine};
ghost use Rattle.layers.specs.Layers.{observed};
ghost use Rattle.layers.specs.Soundness.{observed_sound};

use machine::Device;

// A device of which only the outputs of a mask are seen.
#[derive(Clone, Copy, PartialEq, Eq, Hash, Debug)]
pub struct Observed<D> {
    below: D,
    mask: u32,
}

impl<D> Observed<D> {
    pub fn new(below: D, mask: u32) -> Observed<D>
        ensures below { result.below ≡ below }
        ensures mask { result.mask ≡ mask }
    {
        Observed { below, mask }
    }
}

// The methods that a layer passes on are written out, here and in `Tied`: an impl by a macro is refused, and one generic layer
// would take a trait of rules for letters and outputs, with a meaning and a law of its own, for just these two rules.
impl<D: Device> Device for Observed<D> {
    ghost meaning = { λ o. observed o.mask (D.Device.meaning o.below) };

    ghost sound = { λ o. observed_sound o.mask (D.Device.meaning o.below) (D.Device.sound o.below) };

    fn members(&self) -> u16 {
        self.below.members()
    }

    fn letters(&self) -> u8 {
        self.below.letters()
    }

    fn states(&self) -> u16 {
        self.below.states()
    }

    fn reset(&self, member: u16) -> u16 {
        self.below.reset(member)
    }

    fn step(&self, member: u16, state: u16, letter: u8) -> (u16, u32) {
        let (next, output) = self.below.step(member, state, letter);
        (next, output & self.mask)
    }
}
