ghost use Rattle.std.specs.Prelude.{◌≡◌, ◌<◌};
ghost use Rattle.compare.specs.Soundness.{state_sound};
ghost use Rattle.compare.specs.Walks.{state_graph};

use machine::Device;
use search::Walk;

// One member from reset: a position is a state, and arrival at the wanted one is the goal.
#[derive(Clone, Copy)]
pub(crate) struct StateWalk<'a, D> {
    pub(crate) device: &'a D,
    pub(crate) member: u16,
    pub(crate) wanted: u16,
}

impl<'a, D: Device> Walk for StateWalk<'a, D> {
    type Position = u16;

    ghost graph = { λ w. state_graph (D.Device.meaning w.device.now) w.member w.wanted };

    ghost Inside = { λ w q. q < (D.Device.meaning w.device.now).states };

    ghost sound = { λ w. state_sound (D.Device.meaning w.device.now) (D.Device.sound w.device.now) w.member w.wanted };

    fn start(&self) -> u16 {
        self.device.reset(self.member)
    }

    fn letters(&self) -> u8 {
        self.device.letters()
    }

    fn count(&self) -> usize {
        usize::from(self.device.states())
    }

    fn number(&self, position: u16) -> usize {
        usize::from(position)
    }

    fn step(&self, position: u16, letter: u8) -> Option<u16> {
        let (next, _output) = self.device.step(self.member, position, letter);
        if next == self.wanted {
            None
        } else {
            Some(next)
        }
    }
}
