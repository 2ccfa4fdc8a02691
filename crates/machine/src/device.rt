ghost use Rattle.std.specs.Prelude.{◌≡◌};
ghost use Rattle.machine.specs.Machines.{Machine, Sound, reset_of, step_of};

// A family of Mealy machines over common letters and states: the good machine is member 0, each fault another member.
// Numbers out of range are read as 0, so that no question is refused; answering changes nothing.
pub trait Device {
    // What the device means.
    ghost meaning: { Self → Machine };

    // The ranges, which each device proves of its meaning.
    ghost sound: { (d : Self) → Sound (meaning d) };

    fn members(&self) -> u16
        ensures { result ≡ (meaning self.now).members };

    fn letters(&self) -> u8
        ensures { result ≡ (meaning self.now).letters };

    fn states(&self) -> u16
        ensures { result ≡ (meaning self.now).states };

    fn reset(&self, member: u16) -> u16
        ensures { result ≡ reset_of (meaning self.now) member };

    // Where the member goes, and its output word. Three numbers and no struct, as nothing is known of them together: each may be out of range by itself.
    fn step(&self, member: u16, state: u16, letter: u8) -> (u16, u32)
        ensures { result ≡ step_of (meaning self.now) member state letter };
}
