ghost use Rattle.std.specs.Prelude.{◌≡◌, ◌^◌, ◌≤◌};

use crate::limits::MOST_PINS;
use crate::refusal::Refusal;

// How many input pins a device has.
#[derive(Clone, Copy, PartialEq, Eq, PartialOrd, Ord, Hash, Debug)]
pub struct Pins {
    pub count: u8,
    pub ghost few: { count ≤ 6 },
}

impl Pins {
    // The idle device has none.
    pub const NONE: Pins = Pins { count: 0 };

    // How many letters there are over these pins.
    #[tactic(auto, using(crate::proofs::Letters::few_letters))]
    pub fn letters(self) -> u8
        ensures power { result ≡ 2 ^ self.count }
        ensures some { 1 ≤ result }
        ensures few { result ≤ 64 }
    {
        1 << self.count
    }
}

// A device that is taken in has 1 to 6 pins.
impl TryFrom<u8> for Pins {
    ghost use Rattle.machine.specs.Pins.{PinsOf};

    type Error = Refusal;

    ghost try_from_gives = { PinsOf };

    fn try_from(count: u8) -> Result<Pins, Refusal> {
        match count {
            1..=MOST_PINS => Ok(Pins { count }),
            _ => Err(Refusal::OutsideDeviceRules),
        }
    }
}
