ghost use Rattle.std.specs.Prelude.{◌≡◌, ◌+◌, ◌<◌, if◌then◌else◌};
ghost use Rattle.campaign.specs.Tallies.{is_found, is_open, is_undetectable};

use super::mark::Mark;

// How many faults have each mark.
#[derive(Clone, Copy, PartialEq, Eq, Hash, Default, Debug)]
pub struct Tally {
    pub found: u16,
    pub undetectable: u16,
    pub open: u16,
}

impl Tally {
    // One mark more.
    pub(crate) fn with(self, mark: Mark) -> Tally
        requires { self.found + self.undetectable + self.open < 65535 }
        ensures one { result.found + result.undetectable + result.open ≡ self.found + self.undetectable + self.open + 1 }
        ensures found { result.found ≡ self.found + (if is_found mark then 1 else 0) }
        ensures undetectable { result.undetectable ≡ self.undetectable + (if is_undetectable mark then 1 else 0) }
        ensures open { result.open ≡ self.open + (if is_open mark then 1 else 0) }
    {
        match mark {
            Mark::Open => Tally {
                open: self.open + 1,
                ..self
            },
            Mark::Found(_) => Tally {
                found: self.found + 1,
                ..self
            },
            Mark::Undetectable => Tally {
                undetectable: self.undetectable + 1,
                ..self
            },
        }
    }
}
