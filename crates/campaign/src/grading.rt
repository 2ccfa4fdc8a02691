ghost use Rattle.std.specs.Prelude.{◌≡◌, ◌<◌, is_some, slice_index_or};
ghost use Rattle.machine.specs.Outputs.{first_difference};
ghost use Rattle.campaign.specs.Books.{part};
ghost use Rattle.campaign.specs.Ledgers.{Graded, Remarked};
ghost use Rattle.campaign.specs.Rules.{graded};

use super::judging::faults;
use super::ledger::{Kept, Ledger, MEMBERS};
use super::mark::Mark;
use compare::first_difference;
use machine::Device;

// The mark of a fault after a sequence was graded: an open fault that it distinguishes is found by it.
fn graded_mark<D: Device>(device: &D, fault: u16, mark: Mark, sequence: &[u8], number: u16) -> Mark
    ensures { result ≡ graded (D.meaning device.now) sequence.now number fault mark }
{
    match mark {
        Mark::Open if first_difference(device, 0, fault, sequence).is_some() => Mark::Found(number),
        _ => mark,
    }
}

impl Ledger {
    // Grades one fault by a kept sequence.
    fn grade_fault<D: Device>(&mut self, device: &D, fault: u16, kept: Kept, number: u16)
        requires { fault < MEMBERS }
        ensures { Remarked self.old fault (graded (D.meaning device.now) (part kept.start kept.length self.old.letters) number fault (slice_index_or self.old.marks fault Mark.Open)) self.new }
    {
        let mark = graded_mark(
            device,
            fault,
            self.marks[usize::from(fault)],
            self.sequence(kept),
            number,
        );
        self.set_mark(fault, mark);
    }

    // Grades every fault by a kept sequence.
    // By number: `enumerate` over `iter_mut` numbers all marks of the table and not the faults alone, and `zip` with the faults is an adapter, behind which nothing is known of the marks.
    pub(crate) fn grade<D: Device>(&mut self, device: &D, kept: Kept, number: u16)
        ensures { Graded (D.meaning device.now) self.old (part kept.start kept.length self.old.letters) number self.new }
    {
        for fault in faults(device) {
            self.grade_fault(device, fault, kept, number);
        }
    }
}
