ghost use Rattle.std.specs.Prelude.{◌≡◌, length};
ghost use Rattle.campaign.specs.Histories.{KeptOnce, Lawful};
ghost use Rattle.campaign.specs.Rules.{Admitted, Fresh, Judged, ReadOut, marked};
ghost use Rattle.campaign.specs.Tallies.{faults_marked, is_found, is_open, is_undetectable};

use super::judging::{check_fault, faults};
use super::ledger::Ledger;
use super::mark::Mark;
use super::tally::Tally;
use machine::{Device, Pair, Refusal};
use search::Visit;
use std::marker::Model;
use std::ops::Range;

// A device with its fault list: where each fault stands, and the sequences that were kept.
// The work is the ledger's methods', which are lent the device: what they write lies in the ledger alone, and so do the invariants that a write has to keep.
#[derive(Drop)]
pub struct Campaign<D> {
    device: D,
    ledger: Ledger,
}

// Clauses see the device and what the ledger says, which is within the limits.
impl<D> Model for Campaign<D> {
    ghost use Rattle.campaign.specs.Standings.{Standing};

    ghost Value = { Standing D };

    ghost use Rattle.campaign.specs.Books.{book};
    ghost use Rattle.campaign.specs.Limits.{within_limits};

    ghost view = { λ c. record { device = c.device; book = book c.ledger; limits = within_limits c.ledger } };
}

impl<D: Device> Campaign<D> {
    // A campaign over a device: every fault is open and nothing is kept. Whatever calls follow, in any number and order, their history is told truly.
    pub fn make(device: D) -> Campaign<D>
        ensures device { result.device ≡ device }
        ensures fresh { Fresh result.book }
        ensures lawful { Lawful (D.meaning device) result.book }
        ensures once { KeptOnce (D.meaning device) }
    {
        Campaign {
            device,
            ledger: Ledger::new(),
        }
    }

    // The numbers of the device's faults.
    pub fn faults(&self) -> Range<u16>
        ensures start { result.start ≡ 1 }
        ensures end { result.end ≡ (D.meaning self.now.device).members }
    {
        faults(&self.device)
    }

    // Judges an open fault: the number of the least sequence that distinguishes it from the good machine, which is kept with the fault as its origin, or none where the fault is undetectable.
    // The work slices, two as at `search::shortest`, have an entry for each pair of states; what they hold does not matter and is lost.
    pub fn judge(
        &mut self,
        fault: u16,
        visits: &mut [Visit<Pair>],
        marks: &mut [u32],
    ) -> Result<Option<u16>, Refusal>
        ensures judged { Judged (D.meaning self.old.device) self.old.book fault (length visits.old) (length marks.old) result self.new.book }
        ensures device { self.new.device ≡ self.old.device }
    {
        self.ledger.judge(&self.device, fault, visits, marks)
    }

    // Keeps a client's sequence with origin 0, the number of the good machine: the sequence's number.
    pub fn admit(&mut self, sequence: &[u8]) -> Result<u16, Refusal>
        ensures admitted { Admitted (D.meaning self.old.device) self.old.book sequence.now result self.new.book }
        ensures device { self.new.device ≡ self.old.device }
    {
        self.ledger.admit(&self.device, sequence)
    }

    // Where a fault stands.
    pub fn mark(&self, fault: u16) -> Result<Mark, Refusal>
        ensures { result ≡ marked (D.meaning self.now.device) self.now.book fault }
    {
        check_fault(&self.device, fault)?;
        Ok(self.ledger.marks[usize::from(fault)])
    }

    // How many faults have each mark, as `mark` answers it.
    #[tactic(auto, using(crate::proofs::Tallied::all_counted))]
    pub fn tally(&self) -> Tally
        ensures found { result.found ≡ faults_marked is_found (D.meaning self.now.device) self.now.book }
        ensures undetectable { result.undetectable ≡ faults_marked is_undetectable (D.meaning self.now.device) self.now.book }
        ensures open { result.open ≡ faults_marked is_open (D.meaning self.now.device) self.now.book }
    {
        // A loop: the closure of a `fold` would not know that its number is a fault's, nor how many were counted.
        let mut tally = Tally::default();
        for fault in self.faults() {
            tally = tally.with(self.ledger.marks[usize::from(fault)]);
        }
        tally
    }

    // Writes kept sequence n into the buffer from a place on, and nothing else: its length and origin.
    pub fn read_out(&self, n: u16, buffer: &mut [u8], place: usize) -> Result<(usize, u16), Refusal>
        ensures { ReadOut self.now.book.kept n buffer.old place result buffer.new }
    {
        self.ledger.read_out(n, buffer, place)
    }
}
