// The edges of a campaign on a small controller: the order of judging, the last number and the last letter, and what a refusal leaves.
#![tactic(auto)]

use campaign::{Campaign, Mark};
use devices::Table;
use machine::Pair;
use search::Visit;
use std::io;
use worked::{Spaced, controller};

// A campaign over the worked controller, and where its answers are printed.
#[derive(Drop)]
struct Session<'a, R> {
    rt: &'a R,
    campaign: Campaign<Table<'static>>,
}

impl<'a, R: Print> Session<'a, R> {
    fn new(rt: &'a R) -> Self {
        Session {
            rt,
            campaign: Campaign::make(controller()),
        }
    }

    // Judges a fault over so many visits. The marks are enough for every pair of states.
    // An array is cut to that length: with a vector the program would have a heap to run out of.
    fn judge(&mut self, fault: u16, work: usize) -> io::Result<()> {
        let rt = self.rt;
        let visit = Visit {
            position: Pair {
                first: 8,
                second: 8,
            },
            from: 8,
            letter: 8,
        };
        let mut visits = [visit; 16];
        let visits = &mut visits[..work.min(16)];
        let mut marks = [8; 16];
        print!(rt; "  judge {fault} over {work}: ")?;
        match self.campaign.judge(fault, visits, &mut marks) {
            Ok(Some(number)) => println!(rt; "sequence {number}"),
            Ok(None) => println!(rt; "undetectable"),
            Err(refusal) => println!(rt; "{refusal}"),
        }
    }

    fn admit(&mut self, sequence: &[u8]) -> io::Result<()> {
        let rt = self.rt;
        print!(rt; "  admit {} letters: ", sequence.len())?;
        match self.campaign.admit(sequence) {
            Ok(number) => println!(rt; "sequence {number}"),
            Err(refusal) => println!(rt; "{refusal}"),
        }
    }

    // By hand, since this line has hyphens where a mark and a refusal print spaces, and outputs are stored.
    fn show_marks(&self) -> io::Result<()> {
        let rt = self.rt;
        print!(rt; "  marks:")?;
        for fault in 0..5 {
            match self.campaign.mark(fault) {
                Ok(Mark::Open) => print!(rt; " open")?,
                Ok(Mark::Found(n)) => print!(rt; " found-by-{n}")?,
                Ok(Mark::Undetectable) => print!(rt; " undetectable")?,
                Err(refusal) => print!(rt; " refused-{}", refusal.number())?,
            }
        }
        println!(rt; "")
    }

    // Reads a sequence out into a short buffer from a place on, and prints the whole buffer.
    fn read_out(&self, n: u16, place: usize) -> io::Result<()> {
        let rt = self.rt;
        let mut buffer = [9; 8];
        print!(rt; "  read out {n} from {place}: ")?;
        match self.campaign.read_out(n, &mut buffer, place) {
            Ok((length, origin)) => print!(rt; "{length} letters for {origin};")?,
            Err(refusal) => print!(rt; "{refusal};")?,
        }
        println!(rt; "{}", Spaced(&buffer))
    }
}

fn forwards(rt: &impl Print) -> io::Result<()> {
    println!(rt; "1 before 3:")?;
    let mut session = Session::new(rt);
    session.show_marks()?;
    session.judge(1, 15)?;
    session.judge(1, 16)?;
    session.judge(3, 16)?;
    session.judge(2, 16)?;
    session.judge(2, 0)?;
    session.judge(0, 16)?;
    session.judge(4, 0)?;
    session.show_marks()?;
    session.read_out(0, 0)?;
    session.read_out(1, 0)?;
    session.read_out(1, 3)?;
    session.read_out(1, 4)?;
    session.read_out(1, usize::MAX)?;
    session.read_out(2, 0)
}

fn backwards(rt: &impl Print) -> io::Result<()> {
    println!(rt; "3 before 1:")?;
    let mut session = Session::new(rt);
    session.judge(3, 16)?;
    session.judge(1, 16)?;
    session.show_marks()?;
    session.read_out(1, 0)?;
    session.read_out(2, 0)
}

fn admitted(rt: &impl Print) -> io::Result<()> {
    println!(rt; "a client's sequences:")?;
    let mut session = Session::new(rt);
    session.admit(&[])?;
    session.admit(&[0, 2])?;
    session.show_marks()?;
    session.admit(&[0, 1, 0])?;
    session.admit(&[1, 1])?;
    session.show_marks()?;
    session.judge(1, 16)?;
    session.read_out(2, 1)?;
    session.read_out(3, 0)
}

// Sequence 256 is kept, and the next is not: neither a client's nor one for a fault. A fault without one is judged all the same.
fn last_number(rt: &impl Print) -> io::Result<()> {
    println!(rt; "the last number:")?;
    let mut session = Session::new(rt);
    // Whether they are kept is seen by the numbers that follow.
    for _ in 0..255 {
        let _ = session.campaign.admit(&[0]);
    }
    session.admit(&[0])?;
    session.admit(&[0])?;
    session.admit(&[2])?;
    session.judge(1, 16)?;
    session.judge(2, 16)?;
    session.show_marks()?;
    session.read_out(256, 0)?;
    session.read_out(257, 0)
}

// One letter too few is refused, and exactly enough is not.
fn last_letter(rt: &impl Print) -> io::Result<()> {
    println!(rt; "the last letter:")?;
    let mut session = Session::new(rt);
    let long = [0; 16384];
    session.admit(&long[..16380])?;
    session.judge(1, 16)?;
    session.admit(&long[..5])?;
    session.show_marks()?;
    session.judge(3, 16)?;
    session.admit(&long[..3])?;
    session.admit(&[0])?;
    session.judge(1, 16)?;
    session.judge(2, 16)?;
    session.show_marks()?;
    session.read_out(2, 0)
}

fn main(rt: HostRuntime) -> io::Result<()> {
    forwards(&rt)?;
    backwards(&rt)?;
    admitted(&rt)?;
    last_number(&rt)?;
    last_letter(&rt)
}
