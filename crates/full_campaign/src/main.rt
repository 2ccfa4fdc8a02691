// Runs whole campaigns: every fault of a small controller, and of a larger table that is made by rule.
#![tactic(auto)]

use campaign::{Campaign, SEQUENCES, Tally};
use devices::{AlteredCell, Cell, Table};
use machine::{Device, Pair, Refusal};
use search::Visit;
use std::alloc::{AllocError, Global};
use std::io;
use worked::{Spaced, controller};

// The larger table: 40 states, 8 letters, one fault for every cell: 320 in all.
const STATES: u16 = 40;

const LETTERS: u8 = 8;

const PAIRS: usize = (STATES * STATES) as usize;

// Letter 0 counts up, letter 1 goes to one of two states at every third, and the others fall back by halves.
fn next(state: u16, letter: u8) -> u16 {
    let step = u16::from(letter);
    match letter {
        0 => state.wrapping_add(1) % STATES,
        1 => state % 3,
        _ => (state / 2).wrapping_add(step) % STATES,
    }
}

fn output(state: u16, letter: u8) -> u32 {
    u32::from(state % 8 == u16::from(letter))
}

fn made_cells(heap: Global) -> Result<Vec<Cell>, AllocError> {
    (0..STATES)
        .flat_map(|state| {
            (0..LETTERS).map(move |letter| Cell {
                next: next(state, letter),
                output: output(state, letter),
            })
        })
        .collect(heap)
}

// The fault of each cell: it leads where the next state's cell leads. For some cells that is no change.
// A chain of its own: one function for cells and faults would be handed the rule and the item's type, and be longer than both.
fn made_faults(heap: Global) -> Result<Vec<AlteredCell>, AllocError> {
    (0..STATES)
        .flat_map(|state| {
            (0..LETTERS).map(move |letter| AlteredCell {
                state,
                letter,
                next: next(state.wrapping_add(1) % STATES, letter),
                output: output(state, letter),
            })
        })
        .collect(heap)
}

// Where the campaigns are printed, and the memory that they work in. It is on the heap, so no library lends it.
#[derive(Drop)]
struct Bench<'a, R> {
    rt: &'a R,
    visits: Vec<Visit<Pair>>,
    marks: Vec<u32>,
    buffer: Vec<u8>,
}

impl<'a, R: Print + AllocGlobal> Bench<'a, R> {
    fn new(rt: &'a R) -> Result<Self, AllocError> {
        let heap = rt.alloc();
        Ok(Bench {
            rt,
            visits: vec![in heap; Visit::default(); PAIRS]?,
            marks: vec![in heap; 0; PAIRS]?,
            buffer: vec![in heap; 0; campaign::LETTERS]?,
        })
    }

    // Judges each fault in turn that is open at its turn.
    fn judge_all<D: Device>(&mut self, campaign: &mut Campaign<D>) -> io::Result<()> {
        for fault in campaign.faults() {
            match campaign.judge(fault, &mut self.visits, &mut self.marks) {
                Ok(Some(number)) => println!(self.rt; "  fault {fault}: sequence {number}")?,
                Ok(None) => println!(self.rt; "  fault {fault}: undetectable")?,
                Err(Refusal::FaultNotOpen) => {}
                Err(refusal) => println!(self.rt; "  fault {fault}: {refusal}")?,
            }
        }
        Ok(())
    }

    // Prints the kept sequences with their origins: how many letters they have together.
    fn show_kept<D: Device>(&mut self, campaign: &Campaign<D>) -> io::Result<usize> {
        // Added up in the loop that prints: a sum by a chain would read every sequence out twice.
        let mut letters = 0usize;
        // Numbers that are not given have no sequence to print.
        for n in 1..=SEQUENCES as u16 {
            if let Ok((length, origin)) = campaign.read_out(n, &mut self.buffer, 0) {
                letters = letters.saturating_add(length);
                println!(self.rt;
                    "  sequence {n} for {origin}:{}",
                    Spaced(&self.buffer[..length])
                )?;
            }
        }
        Ok(letters)
    }

    fn run<D: Device + Drop>(&mut self, name: &str, device: D) -> io::Result<()> {
        let mut campaign = Campaign::make(device);
        println!(self.rt; "{name}:")?;
        self.judge_all(&mut campaign)?;
        show_marks(self.rt, &campaign)?;
        let letters = self.show_kept(&campaign)?;
        let Tally {
            found,
            undetectable,
            open,
        } = campaign.tally();
        println!(self.rt;
            "  found {found}, undetectable {undetectable}, open {open}; letters {letters}"
        )
    }
}

fn show_marks<D: Device>(rt: &impl Print, campaign: &Campaign<D>) -> io::Result<()> {
    print!(rt; "  marks:")?;
    // Each fault has a mark.
    for fault in campaign.faults() {
        if let Ok(mark) = campaign.mark(fault) {
            print!(rt; " {mark};")?;
        }
    }
    println!(rt; "")
}

fn main(rt: HostRuntime) -> anyhow::Result<()> {
    let mut bench = Bench::new(&rt)?;
    bench.run("controller", controller())?;
    let cells = made_cells(rt.alloc())?;
    let faults = made_faults(rt.alloc())?;
    // A refused table is left out, and the program goes on: a `?` would end it.
    if let Ok(larger) = Table::new(3, STATES, 0, &cells, &faults) {
        bench.run("made by rule", larger)?;
    }
    Ok(())
}
