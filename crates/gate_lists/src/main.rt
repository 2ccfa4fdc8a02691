// Gate lists: whole stuck-at campaigns on small circuits, a pile of layers over a table and a gate list, and many steps of the largest list.
#![tactic(auto)]

use campaign::{Campaign, Tally};
use compare::{Verdict, compare};
use devices::{Cell, Table};
use gates::{Gate, Gates, Kind};
use layers::{Observed, Rivals, Tied};
use machine::{Device, Pair, Refusal};
use search::Visit;
use std::alloc::{AllocError, Global};
use std::io;
use worked::{Spaced, controller, worked_cases};

const PAIRS: usize = 256;

fn gate(kind: Kind, left: u16, right: u16) -> Gate {
    Gate { kind, left, right }
}

// Two pins are added bit by bit, with a flip-flop for the carry.
fn adder() -> [Gate; 5] {
    [
        gate(Kind::Xor, 0, 1),
        gate(Kind::Xor, 3, 2),
        gate(Kind::And, 0, 1),
        gate(Kind::And, 3, 2),
        gate(Kind::Or, 5, 6),
    ]
}

// Four flip-flops count the clocks at which the pin is 1; the output tells the overflow.
fn counter() -> [Gate; 8] {
    [
        gate(Kind::Xor, 1, 0),
        gate(Kind::And, 1, 0),
        gate(Kind::Xor, 2, 6),
        gate(Kind::And, 2, 6),
        gate(Kind::Xor, 3, 8),
        gate(Kind::And, 3, 8),
        gate(Kind::Xor, 4, 10),
        gate(Kind::And, 4, 10),
    ]
}

// The output tells a 0 after two 1s: one flip-flop for the last letter, one for the last two.
fn detector() -> [Gate; 4] {
    [
        gate(Kind::And, 0, 1),
        gate(Kind::Not, 0, 0),
        gate(Kind::And, 4, 2),
        gate(Kind::Buff, 0, 0),
    ]
}

// The gate of net 2 adds nothing: where it is 1, net 0 is 1 as well.
fn redundant() -> [Gate; 2] {
    [gate(Kind::And, 0, 1), gate(Kind::Or, 0, 2)]
}

// The serial adder as a table: state 1 is the carry.
const ADDER_CELLS: [Cell; 8] = [
    Cell { next: 0, output: 0 },
    Cell { next: 0, output: 1 },
    Cell { next: 0, output: 1 },
    Cell { next: 1, output: 0 },
    Cell { next: 0, output: 1 },
    Cell { next: 1, output: 0 },
    Cell { next: 1, output: 0 },
    Cell { next: 1, output: 1 },
];

// Where the answers are printed, and the memory that the searches work in. It is on the heap, so no library lends it.
#[derive(Drop)]
struct Bench<'a, R> {
    rt: &'a R,
    visits: Vec<Visit<Pair>>,
    marks: Vec<u32>,
}

impl<'a, R: Print + AllocGlobal> Bench<'a, R> {
    fn new(rt: &'a R) -> Result<Self, AllocError> {
        let heap = rt.alloc();
        Ok(Bench {
            rt,
            visits: vec![in heap; Visit::default(); PAIRS]?,
            marks: vec![in heap; 0; PAIRS]?,
        })
    }

    // Judges every fault of a device that is open at its turn, and prints what was kept and a summary. The loop is that of `full_campaign` but for what is printed of a sequence, which is stored.
    fn run<D: Device + Drop>(&mut self, name: &str, device: D) -> io::Result<()> {
        let rt = self.rt;
        let mut campaign = Campaign::make(device);
        // Added up in the loop that prints: a sum by a chain would read every sequence out twice.
        let mut letters = 0usize;
        println!(rt; "{name}:")?;
        for fault in campaign.faults() {
            match campaign.judge(fault, &mut self.visits, &mut self.marks) {
                Ok(Some(number)) => {
                    letters = letters.saturating_add(show_sequence(rt, &campaign, fault, number)?);
                }
                Ok(None) => println!(rt; "  fault {fault}: undetectable")?,
                Err(Refusal::FaultNotOpen) => {}
                Err(refusal) => println!(rt; "  fault {fault}: {refusal}")?,
            }
        }
        let Tally {
            found,
            undetectable,
            ..
        } = campaign.tally();
        println!(rt; "  found {found}, undetectable {undetectable}; letters {letters}")
    }

    // Runs the campaign of a gate list. A refused one is told, and the program goes on: a `?` would end it.
    fn run_gates(&mut self, name: &str, device: Result<Gates, Refusal>) -> io::Result<()> {
        match device {
            Ok(device) => self.run(name, device),
            Err(refusal) => println!(self.rt; "{refusal}"),
        }
    }

    // Compares the two members of a pile and prints the verdict.
    fn show_pile<D: Device>(&mut self, name: &str, device: &D) -> io::Result<()> {
        let rt = self.rt;
        let mut letters = [0; 16];
        let mut pairs = [Pair::default(); 16];
        print!(rt; "{name}: ")?;
        match compare(
            device,
            0,
            1,
            &mut self.visits,
            &mut self.marks,
            &mut letters,
            &mut pairs,
        ) {
            Ok(verdict @ Verdict::Differ { length }) => println!(rt;
                "{verdict}:{}",
                Spaced(&letters[..length])
            ),
            Ok(verdict @ Verdict::Equivalent { count }) => println!(rt;
                "{verdict}:{}",
                Spaced(&pairs[..count])
            ),
            Err(refusal) => println!(rt; "{refusal}"),
        }
    }

    // The adder's table beside its gate list: equivalent, and with a wrong cell not, unless the pins or the outputs hide it.
    // A refused table or list leaves the idle device, and the program goes on: a `?` would end it.
    fn show_piles(&mut self) -> io::Result<()> {
        let gates = adder();
        let gates = Gates::new(2, 0, &gates, &[7], &[4]).unwrap_or(Gates::idle());
        let mut wrong_cells = ADDER_CELLS;
        wrong_cells[7].output = 0;
        let table = Table::new(2, 2, 0, &ADDER_CELLS, &[]).unwrap_or(Table::idle());
        let wrong_table = Table::new(2, 2, 0, &wrong_cells, &[]).unwrap_or(Table::idle());
        let same = Rivals::new(table, gates);
        let wrong = Rivals::new(wrong_table, gates);
        let pile = Observed::new(Tied::new(wrong, 3, 0), 1);
        self.show_pile("table and gates", &same)?;
        self.show_pile("wrong table and gates", &wrong)?;
        self.show_pile("the same, one pin tied to 0", &Tied::new(wrong, 1, 0))?;
        self.show_pile("the same, one pin tied to 1", &Tied::new(wrong, 1, 2))?;
        self.show_pile("the same, nothing seen", &Observed::new(wrong, 0))?;
        self.show_pile("a pile of three", &pile)?;
        self.show_pile("controller, nothing seen", &Observed::new(controller(), 0))?;
        self.run("campaign over a pile", pile)
    }
}

// Prints a kept sequence: how many letters it adds to the sum, none where it cannot be read out.
fn show_sequence<D: Device>(
    rt: &impl Print,
    campaign: &Campaign<D>,
    fault: u16,
    number: u16,
) -> io::Result<usize> {
    let mut buffer = [0; 256];
    print!(rt; "  fault {fault}: sequence {number}:")?;
    let Ok((length, _origin)) = campaign.read_out(number, &mut buffer, 0) else {
        println!(rt; "")?;
        return Ok(0);
    };
    println!(rt; "{}", Spaced(&buffer[..length]))?;
    Ok(length)
}

// The gates of the largest list: nets 14 to 511.
fn many_gates(heap: Global) -> Result<Vec<Gate>, AllocError> {
    (14..512)
        .map(|net| {
            let kind = if net % 3 == 0 { Kind::Xor } else { Kind::Nand };
            gate(kind, net - 14, net - 1 - net % 11)
        })
        .collect(heap)
}

// Many steps of a device, with a fault: the last state and a sum of the outputs.
fn show_steps(rt: &impl Print, device: &impl Device) -> io::Result<()> {
    let (state, sum) = (0u8..64)
        .cycle()
        .take(200_000)
        .fold((0, 0u32), |(state, sum), letter| {
            let (next, output) = device.step(700, state, letter);
            (next, sum.wrapping_add(output))
        });
    println!(rt; "200000 steps of 512 nets: state {state}, sum {sum}")
}

// The steps of a list with 512 nets and eight flip-flops. A refused one is told, and the program goes on.
fn steps(rt: &(impl Print + AllocGlobal)) -> anyhow::Result<()> {
    let gates = many_gates(rt.alloc())?;
    match Gates::new(
        6,
        0,
        &gates,
        &[504, 505, 506, 507, 508, 509, 510, 511],
        &[500, 501, 502, 503],
    ) {
        Ok(device) => show_steps(rt, &device)?,
        Err(refusal) => println!(rt; "{refusal}")?,
    }
    Ok(())
}

fn main(rt: HostRuntime) -> anyhow::Result<()> {
    let mut bench = Bench::new(&rt)?;
    bench.run_gates("serial adder", Gates::new(2, 0, &adder(), &[7], &[4]))?;
    bench.run_gates(
        "counter",
        Gates::new(1, 0, &counter(), &[5, 7, 9, 11], &[12]),
    )?;
    bench.run_gates("detector", Gates::new(1, 0, &detector(), &[6, 3], &[5]))?;
    bench.run_gates("redundant net", Gates::new(2, 0, &redundant(), &[], &[3]))?;
    bench.show_piles()?;
    steps(&rt)?;
    println!(rt; "{} worked cases hold", worked_cases())?;
    Ok(())
}
