// The largest comparison and check: 256 states and 64 letters, with every one of the 65,536 pairs reached.
#![tactic(auto)]

use compare::{Verdict, check, compare};
use devices::{AlteredCell, Cell, Table};
use machine::{MOST_PAIRS, MOST_STATES, Pair};
use search::Visit;
use std::alloc::{AllocError, Global};
use std::io;

const LETTERS: u8 = 64;

// Where a letter leads: each letter permutes the states, and letters 0 and 1 alone lead any two states to any two others.
fn next(state: u16, letter: u8) -> u16 {
    match letter {
        0 => state.wrapping_add(1) % MOST_STATES,
        1 if state < 2 => 1 - state,
        1 => state % MOST_STATES,
        _ => state.wrapping_mul(u16::from(letter).wrapping_mul(2).wrapping_add(1)) % MOST_STATES,
    }
}

// By a chain of its own, as in `full_campaign`: a public function that is handed the rule would need a `requires`, which no public call has.
fn cells(heap: Global) -> Result<Vec<Cell>, AllocError> {
    (0..MOST_STATES)
        .flat_map(|state| {
            (0..LETTERS).map(move |letter| Cell {
                next: next(state, letter),
                output: 0,
            })
        })
        .collect(heap)
}

// Fault 1 leads elsewhere and shows no difference ever; fault 2 shows one in a state that is far from reset.
const ALTERED: [AlteredCell; 2] = [
    AlteredCell {
        state: 0,
        letter: 0,
        next: 0,
        output: 0,
    },
    AlteredCell {
        state: 250,
        letter: 63,
        next: 0,
        output: 1,
    },
];

// Checks the pairs that were found.
fn show_check(rt: &impl Print, table: &Table, second: u16, pairs: &[Pair]) -> io::Result<()> {
    match check(table, 0, second, pairs) {
        Ok(None) => println!(rt; "0 with {second}: closed"),
        Ok(Some(_)) => println!(rt; "0 with {second}: not closed"),
        Err(refusal) => println!(rt; "0 with {second}: {refusal}"),
    }
}

// Compares the good table with a faulty one, and checks the pairs that were found.
fn show(rt: &(impl Print + AllocGlobal), table: &Table, second: u16) -> anyhow::Result<()> {
    let heap = rt.alloc();
    let mut visits = vec![in heap; Visit::default(); MOST_PAIRS]?;
    let mut marks = vec![in heap; 0; MOST_PAIRS]?;
    let mut letters = vec![in heap; 0; MOST_PAIRS]?;
    let mut pairs = vec![in heap; Pair::default(); MOST_PAIRS]?;
    match compare(
        table,
        0,
        second,
        &mut visits,
        &mut marks,
        &mut letters,
        &mut pairs,
    ) {
        Ok(verdict) => {
            println!(rt; "0 with {second}: {verdict}")?;
            if let Verdict::Equivalent { count } = verdict {
                show_check(rt, table, second, &pairs[..count])?;
            }
        }
        Err(refusal) => println!(rt; "0 with {second}: {refusal}")?,
    }
    Ok(())
}

fn main(rt: HostRuntime) -> anyhow::Result<()> {
    let cells = cells(rt.alloc())?;
    // A refused table is told, in words of this program's own, and it goes on with the idle one: a `?` would end it.
    let table = match Table::new(6, MOST_STATES, 0, &cells, &ALTERED) {
        Ok(table) => table,
        Err(refusal) => {
            println!(rt; "the table is refused by {}", refusal.number())?;
            Table::idle()
        }
    };
    show(&rt, &table, 1)?;
    show(&rt, &table, 2)
}
