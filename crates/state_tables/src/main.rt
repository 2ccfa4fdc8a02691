// Reports over many texts, and names out of them. The input has a case behind each tilde: the sizes of the slices and a label, then the good and the faulty text, each behind a bar.
// A faulty text of one equals sign stands for the good one.
#![tactic(auto)]

use devices::Cell;
use kiss2::{Part, Side, name};
use machine::{MOST_CELLS, MOST_PAIRS, MOST_STATES};
use report::report;
use search::Visit;
use std::io;
use std::io::{Read, Write};

// What the report slice holds at first.
const FRESH: u8 = b'.';

// The sizes of the slices that a case hands over: cells and names for each text, visits, mark words, and report bytes.
#[derive(Clone, Copy)]
struct Sizes {
    cells: usize,
    names: usize,
    visits: usize,
    marks: usize,
    bytes: usize,
}

// The largest sizes, and what a size without a number means.
const MOST: Sizes = Sizes {
    cells: MOST_CELLS,
    names: MOST_STATES as usize,
    visits: MOST_PAIRS,
    marks: MOST_PAIRS,
    bytes: 40000,
};

// The number that a word writes, at most the given one, which is also what a word without a number means.
fn number(word: Option<&str>, most: usize) -> usize {
    word.and_then(|digits| digits.parse::<usize>().ok())
        .unwrap_or(most)
        .min(most)
}

// Prints the report over two texts, with slices of these sizes.
fn show(
    rt: &(impl Print + AllocGlobal),
    sizes: Sizes,
    good: &str,
    faulty: &str,
) -> anyhow::Result<()> {
    let heap = rt.alloc();
    let mut good_cells = vec![in heap; Cell::default(); sizes.cells]?;
    let mut good_names = vec![in heap; Part::default(); sizes.names]?;
    let mut faulty_cells = vec![in heap; Cell::default(); sizes.cells]?;
    let mut faulty_names = vec![in heap; Part::default(); sizes.names]?;
    let mut visits = vec![in heap; Visit::default(); sizes.visits]?;
    let mut marks = vec![in heap; 7; sizes.marks]?;
    let mut bytes = vec![in heap; FRESH; sizes.bytes]?;
    let written = report(
        good.as_bytes(),
        faulty.as_bytes(),
        &mut good_cells,
        &mut good_names,
        &mut faulty_cells,
        &mut faulty_names,
        &mut visits,
        &mut marks,
        &mut bytes,
    );
    // A refusal prints `refused 14`; this program's lines, here and for names, say `refused by 14`, and outputs are stored.
    match written {
        Ok(length) => io::writer(rt).write_all(&bytes[..length])?,
        Err(refusal) => {
            let same = bytes.iter().all(|&byte| byte == FRESH);
            println!(rt; "refused by {}, slice as it was: {same}", refusal.number())?;
        }
    }
    Ok(())
}

// Runs one case.
fn run(rt: &(impl Print + AllocGlobal), case: &str) -> anyhow::Result<()> {
    let mut parts = case.split('|');
    let (Some(header), Some(good), Some(faulty)) = (parts.next(), parts.next(), parts.next()) else {
        return Ok(());
    };
    let mut words = header.split(' ');
    let sizes = Sizes {
        cells: number(words.next(), MOST.cells),
        names: number(words.next(), MOST.names),
        visits: number(words.next(), MOST.visits),
        marks: number(words.next(), MOST.marks),
        bytes: number(words.next(), MOST.bytes),
    };
    println!(rt; "~{header}")?;
    show(rt, sizes, good, if faulty == "=" { good } else { faulty })
}

fn part(place: u16, length: u16) -> Part {
    Part { place, length }
}

// Prints the name of a state on a side.
fn show_name(rt: &impl Print, side: Side, state: u16) -> anyhow::Result<()> {
    let good = b"off run";
    let faulty = b"idle";
    let good_names = [part(0, 3), part(4, 3)];
    let faulty_names = [part(0, 4), part(1, 4)];
    match name(good, &good_names, faulty, &faulty_names, side, state) {
        Ok(bytes) => {
            io::writer(rt).write_all(bytes)?;
            println!(rt; "")?;
        }
        Err(refusal) => println!(rt; "refused by {}", refusal.number())?,
    }
    Ok(())
}

fn main(rt: HostRuntime) -> anyhow::Result<()> {
    let mut input = String::new(rt.alloc());
    rt.stdin().read_to_string(&mut input)?;
    for case in input.as_str().split('~') {
        run(&rt, case)?;
    }
    println!(rt; "names")?;
    show_name(&rt, Side::Good, 1)?;
    show_name(&rt, Side::Faulty, 0)?;
    show_name(&rt, Side::Faulty, 1)?;
    show_name(&rt, Side::Good, 2)
}
