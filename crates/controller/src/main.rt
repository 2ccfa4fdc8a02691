// Sets the good machine of the worked controller beside itself and each of its faulty versions, confirms each verdict, and reaches every state.
#![tactic(auto)]

use compare::{Flaw, Verdict, check, compare, reach, replay};
use devices::Table;
use machine::{Device, Pair};
use search::Visit;
use std::io;
use worked::{NAMES, Spaced, controller};

const STATES: usize = 4;

const PAIRS: usize = STATES * STATES;

// The name of a state; each has one.
fn name(state: u16) -> &'static str {
    NAMES.get(usize::from(state)).copied().unwrap_or("?")
}

fn show_pairs(rt: &impl Print, pairs: &[Pair]) -> io::Result<()> {
    for pair in pairs {
        println!(rt; "  {} {}", name(pair.first), name(pair.second))?;
    }
    Ok(())
}

// The controller, and where what is found of it is printed. `edges` has one like it: their methods differ, and an inherent impl stands beside its type.
#[derive(Drop)]
struct Session<'a, R> {
    rt: &'a R,
    table: Table<'static>,
}

impl<R: Print> Session<'_, R> {
    // Replays a sequence on member 0 and another, and prints where the outputs first differ.
    fn show_replay(&self, member: u16, letters: &[u8]) -> io::Result<()> {
        print!(self.rt; "  replayed: ")?;
        match replay(&self.table, 0, member, letters) {
            Ok(Some(place)) => println!(self.rt; "outputs differ at place {place}"),
            Ok(None) => println!(self.rt; "no difference"),
            Err(refusal) => println!(self.rt; "{refusal}"),
        }
    }

    // Checks a list of pairs for member 0 and another, and prints what is wrong with it.
    fn show_check(&self, member: u16, pairs: &[Pair]) -> io::Result<()> {
        print!(self.rt; "  checked: ")?;
        match check(&self.table, 0, member, pairs) {
            Ok(None) => println!(self.rt; "closed"),
            Ok(Some(Flaw::NoResetPair)) => println!(self.rt; "no reset pair"),
            Ok(Some(Flaw::OutputsDiffer { place, letter })) => println!(self.rt;
                "outputs differ at place {place}, letter {letter}"
            ),
            Ok(Some(Flaw::SuccessorMissing { place, letter })) => println!(self.rt;
                "successor missing at place {place}, letter {letter}"
            ),
            Err(refusal) => println!(self.rt; "{refusal}"),
        }
    }

    // Compares member 0 with another, prints the verdict, and confirms it: a sequence by replaying it, a list of pairs by checking it.
    fn show_comparison(&self, member: u16) -> io::Result<()> {
        let mut visits = [Visit::default(); PAIRS];
        let mut marks = [0; PAIRS];
        let mut letters = [0; PAIRS];
        let mut pairs = [Pair::default(); PAIRS];
        print!(self.rt; "0 with {member}: ")?;
        match compare(
            &self.table,
            0,
            member,
            &mut visits,
            &mut marks,
            &mut letters,
            &mut pairs,
        ) {
            Ok(verdict @ Verdict::Differ { length }) => {
                println!(self.rt; "{verdict}:{}", Spaced(&letters[..length]))?;
                self.show_replay(member, &letters[..length])
            }
            Ok(verdict @ Verdict::Equivalent { count }) => {
                println!(self.rt; "{verdict}:")?;
                show_pairs(self.rt, &pairs[..count])?;
                self.show_check(member, &pairs[..count])
            }
            Err(refusal) => println!(self.rt; "{refusal}"),
        }
    }

    // Prints the least sequence that leads a member from reset to a state.
    fn show_reach(&self, member: u16, state: u16) -> io::Result<()> {
        let mut visits = [Visit::default(); STATES];
        let mut marks = [0; STATES];
        let mut letters = [0; STATES];
        print!(self.rt; "member {member} reaches {}: ", name(state))?;
        match reach(
            &self.table,
            member,
            state,
            &mut visits,
            &mut marks,
            &mut letters,
        ) {
            Ok(Some(length)) => println!(self.rt; "by {length}:{}", Spaced(&letters[..length])),
            Ok(None) => println!(self.rt; "unreachable"),
            Err(refusal) => println!(self.rt; "{refusal}"),
        }
    }
}

fn main(rt: HostRuntime) -> io::Result<()> {
    let session = Session {
        rt: &rt,
        table: controller(),
    };
    for member in 0..session.table.members() {
        session.show_comparison(member)?;
    }
    for state in 0..session.table.states() {
        session.show_reach(0, state)?;
    }
    Ok(())
}
