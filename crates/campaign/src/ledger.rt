ghost use Rattle.std.specs.Prelude.{◌≡◌, ◌+◌, ◌<◌, ◌≤◌, ◌↔◌, All, IsTrue, length, sum_by};
ghost use Rattle.campaign.specs.declared.ledger.TheConstants.{LETTERS, MEMBERS, SEQUENCES};

use super::mark::Mark;
use arrayvec::ArrayVec;
use machine::MOST_FAULTS;

// As many sequences as a ledger keeps, as many letters as they have together, and as many members as a device can have.
pub const SEQUENCES: usize = 256;

pub const LETTERS: usize = 16384;

pub(crate) const MEMBERS: usize = MOST_FAULTS + 1;

// Where a kept sequence lies among the letters, and the fault that it was found for, if a client did not bring it.
#[derive(Clone, Copy, PartialEq, Eq, Debug)]
pub(crate) struct Kept {
    pub(crate) start: usize,
    pub(crate) length: usize,
    pub(crate) origin: Option<u16>,
    ghost within: { start + length ≤ LETTERS },
}

// By hand: beside a ghost field `Default` cannot be derived.
impl Default for Kept {
    fn default() -> Kept {
        Kept {
            start: 0,
            length: 0,
            origin: None,
        }
    }
}

// The marks by fault, a table of fixed size as libraries use no heap, and the kept sequences, one behind the other in `letters`.
// `letters` is an array beside `used`, since a search writes its sequence in place behind the used ones before it is kept.
// `all_marks`, `all_letters` and `numbered` repeat what the fields' types hold, for lemmas over a ledger, such as `within_limits`, which see no types.
#[derive(Drop)]
pub(crate) struct Ledger {
    pub(crate) marks: [Mark; MEMBERS],
    pub(crate) kept: ArrayVec<Kept, SEQUENCES>,
    pub(crate) letters: [u8; LETTERS],
    pub(crate) used: usize,
    ghost all_marks: { length marks ≡ MEMBERS },
    ghost all_letters: { length letters ≡ LETTERS },
    ghost numbered: { length kept.items ≤ SEQUENCES },
    ghost few: { used ≤ LETTERS },
    ghost inside: { All (λ k. k.start + k.length ≤ used) kept.items },
    ghost summed: { sum_by (λ k. k.length) kept.items ≡ used },
}

// Changes one mark, which is lent: a form that the project's rules name.
fn settle(mark: &mut Mark, to: Mark)
    ensures { mark.new ≡ to }
{
    *mark = to;
}

impl Ledger {
    ghost use Rattle.campaign.specs.Books.{book, letters_in, part};
    ghost use Rattle.campaign.specs.Ledgers.{Appended, NextPlace, Remarked};
    ghost use Rattle.campaign.specs.Rules.{Fresh, HasLetters, HasNumber, SetsMark, next_number};

    // Every fault open, nothing kept.
    pub(crate) fn new() -> Ledger
        ensures { Fresh (book result) }
    {
        Ledger {
            marks: [Mark::Open; MEMBERS],
            kept: ArrayVec::new(),
            letters: [0; LETTERS],
            used: 0,
        }
    }

    pub(crate) fn set_mark(&mut self, fault: u16, to: Mark)
        requires { fault < MEMBERS }
        ensures ledger { Remarked self.old fault to self.new }
        ensures book { SetsMark (book self.old) fault to (book self.new) }
    {
        settle(&mut self.marks[usize::from(fault)], to);
    }

    // Whether all numbers are given.
    pub(crate) fn is_full(&self) -> bool
        ensures { IsTrue result ↔ (SEQUENCES ≤ length (book self.now).kept) }
    {
        self.kept.is_full()
    }

    // Where the letters of the next sequence go: behind the used ones, unless all numbers are given.
    pub(crate) fn next_place(&self) -> Option<usize>
        ensures { NextPlace self.now result }
    {
        if self.is_full() {
            None
        } else {
            Some(self.used)
        }
    }

    // Whether as many letters are left.
    pub(crate) fn has_letters(&self, length: usize) -> bool
        ensures { IsTrue result ↔ (letters_in (book self.now).kept + length ≤ LETTERS) }
    {
        length <= LETTERS - self.used
    }

    // Writes a sequence behind the used letters.
    pub(crate) fn write(&mut self, sequence: &[u8])
        requires { HasLetters (book self.old).kept sequence.now }
        ensures room { self.new.used + length sequence.now ≤ LETTERS }
        ensures behind { part self.new.used (length sequence.now) self.new.letters ≡ sequence.now }
        ensures same { book self.new ≡ book self.old }
    {
        let start = self.used;
        let end = start + sequence.len();
        self.letters[start..end].copy_from_slice(sequence);
    }

    // Makes the next letters a kept sequence: its number. No type carries that a number is left, as at `keep`.
    pub(crate) fn append(&mut self, next: Kept) -> u16
        requires number { HasNumber (book self.old).kept }
        requires next { next.start ≡ self.old.used }
        ensures number { result ≡ next_number (book self.old).kept }
        ensures appended { Appended self.old next self.new }
    {
        self.kept.push(next);
        self.used += next.length;
        self.kept.len() as u16
    }

    // The letters of a kept sequence.
    pub(crate) fn sequence(&self, kept: Kept) -> &[u8]
        ensures { result.now ≡ part kept.start kept.length self.now.letters }
    {
        &self.letters[kept.start..kept.start + kept.length]
    }
}
