ghost use Rattle.std.specs.Prelude.{◌≡◌, ◌+◌, ◌≤◌, ◌↔◌, IfErr, IsOk, length};
ghost use Rattle.std.specs.Option.{unwrap_or};
ghost use Rattle.campaign.specs.Books.{book, part};
ghost use Rattle.campaign.specs.Ledgers.{LeastKept, SearchedInto};
ghost use Rattle.campaign.specs.Rules.{Admitted, Fault, HasLetters, HasNumber, Judged, Keeps, next_number};

use super::ledger::{Kept, LETTERS, Ledger};
use super::mark::Mark;
use compare::{is_legal, search_pairs};
use machine::{Device, Pair, Refusal};
use search::{Found, SearchError, Visit};
use std::ops::Range;

// The numbers of the device's faults: member 0 is the good machine.
pub(crate) fn faults<D: Device>(device: &D) -> Range<u16>
    ensures start { result.start ≡ 1 }
    ensures end { result.end ≡ (D.meaning device.now).members }
{
    1..device.members()
}

// Refuses a number that is no fault's.
pub(crate) fn check_fault<D: Device>(device: &D, fault: u16) -> Result<(), Refusal>
    ensures fault { IsOk result ↔ Fault (D.meaning device.now) fault }
    ensures refusal { IfErr result (λ r. r ≡ Refusal.NoSuchMember) }
{
    if !faults(device).contains(&fault) {
        return Err(Refusal::NoSuchMember);
    }
    Ok(())
}

impl Ledger {
    // Keeps the next letters as a sequence, and grades every fault by it: its number.
    // That a number is left holds at a call and not of every ledger, so no type carries it.
    fn keep<D: Device>(&mut self, device: &D, size: usize, origin: Option<u16>) -> u16
        requires number { HasNumber (book self.old).kept }
        requires room { self.old.used + size ≤ LETTERS }
        ensures number { result ≡ next_number (book self.old).kept }
        ensures keeps { Keeps (D.meaning device.now) (book self.old) (part self.old.used size self.old.letters) (unwrap_or origin 0) (book self.new) }
    {
        let next = Kept {
            start: self.used,
            length: size,
            origin,
        };
        let number = self.append(next);
        self.grade(device, next, number);
        number
    }

    // Searches for the least sequence that distinguishes a fault, and writes it where the next kept sequence goes.
    fn search<D: Device>(
        &mut self,
        device: &D,
        fault: u16,
        visits: &mut [Visit<Pair>],
        marks: &mut [u32],
    ) -> Result<Found, SearchError>
        ensures { SearchedInto (D.meaning device.now) self.old fault (length visits.old) (length marks.old) result self.new }
    {
        // The free letters, none once all numbers are given. No method lends them, as a part of an array cannot be returned as `&mut` out of a struct with a ghost field.
        // A `match` in place, with `&mut []` for none, was tried too: the borrow checker does not cover a reference that is one of two borrows.
        let start = self.next_place().unwrap_or(LETTERS);
        search_pairs(device, 0, fault, visits, marks, &mut self.letters[start..])
    }

    // Keeps the least sequence that distinguishes a fault, if there is one and it fits: its number.
    fn keep_least<D: Device>(
        &mut self,
        device: &D,
        fault: u16,
        visits: &mut [Visit<Pair>],
        marks: &mut [u32],
    ) -> Result<Option<u16>, Refusal>
        ensures { LeastKept (D.meaning device.now) (book self.old) fault (length visits.old) (length marks.old) result (book self.new) }
    {
        match self.search(device, fault, visits, marks) {
            Ok(Found::Goal { length }) => Ok(Some(self.keep(device, length, Some(fault)))),
            Ok(Found::Exhausted { .. }) => Ok(None),
            Err(SearchError::AnswerTooShort) if self.is_full() => Err(Refusal::SequencesFull),
            Err(SearchError::AnswerTooShort) => Err(Refusal::LettersFull),
            Err(error) => Err(error.into()),
        }
    }

    // Judges an open fault: the number of the least sequence that distinguishes it, which is kept, or none where it is undetectable.
    pub(crate) fn judge<D: Device>(
        &mut self,
        device: &D,
        fault: u16,
        visits: &mut [Visit<Pair>],
        marks: &mut [u32],
    ) -> Result<Option<u16>, Refusal>
        ensures { Judged (D.meaning device.now) (book self.old) fault (length visits.old) (length marks.old) result (book self.new) }
    {
        check_fault(device, fault)?;
        let Mark::Open = self.marks[usize::from(fault)] else {
            return Err(Refusal::FaultNotOpen);
        };
        let number = self.keep_least(device, fault, visits, marks)?;
        if number.is_none() {
            self.set_mark(fault, Mark::Undetectable);
        }
        Ok(number)
    }

    // Keeps a sequence that fits, with origin 0: its number. No type carries that a number is left, as at `keep`.
    fn keep_client<D: Device>(&mut self, device: &D, sequence: &[u8]) -> u16
        requires number { HasNumber (book self.old).kept }
        requires room { HasLetters (book self.old).kept sequence.now }
        ensures number { result ≡ next_number (book self.old).kept }
        ensures keeps { Keeps (D.meaning device.now) (book self.old) sequence.now 0 (book self.new) }
    {
        self.write(sequence);
        self.keep(device, sequence.len(), None)
    }

    // Keeps a client's sequence, where it is legal and fits: its number.
    pub(crate) fn admit<D: Device>(&mut self, device: &D, sequence: &[u8]) -> Result<u16, Refusal>
        ensures { Admitted (D.meaning device.now) (book self.old) sequence.now result (book self.new) }
    {
        if !is_legal(device, sequence) {
            return Err(Refusal::BadSequence);
        }
        if self.is_full() {
            return Err(Refusal::SequencesFull);
        }
        if !self.has_letters(sequence.len()) {
            return Err(Refusal::LettersFull);
        }
        Ok(self.keep_client(device, sequence))
    }
}
