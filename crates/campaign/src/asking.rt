ghost use Rattle.std.specs.Prelude.{◌≡◌, ◌+◌, ◌≤◌, ◌↔◌, ◌++◌, IfErr, IfSome, IsOk, IsSome, OnErr, OnOk, drop, length, take};
ghost use Rattle.campaign.specs.Books.{Numbered, book, entry_of, numbered};
ghost use Rattle.campaign.specs.Rules.{ReadOut};

use super::ledger::{Kept, Ledger};
use machine::Refusal;

// Copies a sequence into the buffer from a place on, where it fits.
fn paste(buffer: &mut [u8], place: usize, sequence: &[u8]) -> Result<(), Refusal>
    ensures fits { IsOk result ↔ (place + length sequence.now ≤ length buffer.old) }
    ensures pasted { OnOk result (buffer.new ≡ take place buffer.old ++ (sequence.now ++ drop (place + length sequence.now) buffer.old)) }
    ensures refusal { IfErr result (λ r. r ≡ Refusal.AnswerTooShort) }
    ensures same { OnErr result (buffer.new ≡ buffer.old) }
{
    if place > buffer.len() || buffer.len() - place < sequence.len() {
        return Err(Refusal::AnswerTooShort);
    }
    buffer[place..place + sequence.len()].copy_from_slice(sequence);
    Ok(())
}

impl Ledger {
    // The kept sequence with a number, which count from 1.
    fn look_up(&self, n: u16) -> Option<Kept>
        ensures variant { IsSome result ↔ Numbered (book self.now).kept n }
        ensures entry { IfSome result (λ k. entry_of self.now.letters k ≡ numbered (book self.now).kept n) }
    {
        let index = usize::from(n).checked_sub(1)?;
        self.kept.get(index).copied()
    }

    // Writes kept sequence n into the buffer from a place on: its length and origin.
    pub(crate) fn read_out(
        &self,
        n: u16,
        buffer: &mut [u8],
        place: usize,
    ) -> Result<(usize, u16), Refusal>
        ensures { ReadOut (book self.now).kept n buffer.old place result buffer.new }
    {
        let kept = self.look_up(n).ok_or(Refusal::NoSuchSequence)?;
        paste(buffer, place, self.sequence(kept))?;
        // Clients read origin 0 for a sequence of their own.
        Ok((kept.length, kept.origin.unwrap_or(0)))
    }
}
