ghost use Rattle.std.specs.Prelude.{◌≡◌, ◌^◌, ◌<◌, ◌≤◌, [], ◌∷◌, length, decimal};
ghost use Rattle.kiss2.specs.Laws.{binary};
ghost use Rattle.report.specs.Outcomes.{count_line};

use itoa::Buffer;

// Text that is written piece behind piece into the first bytes of a lent slice, as far as it reaches. What does not fit is counted too.
// The count stands beside the slice, since this is the caller's, as libraries use no heap.
#[derive(Drop)]
pub(crate) struct Writer<'a> {
    pub(crate) out: &'a mut [u8],
    pub(crate) count: usize,
    ghost addressable: { length out.now < 2 ^ 63 },
    ghost in_a_word: { count < 2 ^ 64 },
}

impl<'a> Writer<'a> {
    ghost use Rattle.report.specs.Writing.{Adds};

    pub(crate) fn new(out: &'a mut [u8]) -> Writer<'a>
        ensures same_slice { result.out.ghost_name ≡ out.entry.ghost_name }
        ensures bytes { result.out.now ≡ out.old }
        ensures none { result.count ≡ 0 }
    {
        Writer { out, count: 0 }
    }

    pub(crate) fn push(&mut self, byte: u8)
        ensures { Adds (byte ∷ []) self.old self.new }
    {
        // By index: of a write behind `self.out.get_mut(..)` nothing is known afterwards.
        if self.count < self.out.len() {
            self.out[self.count] = byte;
        }
        // A count that stays at the largest is past the end of every slice.
        self.count = self.count.saturating_add(1);
    }

    pub(crate) fn push_all(&mut self, bytes: &[u8])
        ensures { Adds bytes.now self.old self.new }
    {
        // Past the end of the slice a text is counted at once.
        if self.count >= self.out.len() {
            self.count = self.count.saturating_add(bytes.len());
            return;
        }
        for byte in bytes {
            self.push(*byte);
        }
    }

    pub(crate) fn push_decimal(&mut self, number: usize)
        ensures { Adds (decimal number) self.old self.new }
    {
        let mut digits = Buffer::new();
        self.push_all(digits.format(number).as_bytes());
    }

    // Writes the lowest bits of a letter as binary digits, the highest first.
    pub(crate) fn push_binary(&mut self, width: u8, letter: u8)
        requires { width ≤ 8 }
        ensures { Adds (binary width letter) self.old self.new }
    {
        for bit in (0..width).rev() {
            self.push(b'0' + (letter >> bit) % 2);
        }
    }

    // Writes a line with a word and a number.
    pub(crate) fn push_count(&mut self, word: &[u8], count: usize)
        ensures { Adds (count_line word.now count) self.old self.new }
    {
        self.push_all(word);
        self.push_decimal(count);
        self.push(b'\n');
    }
}
