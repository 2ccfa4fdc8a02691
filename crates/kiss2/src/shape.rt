ghost use Rattle.std.specs.Prelude.{◌≡◌, ◌-◌, ◌*◌, ◌^◌, min};

// What a text says of its table, besides the cells: the widths in bits, how many rows and states there are, and the reset state.
#[derive(Clone, Copy, PartialEq, Eq, Hash, Debug, Default)]
pub struct Shape {
    pub inputs: u8,
    pub outputs: u8,
    pub rows: usize,
    pub states: u16,
    pub reset: u16,
}

impl Shape {
    // How many cells the table has: one for each state and letter. A number past `usize` is read as the largest.
    #[tactic(auto, using(crate::proofs::Products::cut_product))]
    pub fn cell_count(&self) -> usize
        ensures { result ≡ min (self.now.states * 2 ^ self.now.inputs) (2 ^ 64 - 1) }
    {
        let letters = 2usize.saturating_pow(u32::from(self.inputs));
        letters.saturating_mul(usize::from(self.states))
    }
}
