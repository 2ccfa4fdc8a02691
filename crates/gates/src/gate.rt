ghost use Rattle.std.specs.Prelude.{◌≡◌};
ghost use Rattle.gates.specs.Kinds.{gate_value, truth_table};

// What a gate makes of the two values that it reads.
#[derive(Clone, Copy, PartialEq, Eq, PartialOrd, Ord, Hash, Debug)]
pub enum Kind {
    And,
    Or,
    Nand,
    Nor,
    Xor,
    Xnor,
    Not,
    Buff,
}

// A gate and the nets that it reads: two, or for Not and Buff one and the same.
#[derive(Clone, Copy, PartialEq, Eq, PartialOrd, Ord, Hash, Debug)]
pub struct Gate {
    pub kind: Kind,
    pub left: u16,
    pub right: u16,
}

impl Kind {
    ghost use Rattle.gates.specs.Rules.{two_inputs};

    // The truth table: bit 2 * x + y is the value at x and y. A `match` and no discriminants: these have to differ, so a table mistaken for another kind's could not be written, and not be refused.
    fn table(self) -> u8
        ensures { result ≡ truth_table self }
    {
        match self {
            Kind::And => 0b1000,
            Kind::Or => 0b1110,
            Kind::Nand => 0b0111,
            Kind::Nor => 0b0001,
            Kind::Xor => 0b0110,
            Kind::Xnor => 0b1001,
            Kind::Not => 0b0011,
            Kind::Buff => 0b1100,
        }
    }

    // What a gate makes of the values that it reads.
    pub(crate) fn value(self, x: bool, y: bool) -> bool
        ensures { result ≡ gate_value self x y }
    {
        self.table() >> (2 * u8::from(x) + u8::from(y)) & 1 == 1
    }

    // Whether a gate of this kind may read two nets.
    fn has_two_inputs(self) -> bool
        ensures { result ≡ two_inputs self }
    {
        !matches!(self, Kind::Not | Kind::Buff)
    }
}

impl Gate {
    ghost use Rattle.gates.specs.Rules.{gate_ordered};

    // Whether the gate of this net reads nets of lower numbers, and one alone if its kind asks for that.
    pub(crate) fn is_ordered(&self, net: usize) -> bool
        ensures { result ≡ gate_ordered net self.now }
    {
        usize::from(self.left) < net
            && usize::from(self.right) < net
            && (self.kind.has_two_inputs() || self.left == self.right)
    }
}
