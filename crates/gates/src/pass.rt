ghost use Rattle.std.specs.Prelude.{◌≡◌, ℕ, ◌+◌, ◌-◌, ◌<◌, ◌≤◌, true, length, take, drop};
ghost use Rattle.gates.specs.Rules.{gates_ordered};
ghost use Rattle.gates.specs.Passes.{passed, passed_held};

use crate::gate::Gate;
use crate::nets::Nets;
use crate::stuck_at::StuckAt;

// Gates in order, the first of which has the net with the number first.
#[derive(Clone, Copy)]
pub(crate) struct Pass<'a> {
    pub(crate) first: usize,
    pub(crate) gates: &'a [Gate],
    ghost few: { first + length gates.now ≤ 512 },
    ghost ordered: { gates_ordered first gates.now ≡ true },
}

impl<'a> Pass<'a> {
    // The first gates and the others.
    fn split_at(&self, count: usize) -> (Pass<'a>, Pass<'a>)
        requires { count ≤ length self.now.gates.now }
        ensures front_first { result.0.first ≡ self.now.first }
        ensures front_gates { result.0.gates.now ≡ take count self.now.gates.now }
        ensures back_first { result.1.first ≡ self.now.first + count }
        ensures back_gates { result.1.gates.now ≡ drop count self.now.gates.now }
    {
        let (front, back) = self.gates.split_at(count);
        (
            Pass {
                first: self.first,
                gates: front,
            },
            Pass {
                first: self.first + count,
                gates: back,
            },
        )
    }

    // Evaluates the gates one after another.
    pub(crate) fn evaluate(&self, nets: &mut Nets)
        ensures { nets.new.values ≡ passed nets.old.values self.now.first self.now.gates.now }
    {
        // Numbered by `enumerate`: with `(self.first..).zip(..)` a step took an eighth more instructions.
        for (place, gate) in self.gates.iter().enumerate() {
            let value = nets.gate_value(gate);
            nets.set(self.first + place, value);
        }
    }

    // Evaluates the gates while a net is held at a value: those up to that net, and then those after it.
    pub(crate) fn evaluate_held(&self, nets: &mut Nets, stuck: StuckAt)
        requires { stuck.net < self.now.first + length self.now.gates.now }
        ensures { nets.new.values ≡ passed_held nets.old.values self.now.first self.now.gates.now stuck.net stuck.value }
    {
        let (front, back) = self.split_at((stuck.net + 1).saturating_sub(self.first));
        front.evaluate(nets);
        nets.set(stuck.net, stuck.value);
        back.evaluate(nets);
    }
}
