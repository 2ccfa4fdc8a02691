ghost use Rattle.gates.specs.TakingIn.{Made, TakenIn};

use crate::gate::Gate;
use crate::gates::Gates;
use crate::gates::device::state_count;
use crate::nets::MOST_NETS;
use crate::rules::{first_gate, gates_ordered, name_nets, net_count};
use machine::{MOST_OUTPUTS, Pins, Refusal};

// How many flip-flops a gate list may have.
const MOST_LOADS: usize = 8;

impl<'a> Gates<'a> {
    // The device of a gate list, where it keeps the rules.
    pub fn new(
        pins: u8,
        reset: u16,
        gates: &'a [Gate],
        loads: &'a [u16],
        outputs: &'a [u16],
    ) -> Result<Gates<'a>, Refusal>
        ensures { Made pins reset gates.now loads.now outputs.now result }
    {
        let pins = Pins::try_from(pins)?;
        if loads.len() > MOST_LOADS
            || outputs.is_empty()
            || outputs.len() > usize::from(MOST_OUTPUTS)
        {
            return Err(Refusal::OutsideDeviceRules);
        }
        let nets = net_count(pins, gates, loads);
        if nets > MOST_NETS
            || reset >= state_count(loads.len())
            || !gates_ordered(first_gate(pins, loads), gates)
            || !name_nets(nets, loads)
            || !name_nets(nets, outputs)
        {
            return Err(Refusal::OutsideDeviceRules);
        }
        Ok(Gates {
            gates,
            loads,
            outputs,
            pins,
            reset,
        })
    }

    // Replaces the device by a gate list, or refuses it and changes nothing.
    pub fn take_in(
        &mut self,
        pins: u8,
        reset: u16,
        gates: &'a [Gate],
        loads: &'a [u16],
        outputs: &'a [u16],
    ) -> Result<(), Refusal>
        ensures { TakenIn pins reset gates.now loads.now outputs.now self.old self.new result }
    {
        *self = Gates::new(pins, reset, gates, loads, outputs)?;
        Ok(())
    }
}
