ghost use Rattle.std.specs.Prelude.{length, ◌≢◌};
ghost use Rattle.machine.specs.Machines.{reset_of};
ghost use Rattle.compare.specs.Reaches.{Reaches, StatesSearched};

use super::state_walk::StateWalk;
use machine::{Device, Refusal};
use search::{Found, SearchError, Visit, check_work, shortest};

// Searches for the least sequence that leads a member from reset to another state.
fn search_states<D: Device>(
    walk: &StateWalk<D>,
    visits: &mut [Visit<u16>],
    marks: &mut [u32],
    letters: &mut [u8],
) -> Result<Found, SearchError>
    requires { reset_of (D.meaning walk.now.device.now) walk.now.member ≢ walk.now.wanted }
    ensures { StatesSearched (D.meaning walk.now.device.now) walk.now.member walk.now.wanted (length visits.old) (length marks.old) letters.old result letters.new }
{
    shortest(walk, visits, marks, letters)
}

// Reaches a state of a member: the length of the least sequence that leads there from reset, which goes into `letters` and is empty for the reset state; or none, where no sequence does.
// The work slices `visits` and `marks`, two as at `shortest`, have an entry for each state; what they hold does not matter and is lost.
pub fn reach<D: Device>(
    device: &D,
    member: u16,
    wanted: u16,
    visits: &mut [Visit<u16>],
    marks: &mut [u32],
    letters: &mut [u8],
) -> Result<Option<usize>, Refusal>
    ensures { Reaches (D.meaning device.now) member wanted (length visits.old) (length marks.old) letters.old result letters.new }
{
    if member >= device.members() {
        return Err(Refusal::NoSuchMember);
    }
    let states = device.states();
    if wanted >= states {
        return Err(Refusal::OutOfRange);
    }
    check_work(usize::from(states), visits, marks)?;
    if device.reset(member) == wanted {
        return Ok(Some(0));
    }
    let walk = StateWalk {
        device,
        member,
        wanted,
    };
    match search_states(&walk, visits, marks, letters)? {
        Found::Goal { length } => Ok(Some(length)),
        Found::Exhausted { count: _ } => Ok(None),
    }
}
