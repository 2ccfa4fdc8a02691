ghost use Rattle.std.specs.Prelude.{◌≡◌};
ghost use Rattle.kiss2.specs.Sides.{TellsName, side_of};

use crate::part::Part;
use crate::side::Side;
use machine::Refusal;

// What stands on the side that is meant.
fn side_of<'n, 'g: 'n, 'f: 'n, T>(good: &'g [T], faulty: &'f [T], side: Side) -> &'n [T]
    ensures { result.now ≡ side_of side good.now faulty.now }
{
    match side {
        Side::Good => good,
        Side::Faulty => faulty,
    }
}

// The name of a state, as a part of the good or the faulty text, by the name entries of its side. Texts and entries come one by one, as the project's rules have the call.
pub fn name<'n, 'g: 'n, 'f: 'n>(
    good: &'g [u8],
    good_names: &[Part],
    faulty: &'f [u8],
    faulty_names: &[Part],
    side: Side,
    state: u16,
) -> Result<&'n [u8], Refusal>
    ensures { TellsName (side_of side good.now faulty.now) (side_of side good_names.now faulty_names.now) state result }
{
    let text = side_of(good, faulty, side);
    let names = side_of(good_names, faulty_names, side);
    let part = names
        .get(usize::from(state))
        .filter(|part| part.lies_in(text))
        .ok_or(Refusal::OutOfRange)?;
    Ok(part.bytes_in(text))
}
