ghost use Rattle.std.specs.Prelude.{◌≡◌, ◌-◌, ◌/◌, ◌%◌, ◌↔◌, IsNone, IfSome, ◌==◌};

// A net held at a value.
#[derive(Clone, Copy, PartialEq, Eq, Debug)]
pub(crate) struct StuckAt {
    pub(crate) net: usize,
    pub(crate) value: bool,
}

impl StuckAt {
    // The fault of a member; the good machine, member 0, has none.
    pub(crate) fn of(member: u16) -> Option<StuckAt>
        ensures good { IsNone result ↔ (member ≡ 0) }
        ensures net { IfSome result (λ stuck. stuck.net ≡ (member - 1) / 2) }
        ensures value { IfSome result (λ stuck. stuck.value ≡ (member % 2 == 0)) }
    {
        let fault = member.checked_sub(1)?;
        Some(StuckAt {
            net: usize::from(fault / 2),
            value: member % 2 == 0,
        })
    }
}
