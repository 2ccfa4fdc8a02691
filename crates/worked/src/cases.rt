ghost use Rattle.std.specs.Prelude.{◌≡◌, length};
ghost use Rattle.worked.specs.Cases.{AllHold, cases};

// How many worked cases there are. All of them hold, of the very definitions that the calls' contracts use.
pub fn worked_cases() -> u8
    ensures count { result ≡ length cases }
    ensures hold { AllHold cases }
{
    13
}
