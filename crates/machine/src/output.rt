ghost use Rattle.std.specs.Prelude.{◌≡◌};
ghost use Rattle.machine.specs.Outputs.{differ};

// Whether two output words differ. A function beside the definition of its name, so that what a difference is stands in one place for all callers.
pub fn outputs_differ(x: u32, y: u32) -> bool
    ensures { result ≡ differ x y }
{
    x != y
}
