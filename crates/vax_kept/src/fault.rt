ghost use Rattle.std.specs.Prelude.{◌≡◌};
ghost use Rattle.vax_kept.specs.declared.fault.Fault.TheVariants as faults;

use vax_hw::Refusal;
use vax_operand::Trouble;

/// Why an instruction can't be done.
#[derive(Clone, Copy)]
pub enum Fault {
    Trouble(Trouble),
    Refused(Refusal),
}

/// A trouble as a fault.
pub fn fault_of(trouble: Trouble) -> Fault
    ensures { result ≡ faults.Trouble trouble }
{
    Fault::Trouble(trouble)
}
