ghost use Rattle.std.specs.Prelude.{◌≡◌};
ghost use Rattle.vax_table.specs.Computing.{status_cleared, status_set};
ghost use Rattle.vax_table.specs.Effects.{effect};
ghost use Rattle.vax_table.specs.Interaction.{Space, outcome};
ghost use Rattle.vax_operand.specs.Left.{left, operands_with_registers};

use vax_flow::begin;
use vax_operand::{Trouble, Values};
use vax_table::effect::Plan;

/// BISPSW. A mask with any of bits 15:8 is a reserved operand.
#[tactic(auto, unfolding(vax_table::specs::Computing::status_set))]
pub fn set_status(o: &Values, psw: u8, plan: &mut Plan) -> Result<(), Trouble>
    ensures { (s : Space) → left result (effect plan.new) ≡ outcome s (status_set (operands_with_registers o.now plan.old.r) psw) }
{
    match o.long(0) {
        mask @ 0..=0xFF => {
            begin(plan, psw | mask as u8);
            Ok(())
        }
        _ => Err(Trouble::ReservedOperand),
    }
}

/// BICPSW. A mask with any of bits 15:8 is a reserved operand.
#[tactic(auto, unfolding(vax_table::specs::Computing::status_cleared))]
pub fn clear_status(o: &Values, psw: u8, plan: &mut Plan) -> Result<(), Trouble>
    ensures { (s : Space) → left result (effect plan.new) ≡ outcome s (status_cleared (operands_with_registers o.now plan.old.r) psw) }
{
    match o.long(0) {
        mask @ 0..=0xFF => {
            begin(plan, psw & (0xFF - mask as u8));
            Ok(())
        }
        _ => Err(Trouble::ReservedOperand),
    }
}
