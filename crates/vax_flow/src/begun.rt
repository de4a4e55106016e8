ghost use Rattle.std.specs.Prelude.{◌≡◌, [], None};
ghost use Rattle.vax_table.specs.Effects.{effect};

use vax_table::effect::Plan;

/// Leaves no stores in a plan. Most instructions store once at most, and one store goes at less cost by itself.
fn clear(plan: &mut Plan)
    ensures { effect plan.new ≡ record (effect plan.old) { writes = [] } }
{
    match plan.writes.len() {
        0 => {}
        1 => {
            plan.writes.pop();
        }
        _ => plan.writes.clear(),
    }
}

/// Begins a plan after the operands, whose side effects its registers have: nothing else is done yet.
pub fn begin(plan: &mut Plan, psw: u8)
    ensures { effect plan.new ≡ (record { r = plan.old.r; psw = psw; writes = []; trap = None }) }
{
    plan.psw = psw;
    clear(plan);
    plan.trap = None;
}
