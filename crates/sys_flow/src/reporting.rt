ghost use Rattle.std.specs.Prelude.{◌≡◌, ◌<◌, ◌++◌, IfOk, OnOk, length};
ghost use Rattle.sys_flow.specs.Reach.{all_objects};
ghost use Rattle.sys_flow.specs.Relation.{reads};
ghost use Rattle.sys_flow.specs.Report.{IsReport, flow_line, flows_of};
ghost use Rattle.sys_objects.specs.Condition.{IsConfig};

use crate::closing::reach;
use crate::objects::{count, name};
use crate::relation::Reach;
use std::alloc::Global;
use sys_objects::Config;
use vv_base::NoMemory;

#[tactic(auto, unfolding(crate::specs::Report::flow_line))]
fn put_line(text: &mut Vec<u8>, from: &[u8], to: &[u8]) -> Result<(), NoMemory>
    ensures { OnOk result (text.new.items ≡ text.old.items ++ flow_line from.now to.now) }
{
    text.extend_from_slice(b"FLOW ")?;
    text.extend_from_slice(from)?;
    text.extend_from_slice(b" ")?;
    text.extend_from_slice(to)?;
    text.extend_from_slice(b"\n")?;
    Ok(())
}

/// The lines of an object.
fn put_flows(text: &mut Vec<u8>, c: &Config, reached: &Reach, a: u8) -> Result<(), NoMemory>
    requires config { IsConfig c.now }
    requires objects { length reached.now ≡ length (all_objects c.now) }
    requires within { a < length reached.now }
    ensures { OnOk result (text.new.items ≡ text.old.items ++ flows_of c.now (reads reached.now) a (length (all_objects c.now))) }
{
    for b in 0..count(c) {
        if b != a && reached.has(a, b) {
            put_line(text, name(c, a), name(c, b))?;
        }
    }
    Ok(())
}

/// The report of what is reached: `FLOW A B` and a line feed for each object A and each object B other than A that is reached
/// from A, in their order; the audit is shown as `*`. It fails only where memory runs out.
pub fn report(alloc: Global, c: &Config) -> Result<Vec<u8>, NoMemory>
    requires { IsConfig c.now }
    ensures { IfOk result (λ text. IsReport c.now text.items) }
{
    let reached = reach(c);
    let mut text = Vec::new(alloc);
    for a in 0..count(c) {
        put_flows(&mut text, c, &reached, a)?;
    }
    Ok(text)
}
