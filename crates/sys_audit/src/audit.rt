ghost use Rattle.std.specs.Prelude.{◌≡◌, ◌+◌, ◌≤◌, ◌∷◌, [], ◌++◌, length};
ghost use Rattle.sys_audit.specs.Audit.{audit_record};

use sys_objects::Terminal;
use sys_server::{Verdict, reply};
use vv_base::{Text, decimal};
use vv_class::write_class;

/// Appends a word that fits, with a blank.
fn add_word(text: &mut Text<1536>, word: &[u8])
    requires { length text.old + length word.now + 1 ≤ 1536 }
    ensures written { text.new ≡ text.old ++ word.now ++ 32 ∷ [] }
    ensures len { length text.new ≡ length text.old + length word.now + 1 }
{
    text.append(word);
    text.append(b" ");
}

/// What is audited of a command of at most 1,000 bytes at a terminal in a round.
#[tactic(auto, unfolding(crate::specs::Audit::audit_record))]
pub fn audit_text(round: u32, t: &Terminal, text: &[u8], v: &Verdict) -> Text<1536>
    requires { length text.now ≤ 1000 }
    ensures { result ≡ audit_record round t.now text.now v.now }
{
    let mut audit = Text::new();
    add_word(&mut audit, decimal(u64::from(round)).bytes());
    add_word(&mut audit, t.name.bytes());
    add_word(&mut audit, write_class(&t.class).bytes());
    add_word(&mut audit, reply(v).as_bytes());
    audit.append(text);
    audit.append(b"\r\n");
    audit
}
