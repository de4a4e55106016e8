ghost use Rattle.std.specs.Bool.{OnTrue};
ghost use Rattle.std.specs.Prelude.{◌≡◌, ◌*◌, All};
ghost use Rattle.test_vm_stage.specs.Allowed.{allows_rest, allows_tables};
ghost use Rattle.vm_state.specs.Allowed.{AreAllowed, IsPacket};
ghost use Rattle.vm_state.specs.State.{state_of, tables_of};

use vm_state::GuestState;

/// Whether the table registers have values that a guest's may have.
fn allows_tables(g: &GuestState) -> bool
    ensures { result ≡ allows_tables (tables_of g.now) }
{
    (g.p0br == 0 || g.p0br % 4 == 0 && g.p0br / 0x4000_0000 == 2)
        && (g.p0lr <= 8192
            && (g.p1br % 4 == 0
                && (2_088_960 <= g.p1lr
                    && g.p1lr <= 2_097_152
                    && (g.sbr % 4 == 0 && g.slr <= 8192))))
}

/// Whether the other registers have.
fn allows_rest(g: &GuestState) -> bool
    ensures { result ≡ allows_rest (state_of g.now) }
{
    g.pcbb % 4 == 0
        && (g.scbb % 512 == 0
            && (g.astlvl <= 4 && (g.sisr % 2 == 0 && !g.psl.has_must_be_zero_bit())))
}

/// Whether each packet is aligned and lies in memory.
fn allows_packets(g: &GuestState) -> bool
    ensures { OnTrue result (All (IsPacket (512 * g.now.pages)) g.now.queue.items) }
{
    let size = 512 * u64::from(g.pages);
    g.queue.iter().all(|packet| *packet % 4 == 0 && u64::from(*packet) + 24 <= size)
}

/// Whether each register has a value that a guest's may have.
#[tactic(auto, using(crate::proofs::Setting::all_allowed))]
pub fn is_allowed(g: &GuestState) -> bool
    ensures { OnTrue result (AreAllowed (512 * g.now.pages) (state_of g.now)) }
{
    let tables = allows_tables(g);
    let rest = allows_rest(g);
    let packets = allows_packets(g);
    let count = g.queue.len();
    tables && rest && packets && count <= 8
}
