ghost use Rattle.std.specs.Prelude.{◌≡◌, ◌≤◌, ◌<◌, length, map, take};
ghost use Rattle.sys_audit_check.specs.Audited.{server_after_verdict};
ghost use Rattle.sys_server.specs.Apply.{MayApply};

use sys_objects::{Config, GuestRow, Mount};
use sys_server::{ServerState, Verdict, apply};

/// Where the replay of an audit is: the round of the last record, and what the server keeps. The latter's consoles and
/// which guests run decide no answer; they are as if none were.
#[derive(Clone, Copy)]
pub struct Replay {
    pub round: u32,
    pub server: ServerState,
}

/// By guest and unit what the configuration mounts; beyond the guests nothing is.
fn mounts_of(rows: &[GuestRow]) -> [[Option<Mount>; 4]; 16]
    requires { length rows.now ≤ 16 }
    ensures { take (length rows.now) result ≡ map (λ row. row.mounts) rows.now }
{
    let mut mounts = [[None; 4]; 16];
    for (place, row) in rows.iter().enumerate() {
        mounts[place] = row.mounts;
    }
    mounts
}

/// Before the first record.
pub fn opening(c: &Config) -> Replay
    requires { length c.now.guests ≤ 16 }
    ensures round { result.round ≡ 1 }
    ensures mounts { take (length c.now.guests) result.server.mounts ≡ map (λ row. row.mounts) c.now.guests }
{
    Replay {
        round: 1,
        server: ServerState {
            at: [None; 32],
            mounts: mounts_of(c.guests.as_slice()),
            running: [false; 16],
        },
    }
}

/// What the server keeps after a command at a terminal, 0 to 31.
pub fn after_verdict(server: &ServerState, terminal: u8, verdict: &Verdict) -> ServerState
    requires terminal { terminal < 32 }
    requires places { MayApply verdict.now }
    ensures { result ≡ server_after_verdict server.now terminal verdict.now }
{
    let mut server = *server;
    if let Verdict::Granted(command) = verdict {
        let _ = apply(&mut server, terminal, command);
    }
    server
}
