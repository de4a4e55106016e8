ghost use Rattle.std.specs.Prelude.{◌≡◌, ◌≤◌, map, string_bytes, true, IfSome};
ghost use Rattle.std.specs.Option.{option_map};
ghost use Rattle.vv_base.specs.Names.{is_file_name};
ghost use Rattle.vvmm_files.specs.Words.{IsRequestInRange, file_wanted, number_from_one, resume_asked, run_asked, audit_asked, live_asked, steps_asked, three_wanted, two_wanted, wanted, wanted_by, word_wanted};

use vv_base::{FileName, file_name, read_decimal};

/// What `solo IMAGE STEPS` asks for, and `trace` likewise.
#[derive(Drop)]
pub struct Order {
    pub image: FileName,
    pub steps: u32,
}

/// What `run CONFIG SCRIPT ROUNDS` asks for, and `save` likewise.
#[derive(Drop)]
pub struct RunOrder {
    pub config: FileName,
    pub script: FileName,
    pub rounds: u32,
}

/// What `resume SNAP SCRIPT ROUNDS` asks for, and `extend` likewise.
#[derive(Drop)]
pub struct ResumeOrder {
    pub snap: FileName,
    pub script: FileName,
    pub rounds: u32,
}

/// What `live CONFIG ROUNDS` asks for.
#[derive(Drop)]
pub struct LiveOrder {
    pub config: FileName,
    pub rounds: u32,
}

/// What `audit CONFIG RECORD` asks for.
#[derive(Drop)]
pub struct AuditOrder {
    pub config: FileName,
    pub recorded: FileName,
}

/// What the words ask for.
#[derive(Drop)]
pub enum Request {
    /// One guest's run.
    Solo(Order),
    /// One guest's run, with a line for each step.
    Trace(Order),
    /// A configuration's run.
    Run(RunOrder),
    /// A configuration's run, whose last moment is shown as a snapshot.
    Save(RunOrder),
    /// The run that goes on from a snapshot.
    Resume(ResumeOrder),
    /// The run that goes on from a snapshot, whose last moment is shown as one.
    Extend(ResumeOrder),
    /// A configuration's run, whose events are typed while it goes on.
    Live(LiveOrder),
    /// The run of the workload drawn from a number.
    Load(u32),
    /// A configuration, counted.
    Check(FileName),
    /// A configuration, written anew.
    Migrate(FileName),
    /// What an audit line was shown, checked against a configuration.
    Audit(AuditOrder),
    /// Which object's inputs may reach which object.
    Flow(FileName),
    /// A picture of a configuration.
    Draw(FileName),
    /// A source, assembled.
    Asm(FileName),
    /// A source's listing.
    List(FileName),
    /// An image, disassembled.
    Dis(FileName),
}

/// A number from 1 to the most.
fn number_in(text: &[u8], most: u32) -> Option<u32>
    ensures is { option_map (λ n. n) result ≡ number_from_one text.now most }
    ensures range { IfSome result (λ n. (1 ≤ n) × (n ≤ most)) }
{
    match read_decimal(text, u64::from(most)) {
        Some(n) if 1 <= n => Some(n as u32),
        _ => None,
    }
}

/// What a command of this name asks for that is given an image and a number of steps, if the words are of the form.
fn steps_order(name: &[u8], command: &[u8], image: &[u8], steps: &[u8]) -> Option<Order>
    ensures range { IfSome result (λ o. (is_file_name o.image ≡ true) × (1 ≤ o.steps) × (o.steps ≤ 100000)) }
    ensures asked { option_map (λ o. record { image = o.image; steps = o.steps }) result ≡ steps_asked name.now command.now image.now steps.now }
{
    if command != name {
        return None;
    }
    let image = file_name(image)?;
    let steps = number_in(steps, 100_000)?;
    Some(Order { image, steps })
}

/// What `audit CONFIG RECORD` asks for, if the words are of the form.
fn audit_order(command: &[u8], config: &[u8], recorded: &[u8]) -> Option<AuditOrder>
    ensures { option_map (λ o. record { config = o.config; recorded = o.recorded }) result ≡ audit_asked command.now config.now recorded.now }
{
    if command != b"audit".as_slice() {
        return None;
    }
    let config = file_name(config)?;
    let recorded = file_name(recorded)?;
    Some(AuditOrder { config, recorded })
}

/// What `live` is given, if the words are of the form.
fn live_order(config: &[u8], rounds: &[u8]) -> Option<LiveOrder>
    ensures range { IfSome result (λ o. (1 ≤ o.rounds) × (o.rounds ≤ 1000000)) }
    ensures asked { option_map (λ o. record { config = o.config; rounds = o.rounds }) result ≡ live_asked config.now rounds.now }
{
    let config = file_name(config)?;
    let rounds = number_in(rounds, 1_000_000)?;
    Some(LiveOrder { config, rounds })
}

/// What a command with two words after it asks for, if the words are of a form.
#[tactic(auto, unfolding(crate::specs::Words::two_wanted))]
fn two_request(command: &[u8], first: &[u8], second: &[u8]) -> Option<Request>
    ensures range { IfSome result (λ r. IsRequestInRange r) }
    ensures wanted { option_map (λ r. wanted_by r) result ≡ two_wanted command.now first.now second.now }
{
    if command == b"audit".as_slice() {
        let order = audit_order(command, first, second)?;
        return Some(Request::Audit(order));
    }
    if command == b"live".as_slice() {
        return Some(Request::Live(live_order(first, second)?));
    }
    if command == b"trace".as_slice() {
        let order = steps_order(b"trace", command, first, second)?;
        return Some(Request::Trace(order));
    }
    let order = steps_order(b"solo", command, first, second)?;
    Some(Request::Solo(order))
}

/// What `run` and `save` are given, if the words are of the form.
fn run_order(config: &[u8], script: &[u8], rounds: &[u8]) -> Option<RunOrder>
    ensures range { IfSome result (λ o. (1 ≤ o.rounds) × (o.rounds ≤ 1000000)) }
    ensures asked { option_map (λ o. record { config = o.config; script = o.script; rounds = o.rounds }) result ≡ run_asked config.now script.now rounds.now }
{
    let config = file_name(config)?;
    let script = file_name(script)?;
    let rounds = number_in(rounds, 1_000_000)?;
    Some(RunOrder {
        config,
        script,
        rounds,
    })
}

/// What `resume` and `extend` are given, if the words are of the form.
fn resume_order(snap: &[u8], script: &[u8], rounds: &[u8]) -> Option<ResumeOrder>
    ensures range { IfSome result (λ o. (1 ≤ o.rounds) × (o.rounds ≤ 1000000)) }
    ensures asked { option_map (λ o. record { snap = o.snap; script = o.script; rounds = o.rounds }) result ≡ resume_asked snap.now script.now rounds.now }
{
    let snap = file_name(snap)?;
    let script = file_name(script)?;
    let rounds = number_in(rounds, 1_000_000)?;
    Some(ResumeOrder {
        snap,
        script,
        rounds,
    })
}

/// What a command with three words after it asks for, if the words are of a form.
#[tactic(auto, unfolding(crate::specs::Words::three_wanted))]
fn three_request(command: &[u8], first: &[u8], script: &[u8], rounds: &[u8]) -> Option<Request>
    ensures range { IfSome result (λ r. IsRequestInRange r) }
    ensures wanted { option_map (λ r. wanted_by r) result ≡ three_wanted command.now first.now script.now rounds.now }
{
    if command == b"run".as_slice() {
        Some(Request::Run(run_order(first, script, rounds)?))
    } else if command == b"save".as_slice() {
        Some(Request::Save(run_order(first, script, rounds)?))
    } else if command == b"resume".as_slice() {
        Some(Request::Resume(resume_order(first, script, rounds)?))
    } else if command == b"extend".as_slice() {
        Some(Request::Extend(resume_order(first, script, rounds)?))
    } else {
        None
    }
}

/// What a command with one file asks for, if the words are of a form.
fn file_request(command: &[u8], file: &[u8]) -> Option<Request>
    ensures range { IfSome result (λ r. IsRequestInRange r) }
    ensures wanted { option_map (λ r. wanted_by r) result ≡ file_wanted command.now file.now }
{
    let name = file_name(file)?;
    if command == b"check".as_slice() {
        Some(Request::Check(name))
    } else if command == b"migrate".as_slice() {
        Some(Request::Migrate(name))
    } else if command == b"flow".as_slice() {
        Some(Request::Flow(name))
    } else if command == b"draw".as_slice() {
        Some(Request::Draw(name))
    } else if command == b"asm".as_slice() {
        Some(Request::Asm(name))
    } else if command == b"list".as_slice() {
        Some(Request::List(name))
    } else if command == b"dis".as_slice() {
        Some(Request::Dis(name))
    } else {
        None
    }
}

/// What a command with one word after it asks for, if the words are of a form.
fn word_request(command: &[u8], word: &[u8]) -> Option<Request>
    ensures range { IfSome result (λ r. IsRequestInRange r) }
    ensures wanted { option_map (λ r. wanted_by r) result ≡ word_wanted command.now word.now }
{
    if command == b"load".as_slice() {
        let number = read_decimal(word, 4_294_967_295)?;
        return Some(Request::Load(number as u32));
    }
    file_request(command, word)
}

/// What the words ask for, if they are of a form.
pub fn parse(words: &[String]) -> Option<Request>
    ensures range { IfSome result (λ r. IsRequestInRange r) }
    ensures wanted { option_map (λ r. wanted_by r) result ≡ wanted (map (λ w. string_bytes w) words.now) }
{
    match words {
        [command, word] => word_request(command.as_bytes(), word.as_bytes()),
        [command, first, second] => {
            two_request(command.as_bytes(), first.as_bytes(), second.as_bytes())
        }
        [command, first, script, rounds] => three_request(
            command.as_bytes(),
            first.as_bytes(),
            script.as_bytes(),
            rounds.as_bytes(),
        ),
        _ => None,
    }
}
