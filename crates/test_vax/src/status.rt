use vax_arch::{Mode, Psl, rei_allowed};

#[test]
fn fields_of_the_start_state(rt: HostRuntime) {
    let psl = Psl(0x041f_0000);
    assert!(rt; psl.current() == Mode::Kernel);
    assert!(rt; psl.ipl() == 31);
    assert!(rt; psl.on_interrupt_stack());
    let psl = Psl(0x0280_0000);
    assert!(rt; psl.current() == Mode::Supervisor);
    assert!(rt; psl.previous() == Mode::Supervisor);
}

#[test]
fn rei_is_refused_for_each_reason(rt: HostRuntime) {
    let user = Psl(0x03c0_0000);
    let kernel = Psl(0x0001_0000);
    let interrupt = Psl(0x041f_0000);
    let cases = [
        (user, user, true),
        (user, kernel, false),
        (user, Psl(0x0380_0000), false),
        (kernel, user, true),
        (kernel, Psl(0x03c1_0000), false),
        (kernel, Psl(0x0002_0000), false),
        (kernel, Psl(0x0401_0000), false),
        (interrupt, kernel, true),
        (interrupt, Psl(0x0400_0000), false),
        (interrupt, Psl(0x041f_8000), false),
    ];
    for (number, (old, new, allowed)) in cases.iter().enumerate() {
        assert!(rt; rei_allowed(*old, *new) == *allowed, "case {number}");
    }
}
