use vax_arch::{Intent, Mode, Prot, may};

// The manual's table: kernel, executive, supervisor, user.
const RIGHTS: [&[u8; 4]; 16] = [
    b"----", b"----", b"w---", b"r---", b"wwww", b"ww--", b"wr--", b"rr--", b"www-", b"wwr-",
    b"wrr-", b"rrr-", b"wwwr", b"wwrr", b"wrrr", b"rrrr",
];

#[test]
fn codes_give_the_rights_of_the_table(rt: HostRuntime) {
    for code in 0..16u8 {
        for mode in 0..4u8 {
            let (p, m) = (Prot(code), Mode::from_number(u32::from(mode)));
            let right = RIGHTS[usize::from(code)][usize::from(mode)];
            assert!(rt; may(p, m, Intent::Read) == (right != b'-'), "{code} {mode}");
            assert!(rt;
                may(p, m, Intent::Write) == (right == b'w'),
                "{code} {mode}"
            );
        }
    }
}
