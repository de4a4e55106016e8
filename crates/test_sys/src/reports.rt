//! What the report of a configuration is made of.
use std::test::Fail;
use sys_config::read_config;
use sys_flow::{count, edge, name, reach};

/// A terminal and a guest of one class, a volume above them and one below, and an audit above all.
const TEXT: &str = concat!(
    "version = 2\nslice = 3\n[audit]\nline = 31\nclass = \"15{};0{}\"\n",
    "[[terminal]]\nname = \"T1\"\nline = 0\nclass = \"1{};0{}\"\n",
    "[[volume]]\nname = \"SEC\"\ndrive = 0\nblocks = 8\nclass = \"2{};0{}\"\n",
    "[[volume]]\nname = \"PUB\"\ndrive = 1\nblocks = 8\nclass = \"0{};0{}\"\n",
    "[[guest]]\nname = \"A\"\nclass = \"1{};0{}\"\npages = 64\nimage = \"a\"\nload = 512\nstart = 512\n",
    "autostart = false\nquantum = 10\n",
);

#[test]
fn numbers_edges_and_what_is_reached(rt: HostRuntime) -> Result<(), Fail> {
    let alloc = rt.alloc();
    let config = read_config(alloc, TEXT.as_bytes())?;
    assert!(rt; count(&config) == 5);
    for (number, wanted) in [
        (0, "T1"),
        (1, "SEC"),
        (2, "PUB"),
        (3, "A"),
        (4, "*"),
        (5, ""),
    ] {
        assert!(rt; name(&config, number) == wanted.as_bytes(), "{wanted}");
    }
    assert!(rt; edge(&config, 2, 3) && !edge(&config, 2, 0) && !edge(&config, 1, 3));
    assert!(rt; edge(&config, 0, 4) && !edge(&config, 3, 4) && !edge(&config, 4, 5));
    let reached = reach(&config);
    assert!(rt; reached.has(2, 0) && reached.has(3, 3) && reached.has(3, 4));
    assert!(rt; !reached.has(1, 3) && !reached.has(4, 4));
    Ok(())
}
