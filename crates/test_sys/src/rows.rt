use std::test::Fail;
use sys_config::Rows;
use sys_script::LineText;
use sys_server::asked_in;

#[test]
fn rows_give_their_vector_back(rt: HostRuntime) -> Result<(), Fail> {
    let rows = Rows::new(Vec::from_slice(rt.alloc(), &[7u8])?);
    assert!(rt; rows.len() == 1);
    assert!(rt; rows.into_vec().as_slice() == [7].as_slice());
    Ok(())
}

#[test]
fn a_line_has_its_text(rt: HostRuntime) -> Result<(), Fail> {
    for text in [b" HALT X~".as_slice(), b""] {
        let line = LineText::new(rt.alloc(), text)?;
        assert!(rt; line.bytes() == text);
    }
    Ok(())
}

/// Lines that no terminal types.
#[test]
fn tabs_and_returns_are_in_no_command(rt: HostRuntime) {
    assert!(rt; asked_in(b"\tSHOW").is_none());
    assert!(rt; asked_in(b"HALT A\r").is_none());
}
