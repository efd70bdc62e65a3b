use std::test::Fail;
use text_lines::Text;

#[test]
fn a_text_holds_its_bytes(rt: HostRuntime) -> Result<(), Fail> {
    let text = Text::new(b"0.05".to_vec(rt.alloc())?);
    assert_eq!(rt; text.as_slice(), b"0.05".as_slice());
    assert_eq!(rt; text.into_vec().as_slice(), b"0.05".as_slice());
    Ok(())
}
