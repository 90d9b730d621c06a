// Characters that are codes, and characters that are not.
use crate::code::FaultCode;
use std::test::Fail;

fn refused(text: &[u8]) -> bool {
    FaultCode::parse(text).is_err_and(|why| why.number() == 7)
}

#[test]
fn takes_codes(rt: HostRuntime) -> Result<(), Fail> {
    let short = FaultCode::parse(b"U10001")?;
    let first = FaultCode::parse(b"U10001A")?;
    let second = FaultCode::parse(b"U10001B")?;
    assert!(rt; !short.is_long() && first.is_long());
    assert_eq!(rt; first, first);
    assert_ne!(rt; first, second);
    assert_ne!(rt; short, first);
    Ok(())
}

#[test]
fn refuses_others(rt: HostRuntime) {
    assert!(rt; refused(b"X12345"));
    assert!(rt; refused(b"U1234"));
    assert!(rt; refused(b"U1234567"));
    assert!(rt; refused(b"u10001"));
    assert!(rt; refused(b"U1000a"));
    assert!(rt; refused(b"U1000 "));
}
