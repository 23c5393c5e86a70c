// Codes and names of operations, and what is no name.
use std::test::Fail;
use tagged::operations::Operation;
use tagged::refusals::Refusal;

#[test]
fn seventeen_codes_have_an_operation(rt: HostRuntime) -> Result<(), Fail> {
    for code in 0..=255u8 {
        match Operation::try_from(code) {
            Ok(operation) => {
                assert!(rt; code <= 16);
                assert_eq!(rt; u8::from(operation), code);
                assert_eq!(rt;
                    Operation::try_from(operation.name().as_slice())?,
                    operation
                );
            }
            Err(refusal) => {
                assert!(rt; code > 16);
                assert_eq!(rt; refusal, Refusal::NoSuchOperation);
            }
        }
    }
    Ok(())
}

#[test]
fn other_texts_are_no_names(rt: HostRuntime) {
    let bad: [&[u8]; 14] = [
        b"", b"U", b"UN", b"UNR", b"UNRdd", b"unrd", b"UNrd", b"uNRd", b"UNCl", b"WACl", b"XNRd",
        b"UXRd", b"UNRr", b" UNRd",
    ];
    for name in bad {
        assert!(rt; Operation::try_from(name).is_err());
    }
}
