// What a buffer does once a write of it has failed.
use crate::Out;
use arrayvec::ArrayVec;
use std::io;
use std::io::Write;

#[test]
fn text_is_taken_after_a_write_that_failed(rt: HostRuntime) {
    let mut out = Out {
        octets: ArrayVec::new(),
        to: rt.stdout(),
        failed: Some(io::Error::from(io::ErrorKind::BrokenPipe)),
    };
    assert!(rt; matches!(out.write(b"ok"), Ok(2)));
    assert!(rt; matches!(write!(out, " {}", 7), Ok(())));
    assert_eq!(rt; out.octets.as_slice(), b"ok 7".as_slice());
    assert!(rt; out.done().is_err());
    assert!(rt; out.flush().is_err());
    assert!(rt; out.octets.is_empty());
}
