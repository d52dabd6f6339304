// What the bench's page says of words, and no clause does.
use crate::to_unit::ToUnit;
use crate::{Call, Store, call_of};

const EMPTY: Store = [0; 131_072];

fn is_call(line: &[u8]) -> bool {
    let mut store = EMPTY;
    call_of(line, &mut store).is_some()
}

#[test]
fn numbers_fit_their_types(rt: HostRuntime) {
    assert!(rt; is_call(b"lend 8"));
    assert!(rt; !is_call(b"lend 9"));
    assert!(rt; is_call(b"time 18446744073709551615"));
    assert!(rt; !is_call(b"time 18446744073709551616"));
    assert!(rt; !is_call(b"time -1"));
    assert!(rt; !is_call(b"time +1"));
    assert!(rt; !is_call(b"tick - 0"));
    assert!(rt; !is_call(b"tick 0 9223372036854775808"));
    let mut store = EMPTY;
    let Some(Call::ToUnit(call)) = call_of(b"tick -9223372036854775808 -0", &mut store) else {
        panic!(rt; "no call");
    };
    let ToUnit::Tick(reference, clock) = call else {
        panic!(rt; "another call");
    };
    assert_eq!(rt; reference, i64::MIN);
    assert_eq!(rt; clock, 0);
}

#[test]
fn octets_are_pairs_of_lower_case_digits(rt: HostRuntime) {
    let mut store = EMPTY;
    let Some(Call::Read(octets)) = call_of(b"read 00ff9a", &mut store) else {
        panic!(rt; "no call");
    };
    assert_eq!(rt; octets.held, b"\x00\xff\x9a".as_slice());
    assert!(rt; is_call(b"read -"));
    assert!(rt; !is_call(b"read "));
    assert!(rt; !is_call(b"read 0"));
    assert!(rt; !is_call(b"read 0A"));
}

#[test]
fn words_are_counted(rt: HostRuntime) {
    assert!(rt; is_call(b"show"));
    assert!(rt; !is_call(b"show "));
    assert!(rt; !is_call(b"show 1"));
    assert!(rt; !is_call(b"lend"));
    assert!(rt; !is_call(b"lend  8"));
}

#[test]
fn clocks_have_sixteen_digits_of_either_case(rt: HostRuntime) {
    assert!(rt; is_call(b"unit 0 0123456789abcdeF 1 0 0 0 0 0 0 0 0 0 0 0"));
    assert!(rt; !is_call(b"unit 0 123456789abcdeF 1 0 0 0 0 0 0 0 0 0 0 0"));
    assert!(rt; !is_call(b"unit 0 +123456789abcdeF 1 0 0 0 0 0 0 0 0 0 0 0"));
}
