// The bytes that a sequence begins with, of each kind and of both at once.
use super::codes::{Bytes, Code, Codes, Kind, bytes_into, bytes_of, written_out};

fn listed(text: &[u8]) -> Codes {
    let mut codes = Codes::new();
    written_out(text, &mut codes);
    codes
}

// A byte, whether it is taken or fed.
fn taken_or_fed(code: Code) -> Option<u8> {
    code.plain().or(code.fed())
}

#[test]
fn bytes_of_a_kind(rt: HostRuntime) {
    let codes = listed(b"ab{feed 3 cd}e{hold}f");
    let fed = codes.get(3..).unwrap_or_default();
    assert_eq!(rt; bytes_of(&codes, Code::plain).as_slice(), b"ab".as_slice());
    assert_eq!(rt; bytes_of(&codes, Code::fed).as_slice(), b"".as_slice());
    assert_eq!(rt; bytes_of(fed, Code::fed).as_slice(), b"cd".as_slice());
    assert_eq!(rt; bytes_of(fed, taken_or_fed).as_slice(), b"cde".as_slice());
}

#[test]
fn bytes_past_the_room(rt: HostRuntime) {
    let codes = listed(b"{rep 5000 a}");
    assert_eq!(rt; codes.len(), 5000);
    assert_eq!(rt; bytes_of(&codes, Code::plain).len(), 4096);
}

#[test]
fn bytes_into_a_list(rt: HostRuntime) {
    let codes = listed(b"ab{feed 3 cd}e");
    let fed = codes.get(3..).unwrap_or_default();
    let mut bytes = Bytes::new();
    bytes_into(&codes, Kind::Plain, &mut bytes);
    assert_eq!(rt; bytes.as_slice(), b"ab".as_slice());
    bytes_into(fed, Kind::Fed, &mut bytes);
    assert_eq!(rt; bytes.as_slice(), b"cd".as_slice());
}
