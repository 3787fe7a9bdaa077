//! Names as they are escaped in JSON.
use gl_report::escaped_name;
use serde_json::Value;
use std::alloc::Global;

// The ends of the printable range, the bytes beyond them, a backslash and a quote; and bytes that are no
// ASCII.
const NAMES: &[(&[u8], &[u8])] = &[
    (b"\x1f ~\x7f\\\"", b"\\x1f ~\\x7f\\x5c\""),
    (b"\xc3\xa9", b"\\xc3\\xa9"),
];

fn is_escaped(alloc: Global, name: &[u8], wanted: &[u8]) -> bool {
    match escaped_name(alloc, name) {
        Ok(text) => text.as_bytes() == wanted,
        Err(_) => false,
    }
}

#[test]
fn odd_names_are_escaped(rt: HostRuntime) {
    for (at, (name, wanted)) in NAMES.iter().enumerate() {
        assert!(rt; is_escaped(rt.alloc(), *name, *wanted), "name {at}");
    }
}

fn quoted(alloc: Global, name: &[u8]) -> Option<String> {
    Value::from(escaped_name(alloc, name).ok()?)
        .to_string(alloc)
        .ok()
}

// JSON escapes the backslash once more.
#[test]
fn escaped_name_in_json(rt: HostRuntime) {
    let text = quoted(rt.alloc(), b"\xc3\xa9").expect(&rt, "memory");
    assert!(rt; text.as_bytes() == b"\"\\\\xc3\\\\xa9\"".as_slice());
}
