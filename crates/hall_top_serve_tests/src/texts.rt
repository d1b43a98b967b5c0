//! The requests of a desk, and the responses to them. Where there is no memory a text is cut, so
//! that the test fails.
use crate::acts::product_of;
use crate::texts::Part::{Number, Text};
use hall_units::{push_bytes, push_number};

const CLOSE: &[u8] = b"Connection: close\r\n";

const NOTHING: &[u8] = b"";

// A part of a text.
#[derive(Clone, Copy)]
enum Part<'a> {
    Text(&'a [u8]),
    Number(u64),
}

// Appends the parts of a text.
fn push_parts(to: &mut Vec<u8>, parts: &[Part<'_>]) {
    for part in parts {
        let _ = match part {
            Text(text) => push_bytes(to, text),
            Number(number) => push_number(to, *number),
        };
    }
}

/// Appends a request of a desk. The other list is for its body.
pub fn push_request(to: &mut Vec<u8>, body: &mut Vec<u8>, desk: u16, request: u32) {
    body.clear();
    let act = [
        Text(b"{\"act\":\"product\",\"desk\":"),
        Number(u64::from(desk)),
        Text(b",\"request\":"),
        Number(u64::from(request)),
        Text(b",\"name\":\""),
        Text(&product_of(desk, request)),
        Text(b"\",\"nominal\":250000}"),
    ];
    push_parts(body, &act);
    let parts = [
        Text(b"POST /acts HTTP/1.1\r\nContent-Length: "),
        Number(body.len() as u64),
        Text(b"\r\n\r\n"),
        Text(body),
    ];
    push_parts(to, &parts);
}

/// Appends the response to an act that stands in this row; `last` says that the connection ends
/// behind it. The other list is for its body.
pub fn push_response(to: &mut Vec<u8>, body: &mut Vec<u8>, row: u64, last: bool) {
    body.clear();
    push_parts(body, &[Text(b"{\"row\":"), Number(row), Text(b"}")]);
    let parts = [
        Text(b"HTTP/1.1 200 OK\r\nContent-Type: application/json\r\nContent-Length: "),
        Number(body.len() as u64),
        Text(b"\r\nBook-Row: "),
        Number(row),
        Text(b"\r\n"),
        Text(if last { CLOSE } else { NOTHING }),
        Text(b"\r\n"),
        Text(body),
    ];
    push_parts(to, &parts);
}
