//! Tests of how many bytes `Values::next_from` asks its reader for: never more than the value still
//! needs.

use amq_protocol_types::stream::{Limits, Values};
use std::alloc::Global;
use std::io;
use std::io::Read;
use std::process::Abort;

/// How many more bytes the field that is being read needs, once these have come of a value. It is
/// 0 if the value is complete, and if no more bytes would help.
fn lack(bytes: &[u8]) -> usize {
    let wanted = match bytes {
        [] | [b'V', ..] => 1,
        [b't' | b'b' | b'B', ..] => 2,
        [b's' | b'U' | b'u', ..] => 3,
        [b'I' | b'i' | b'f', ..] => 5,
        [b'l' | b'L' | b'd' | b'T', ..] => 9,
        [b'D'] => 2,
        [b'D', ..] => 6,
        [b'S' | b'x' | b'A' | b'F', a, b, c, d, ..] => {
            5 + u32::from_be_bytes([*a, *b, *c, *d]) as usize
        }
        [b'S' | b'x' | b'A' | b'F', ..] => 5,
        _ => 0,
    };
    wanted.saturating_sub(bytes.len())
}

/// A request: how many bytes it is for, and how many the field still needed then.
#[derive(Clone, Copy)]
struct Request {
    most: usize,
    lack: usize,
}

/// Yields the bytes, at most `most` at a time, and notes each request.
#[derive(Drop)]
struct Noting<'a> {
    bytes: &'a [u8],
    most: usize,
    value: Vec<u8>,
    requests: Vec<Request>,
}

impl Read for Noting<'_> {
    fn read(&mut self, buf: &mut [u8]) -> io::Result<usize> {
        if lack(self.value.as_slice()) == 0 {
            self.value.clear();
        }
        self.requests.push(Request {
            most: buf.len(),
            lack: lack(self.value.as_slice()),
        })?;
        let most = buf.len().min(self.most);
        let n = self.bytes.read(&mut buf[..most])?;
        self.value.extend_from_slice(&buf[..n])?;
        Ok(n)
    }
}

/// The limits `frame` and `depth`, the bytes, and how many values they begin with.
const ROWS: &[(u32, u32, &[u8], usize)] = &[
    (9, 2, b"VS\0\0\0\x04testS\0\0\0\x05", 2),
    (9, 2, b"S\0\0\0\x04testV", 2),
    (9, 2, b"T\x01\x02", 0),
    (9, 2, b"D\x37\0\0\x03\xe7V", 2),
    (9, 2, b"zV", 0),
    (9, 2, b"", 0),
    // arrays: of an unknown tag, empty, and nested
    (9, 2, b"A\0\0\0\x01z", 0),
    (9, 2, b"A\0\0\0\0", 1),
    (10, 2, b"A\0\0\0\x05A\0\0\0\0V", 2),
    (10, 1, b"A\0\0\0\x05A\0\0\0\0V", 0),
    (9, 2, b"A\0\0\0\x05A\0\0\0\0V", 0),
    // a table whose key of two nested arrays comes again, with Void
    (20, 3, b"F\0\0\0\x0f\x01aA\0\0\0\x05A\0\0\0\0\x01aV", 1),
    (20, 2, b"F\0\0\0\x0f\x01aA\0\0\0\x05A\0\0\0\0\x01aV", 0),
    // no buffer grows for what a length claims
    (4294967295, 0, b"S\xff\xff\xff\xfa\x01\x02\x03", 0),
];

// Reads the values that the bytes begin with, and what isn't a value after them.
fn asks_for_no_more_than_it_needs(
    rt: &impl Abort,
    alloc: Global,
    row: (u32, u32, &[u8], usize),
    most: usize,
) {
    let (frame, depth, bytes, count) = row;
    assert!(rt; 0 < frame);
    let mut reader = Noting {
        bytes,
        most,
        value: Vec::new(alloc),
        requests: Vec::new(alloc),
    };
    let mut values = Values::new(alloc, Limits { frame, depth });
    for _ in 0..count {
        let returned = values.next_from(&mut reader);
        assert!(rt; matches!(returned, Ok(Some(_))), "{bytes:?}");
    }
    let returned = values.next_from(&mut reader);
    assert!(rt; !matches!(returned, Ok(Some(_))), "{bytes:?}");
    assert!(rt; !reader.requests.is_empty());
    for request in reader.requests.as_slice() {
        assert!(rt;
            0 < request.most && request.most <= request.lack,
            "{bytes:?}"
        );
        assert!(rt; request.most <= 65536, "{bytes:?}");
    }
}

#[test]
fn no_request_is_for_more_than_the_value(rt: HostRuntime) {
    for row in ROWS {
        for most in [1, 2, 3, 7, 4096] {
            asks_for_no_more_than_it_needs(&rt, rt.alloc(), *row, most);
        }
    }
}
