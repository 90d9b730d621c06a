// The two plans of the examples in `docs/SHEET.md`. The first, of four units, is the one that most tests begin with:
// U10000 to U10003, 0–1:3, 1–2:1, 2–3:4, 0–3:2.

pub const CODES: &[[u8; 6]] = &[*b"U10000", *b"U10001", *b"U10002", *b"U10003"];

// Each link as both units and the weight.
pub const LINKS: &[(usize, usize, u32)] = &[(0, 1, 3), (1, 2, 1), (2, 3, 4), (0, 3, 2)];

// The sheet, as an array so that a test changes a copy without the heap. Issue 1: the head, the codes from byte 9, and the links from byte 33.
pub const SHEET: [u8; 61] = *b"HNW\x01\0\x01\x04\x04\0\
    U10000U10001U10002U10003\
    \0\x01\x01\x03\0\0\0\
    \x01\x02\x01\x01\0\0\0\
    \x02\x03\x01\x04\0\0\0\
    \0\x03\x01\x02\0\0\0";

// A sheet of three units in issue 2, ranked: 0–1:(1,0), 1–2:(0,9), 2–0:(0,5), and 0–2:(0,300) out of service.
pub const RANKED_SHEET: &[u8] = b"HNW\x02\0\x02\x03\x04\0\
    U10001AP0420Z\0C12345\0\
    \0\x01\x01\x01\0\0\0\0\0\0\0\
    \x01\x02\x01\0\0\0\0\x09\0\0\0\
    \x02\0\x01\0\0\0\0\x05\0\0\0\
    \0\x02\0\0\0\0\0\x2C\x01\0\0";
