// The head of a sheet.

// The first three bytes of every sheet.
pub const MAGIC: [u8; 3] = *b"HNW";
