// Block files for the tests, written in hexadecimal.
use std::alloc::Global;
use std::test::Fail;

// The example of four nets.
pub const EXAMPLE: &str =
    "0103000000003800 0103000000003800 0100 010C5500000050000000 0303003C00141F3C0014 0303004600021F460002 0303000A00011F29000A 02020200 02070100020001 02070200030002";

// The bytes of words of hexadecimal digits.
pub fn bytes_of(heap: Global, text: &str) -> Result<Vec<u8>, Fail> {
    let mut bytes = Vec::new(heap);
    for word in text.split_whitespace() {
        bytes.extend_from_slice(&hex::decode(heap, word)?)?;
    }
    Ok(bytes)
}

// A file with one part as often as asked for, after another part.
pub fn repeated(heap: Global, first: &str, part: &str, count: usize) -> Result<Vec<u8>, Fail> {
    let mut bytes = bytes_of(heap, first)?;
    let more = bytes_of(heap, part)?;
    for _ in 0..count {
        bytes.extend_from_slice(&more)?;
    }
    Ok(bytes)
}
