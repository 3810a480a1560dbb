//! A text that is written in pieces, with its summary.

use crate::counting::CountingSink;
use cc_io::write_all;
use std::test::Fail;

#[test]
fn pieces_are_counted(rt: HostRuntime) -> Result<(), Fail> {
    let alloc = rt.alloc();
    let mut sink = CountingSink::new(alloc);
    let told = sink.summary(alloc, 3)?;
    let none: &[u8] = b"workload 3\nlines 0\nbytes 0\nlast \n";
    assert_eq!(rt; told.as_slice(), none);
    let pieces: [&[u8]; 5] = [b"che", b"ck\n  a acc", b"", b"epted\n  b", b" refused\n"];
    for piece in pieces {
        assert_eq!(rt; write_all(&mut sink, piece), Ok(()));
    }
    let told = sink.summary(alloc, 4_294_967_295)?;
    let all: &[u8] = b"workload 4294967295\nlines 3\nbytes 31\nlast b refused\n";
    assert_eq!(rt; told.as_slice(), all);
    Ok(())
}
