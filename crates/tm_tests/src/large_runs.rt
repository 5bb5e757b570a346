//! The summaries of two large runs, as an independent model tells them.

use std::test::Fail;
use tm_io::Open;
use tm_make::make;

const SUMMARIES: [(u32, &[u8]); 2] = [
    (
        0,
        b"make 0\nslices 20000\nentries 59155\npoints 60\nleast 59096\nbytes 6409\n",
    ),
    (
        1,
        b"make 1\nslices 20000\nentries 59236\npoints 66\nleast 59171\nbytes 6989\n",
    ),
];

#[test]
fn two_large_runs_are_summarized(rt: HostRuntime) -> Result<(), Fail> {
    let alloc = rt.alloc();
    for (number, summary) in SUMMARIES {
        let text = make(&rt, alloc, number, &Open).expect(&rt, "the run is made");
        assert_eq!(rt; text.as_slice(), summary);
    }
    Ok(())
}
