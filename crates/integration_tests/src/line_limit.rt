//! A feed with a limit on its line feeds. When it has returned as many line feeds as the limit, its next pull fails, even if no
//! bytes are left.

use streams::{Feed, LineLimit, ReaderFeed, Stopped};

#[test]
fn a_trace_of_too_many_lines_fails(rt: HostRuntime) {
    let mut piece = [0; 8];
    let mut within = LineLimit::new(ReaderFeed::new(b"a\nb\nc".as_slice()), 3);
    assert!(rt; within.pull(&mut piece) == Ok(5));
    assert!(rt; within.pull(&mut piece) == Ok(0));
    let mut beyond = LineLimit::new(ReaderFeed::new(b"a\nb\nc\n".as_slice()), 3);
    assert!(rt; beyond.pull(&mut piece) == Ok(6));
    assert!(rt; beyond.pull(&mut piece) == Err(Stopped));
}
