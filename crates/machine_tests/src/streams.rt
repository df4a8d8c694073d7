// Streams as sinks.
use cluster_tree::{Sink, SinkFailed};
use machine::StdSink;
use std::io::Cursor;
use std::test::Fail;

#[test]
fn a_stream_is_a_sink(rt: HostRuntime) -> Result<(), Fail> {
    let mut out = StdSink::new(rt.stdout());
    assert_eq!(rt; out.write(b""), Ok(()));
    let mut room = [0; 4];
    let mut small = StdSink::new(Cursor::new(room.as_mut_slice()));
    assert_eq!(rt; small.write(b"abc"), Ok(()));
    assert_eq!(rt; small.write(b"de"), Err(SinkFailed));
    Ok(())
}
