//! That a text is written where the sink takes it, and that a fault of the sink is handed on.

use crate::{Text, write_texts, write_words};
use cdc_base::{MemSink, SinkFault};
use std::test::Fail;

#[test]
fn texts_are_written_one_after_another(rt: HostRuntime) -> Result<(), Fail> {
    let texts = [
        Text::Words(b"words "),
        Text::Number(18446744073709551615),
        Text::Words(b" sites "),
        Text::Number(0),
        Text::Words(b"\n"),
    ];
    let mut sink = MemSink::new(rt.alloc(), 100, Vec::new(rt.alloc()))?;
    assert_eq!(rt; write_texts(&mut sink, &texts), Ok(()));
    assert_eq!(rt;
        sink.bytes(),
        b"words 18446744073709551615 sites 0\n".as_slice()
    );
    assert_eq!(rt; write_words(&mut sink, b"end"), Ok(()));
    assert_eq!(rt;
        sink.bytes(),
        b"words 18446744073709551615 sites 0\nend".as_slice()
    );

    let mut fails = MemSink::new(rt.alloc(), 100, vec![in rt.alloc(); 2]?)?;
    assert_eq!(rt; write_texts(&mut fails, &texts), Err(SinkFault::Failed));
    assert_eq!(rt; fails.bytes(), b"words ".as_slice());
    Ok(())
}
