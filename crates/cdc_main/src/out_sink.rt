//! Standard output as a sink. Trusted: no contract says what reaches a terminal or a file.
ghost use Rattle.std.specs.Prelude.{◌≡◌, None};

use cdc_base::{Sink, SinkFault};

/// Hands each piece to the system at once, so that a failed write shows in the call that made it.
/// It tells no bytes; each failure, and each write that takes nothing, raises the count.
#[derive(Drop)]
pub struct OutSink<'a, P: Print> {
    out: &'a P,
    faults: u64,
}

impl<'a, P: Print> OutSink<'a, P> {
    pub fn new(out: &'a P) -> OutSink<'a, P>
        ensures { result.faults ≡ 0 }
    {
        OutSink { out, faults: 0 }
    }
}

impl<P: Print> Sink for OutSink<'_, P> {
    ghost taken = { λ _. None };

    ghost faults = { λ sink. sink.faults };

    fn put(&mut self, piece: &[u8]) -> Result<usize, SinkFault> {
        if piece.is_empty() {
            return Ok(0);
        }
        match self.out.write_some(piece) {
            Ok(count) if count > 0 => Ok(count),
            _ => {
                self.faults = self.faults.saturating_add(1);
                Err(SinkFault::Failed)
            }
        }
    }
}

#[cfg(test)]
mod tests {
    use super::OutSink;
    use cdc_base::{Sink, SinkFault};
    use std::fmt::Display;
    use std::io;
    use std::io::ErrorKind;

    // Takes at most so many bytes of each piece; with no number it fails.
    #[derive(Drop)]
    struct Device(Option<usize>);

    impl Print for Device {
        fn print<D: Display + Drop>(&self, _value: D) -> io::Result<()> {
            Ok(())
        }

        fn println<D: Display + Drop>(&self, _value: D) -> io::Result<()> {
            Ok(())
        }

        fn write_all(&self, _bytes: &[u8]) -> io::Result<()> {
            Ok(())
        }

        fn write_some(&self, bytes: &[u8]) -> io::Result<usize> {
            match self.0 {
                Some(most) => Ok(most.min(bytes.len())),
                None => Err(io::Error::from(ErrorKind::BrokenPipe)),
            }
        }
    }

    #[test]
    fn pieces_are_written_and_failures_are_counted(rt: HostRuntime) {
        let mut out = OutSink::new(&rt);
        assert_eq!(rt; out.put(b""), Ok(0));
        assert_eq!(rt; out.put(b"a piece\n"), Ok(8));
        assert_eq!(rt; out.faults, 0);

        for (most, piece, want, faults) in [
            (Some(3), "abcde", Ok(3), 0),
            (Some(0), "abcde", Err(SinkFault::Failed), 1),
            (Some(0), "", Ok(0), 0),
            (None, "abcde", Err(SinkFault::Failed), 1),
            (None, "", Ok(0), 0),
        ] {
            let device = Device(most);
            let mut out = OutSink::new(&device);
            assert_eq!(rt; out.put(piece.as_bytes()), want, "{piece} at most {most:?}");
            assert_eq!(rt; out.faults, faults, "{piece} at most {most:?}");
        }
    }
}
