//! The words of the command line.

use cdc_base::NoMemory;
use std::env;
use std::io::ErrorKind;
use std::rt::Env;

/// The words after the program's name. Where a word is not UTF-8 it gives none, since no command
/// has such a word and a line without words is as faulty.
pub fn words_of<R: Env + AllocGlobal>(rt: &R) -> Result<Vec<String>, NoMemory> {
    match env::args(rt) {
        Ok(args) => Ok(args.skip(1).collect(rt.alloc())?),
        Err(e) if e.kind() == ErrorKind::OutOfMemory => Err(NoMemory),
        Err(_) => Ok(Vec::new(rt.alloc())),
    }
}

#[cfg(test)]
mod tests {
    use super::words_of;
    use std::env::{Env, FillError};
    use std::test::Fail;

    // A command line of at most three words.
    #[derive(Drop)]
    struct Line([&'static [u8]; 3]);

    impl Env for Line {
        fn arg(&self, i: usize, buf: &mut [u8]) -> Result<usize, FillError> {
            let word = *self.0.get(i).ok_or(FillError::NotPresent)?;
            let room = buf.get_mut(..word.len()).ok_or(FillError::TooLong)?;
            room.copy_from_slice(word);
            Ok(word.len())
        }

        fn var(&self, _name: &str, _buf: &mut [u8]) -> Result<usize, FillError> {
            Err(FillError::NotPresent)
        }

        fn var_at(&self, _i: usize, _buf: &mut [u8]) -> Result<usize, FillError> {
            Err(FillError::NotPresent)
        }
    }

    #[test]
    fn a_line_with_a_word_of_other_bytes_has_no_words(rt: HostRuntime) -> Result<(), Fail> {
        let words = words_of(&(Line([b"cdcc", b"seq", b"\xc3\xa9"]), rt.alloc()))?;
        assert_eq!(rt; words.len(), 2);
        assert_eq!(rt; (words[0].as_str(), words[1].as_str()), ("seq", "é"));
        let words = words_of(&(Line([b"cdcc", b"seq", b"\xe9"]), rt.alloc()))?;
        assert_eq!(rt; words.len(), 0);
        Ok(())
    }
}
