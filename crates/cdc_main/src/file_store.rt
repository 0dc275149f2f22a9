//! Files of the system as a store. Trusted: no contract says what a file holds.
ghost use Rattle.std.specs.Prelude.{◌≡◌, ◌≢◌, ◌+◌, ◌-◌, ◌^◌, min, None, IfOk, OnOk, OnErr, IsSomeAnd};
ghost use Rattle.std.specs.Io.{ReadsAtMost};
ghost use Rattle.std.specs.Io.KnownBytes.{ReadConsumes};

use arrayvec::ArrayString;
use cdc_base::{Store, StoreFault};
use std::io::{ErrorKind, Read, Seek, SeekFrom};
use std::rt::Files;
use std::{fs, io};

/// The bytes that the name of a file may have; the system opens no longer ones.
const LONGEST_NAME: usize = 4096;

/// Reads files by their names. The file that was read last stays open, so that a reading from its
/// start to its end opens it once. It tells no bytes and takes no memory; each failure, a missing
/// file included, raises one count that stands for every name.
#[derive(Drop)]
pub struct FileStore<'a, R: Files> {
    files: &'a R,
    opened: Option<Opened<R::File>>,
    faults: u64,
    given: u64,
}

// An open file, with the place of its next byte.
#[derive(Drop)]
struct Opened<F> {
    name: ArrayString<LONGEST_NAME>,
    file: F,
    place: u64,
}

impl<F: Read + Seek> Opened<F> {
    // Where the file tells the bytes that it has left, a call at the place of the next byte gives these.
    fn read_at(&mut self, at: u64, buf: &mut [u8]) -> io::Result<usize>
        ensures bound { ReadsAtMost result buf.new }
        ensures next { at ≡ self.old.place →
            ReadConsumes (F.remaining self.old.file) (F.remaining self.new.file) result buf.new }
        ensures place { IfOk result (λ n. n ≢ 0 → self.new.place ≡ min (at + n) (2 ^ 64 - 1)) }
        ensures name { self.new.name ≡ self.old.name }
    {
        if at != self.place {
            match self.file.seek(SeekFrom::Start(at)) {
                Ok(_) => self.place = at,
                // No file of the device reaches that far, so the place is past the end.
                Err(e) if e.kind() == ErrorKind::InvalidInput => return Ok(0),
                Err(e) => return Err(e),
            }
        }
        let count = self.file.read(buf)?;
        self.place = self.place.saturating_add(count as u64);
        Ok(count)
    }
}

impl<'a, R: Files> FileStore<'a, R> {
    /// No file is open.
    pub fn new(files: &'a R) -> FileStore<'a, R>
        ensures faults { result.faults ≡ 0 }
        ensures given { result.given ≡ 0 }
    {
        FileStore {
            files,
            opened: None,
            faults: 0,
            given: 0,
        }
    }

    fn open(&self, name: &str) -> io::Result<Opened<R::File>>
        ensures name { IfOk result (λ opened. opened.name.bytes ≡ name.now) }
        ensures place { IfOk result (λ opened. opened.place ≡ 0) }
    {
        let Ok(kept) = ArrayString::from(name) else {
            return Err(io::Error::from(ErrorKind::InvalidInput));
        };
        Ok(Opened {
            name: kept,
            file: fs::open(self.files, name)?,
            place: 0,
        })
    }

    // The file of that name is open then, and none after a failure.
    fn read_file(&mut self, name: &str, at: u64, buf: &mut [u8]) -> io::Result<usize>
        ensures bound { ReadsAtMost result buf.new }
        ensures name { OnOk result (IsSomeAnd self.new.opened (λ opened. opened.name.bytes ≡ name.now)) }
        ensures place { IfOk result (λ n. n ≢ 0 →
            IsSomeAnd self.new.opened (λ opened. opened.place ≡ min (at + n) (2 ^ 64 - 1))) }
        ensures closed { OnErr result (self.new.opened ≡ None) }
        ensures faults { self.new.faults ≡ self.old.faults }
        ensures given { self.new.given ≡ self.old.given }
    {
        let mut opened = match self.opened.take() {
            Some(opened) if opened.name.as_str() == name => opened,
            _ => self.open(name)?,
        };
        let count = opened.read_at(at, buf)?;
        self.opened = Some(opened);
        Ok(count)
    }
}

impl<R: Files> Store for FileStore<'_, R> {
    ghost told = { λ _ _. None };

    ghost faults = { λ store _. store.faults };

    ghost given = { λ store. store.given };

    fn read_at(&mut self, name: &str, at: u64, buf: &mut [u8]) -> Result<usize, StoreFault> {
        if buf.is_empty() {
            return Ok(0);
        }
        match self.read_file(name, at, buf) {
            Ok(count) => {
                self.given = self.given.saturating_add(count as u64);
                Ok(count)
            }
            Err(_) => {
                self.faults = self.faults.saturating_add(1);
                Err(StoreFault::Failed)
            }
        }
    }
}

#[cfg(test)]
mod tests {
    use super::FileStore;
    use cdc_base::{Store, StoreFault};
    use std::test::Fail;
    use std::{env, fs, process};

    #[test]
    fn files_are_read_and_failures_are_counted(rt: HostRuntime) -> Result<(), Fail> {
        let folder = env::temp_dir(&rt)?;
        let folder = folder.as_str();
        let id = process::id(rt.process());
        let file = format!(in rt.alloc(); "{folder}/cdcc-file-store-{id}")?;
        let file = file.as_str();
        fs::write(&rt, file, "abcdef")?;

        let mut store = FileStore::new(&rt);
        let mut buf = [0; 4];
        for (at, want) in [
            (0, "abcd"),
            (4, "ef"),
            (6, ""),
            (2, "cdef"),
            (7, ""),
            (u64::MAX, ""),
        ] {
            assert_eq!(rt;
                store.read_at(file, at, &mut buf),
                Ok(want.len()),
                "at {at}"
            );
            assert_eq!(rt; &buf[..want.len()], want.as_bytes(), "at {at}");
        }
        assert_eq!(rt; (store.faults, store.given), (0, 10));

        for missing in ["/cdcc/no such file", "", "/"] {
            assert_eq!(rt; store.read_at(missing, 0, &mut []), Ok(0));
            assert_eq!(rt;
                store.read_at(missing, 0, &mut buf),
                Err(StoreFault::Failed),
                "{missing}"
            );
        }
        assert_eq!(rt; store.read_at(file, 5, &mut buf), Ok(1));
        assert_eq!(rt; (store.faults, store.given), (3, 11));
        fs::remove_file(&rt, file)?;
        Ok(())
    }
}
