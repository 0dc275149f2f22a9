// What is left of the input.
ghost use Rattle.std.specs.Prelude.{◌≡◌};
ghost use Rattle.cdc_prog.specs.Unread.{left_of, Takes, Skips};

use crate::program::FaultKind;
use cdc_base::List;

/// What is left of the input: records, of whose first some values are used.
#[derive(Clone, Copy)]
pub struct Unread<'a> {
    records: &'a [List<i64>],
    used: usize,
}

impl<'a> Unread<'a> {
    /// All records.
    pub fn new(records: &'a [List<i64>]) -> Unread<'a>
        ensures { left_of result ≡ records.now }
    {
        Unread { records, used: 0 }
    }

    /// The next value, of this record or a further one (ISO/IEC 1539:1991, section 10.8.1).
    ///
    /// # Errors
    ///
    /// `InputEnded` where no value is left.
    pub fn take(&mut self) -> Result<i64, FaultKind>
        ensures { Takes (left_of self.old) result (left_of self.new) }
    {
        while let Some((record, others)) = self.records.split_first() {
            if let Some(value) = record.as_slice().get(self.used) {
                self.used += 1;
                return Ok(*value);
            }
            self.records = others;
            self.used = 0;
        }
        Err(FaultKind::InputEnded)
    }

    /// Skips what is left of the record.
    ///
    /// # Errors
    ///
    /// `InputEnded` where no record is left.
    pub fn end_record(&mut self) -> Result<(), FaultKind>
        ensures { Skips (left_of self.old) result (left_of self.new) }
    {
        match self.records.split_first() {
            Some((_, others)) => {
                self.records = others;
                self.used = 0;
                Ok(())
            }
            None => Err(FaultKind::InputEnded),
        }
    }
}
