//! Places in the input.

ghost use Rattle.std.specs.Prelude.{◌≡◌, ℤ, List as Items};
ghost use Rattle.cdc_prog.specs.Unread.{Takes, Skips};
ghost use Rattle.cdc_task.specs.Held.{left_at};

use cdc_base::List;
use cdc_prog::FaultKind;

/// A place in the input, which is held apart from the records: how many records are behind it, and how many values of the
/// record at which it stands are used.
#[derive(Clone, Copy, Debug, PartialEq, Eq)]
pub struct Place {
    pub records: usize,
    pub used: usize,
}

impl Place {
    /// Before all records.
    pub fn first() -> Place
        ensures { (records : Items (Items ℤ)) → left_at records result ≡ records }
    {
        Place {
            records: 0,
            used: 0,
        }
    }

    /// The next value, of this record or a further one (ISO/IEC 1539:1991, section 10.8.1).
    ///
    /// # Errors
    ///
    /// `InputEnded` where no value is left.
    pub fn take(&mut self, records: &[List<i64>]) -> Result<i64, FaultKind>
        ensures { Takes (left_at records.now self.old) result (left_at records.now self.new) }
    {
        while let Some(record) = records.get(self.records) {
            if let Some(value) = record.as_slice().get(self.used) {
                self.used += 1;
                return Ok(*value);
            }
            self.records += 1;
            self.used = 0;
        }
        Err(FaultKind::InputEnded)
    }

    /// Skips what is left of the record.
    ///
    /// # Errors
    ///
    /// `InputEnded` where no record is left.
    pub fn end_record(&mut self, records: &[List<i64>]) -> Result<(), FaultKind>
        ensures { Skips (left_at records.now self.old) result (left_at records.now self.new) }
    {
        match records.get(self.records) {
            Some(_) => {
                self.records += 1;
                self.used = 0;
                Ok(())
            }
            None => Err(FaultKind::InputEnded),
        }
    }
}
