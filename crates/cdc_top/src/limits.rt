// The bytes that files may have; those of a source are a limit of programs, `cdc_prog::limit`.

/// The bytes that an input may have.
pub const INPUT_LIMIT: u64 = 1_048_576;

/// The bytes that a schedule may have.
pub const SCHEDULE_LIMIT: u64 = 16_777_216;
