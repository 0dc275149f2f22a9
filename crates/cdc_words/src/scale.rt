// The number of `bench`.
ghost use Rattle.std.specs.Prelude.{◌≡◌, ◌==◌, slice_index};
ghost use Rattle.cdc_words.specs.Commands.{scale_of};

/// The largest number of `bench`.
const MOST: u16 = 1000;

// `parse` takes a sign, and the command table does not.
fn has_plus(word: &str) -> bool
    ensures { result ≡ (slice_index word.now 0 == 43) }
{
    word.starts_with('+')
}

/// The number from 1 to 1000 that digits write, where the word is one.
pub(crate) fn scale_of(word: &str) -> Option<u16>
    ensures { result ≡ scale_of word.now }
{
    if has_plus(word) {
        return None;
    }
    match word.parse::<u16>() {
        Ok(scale) => {
            if 1 <= scale && scale <= MOST {
                Some(scale)
            } else {
                None
            }
        }
        Err(_) => None,
    }
}
