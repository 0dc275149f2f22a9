// The forms of an event line.
ghost use Rattle.std.specs.Prelude.{◌≡◌, ◌<◌, ◌≤◌, ◌∷◌, [], true, IfSome};
ghost use Rattle.cdc_sched.specs.Lines.{read_words};
ghost use Rattle.cdc_sched.specs.Events.{processor_of, one, many, is_count, with_number, event_of, processor_in, IsWithin};

use crate::event::{Event, Repeated};
use crate::line::number;
use crate::phrase::{Phrase, is_word, read_words};

// What the line says, where it has one of the forms.
pub(crate) fn read_event(line: &[u8], procs: u32) -> Option<Repeated>
    ensures event { result ≡ event_of procs (read_words line.now) }
    ensures within { IfSome result (IsWithin procs) }
{
    match read_words(line) {
        Phrase::Two(word, processor) => single(word, processor, procs),
        Phrase::Three(word, processor, second) => double(word, processor, second, procs),
        _ => None,
    }
}

fn single(word: &[u8], first: &[u8], procs: u32) -> Option<Repeated>
    ensures event { result ≡ event_of procs (word.now ∷ first.now ∷ []) }
    ensures within { IfSome result (IsWithin procs) }
{
    let processor = processor_number(first, procs)?;
    many(word, processor, 1)
}

fn double(word: &[u8], first: &[u8], second: &[u8], procs: u32) -> Option<Repeated>
    ensures event { result ≡ event_of procs (word.now ∷ first.now ∷ second.now ∷ []) }
    ensures within { IfSome result (IsWithin procs) }
{
    let processor = processor_number(first, procs)?;
    let number = number(second)?;
    with_number(word, processor, number)
}

fn processor_number(word: &[u8], procs: u32) -> Option<u32>
    ensures processor { result ≡ processor_of procs word.now }
    ensures below { IfSome result (λ processor. processor < procs) }
{
    let number = number(word)?;
    if number < procs as u64 {
        Some(number as u32)
    } else {
        None
    }
}

// `take p i` and `evict p n`.
fn one(word: &[u8], processor: u32, number: u64) -> Option<Repeated>
    ensures event { result ≡ one word.now processor number }
    ensures of { IfSome result (λ r. (r.count ≡ 1) × (processor_in r ≡ processor)) }
{
    if is_word(word, b"take") {
        let event = Event::Take(processor, number);
        return Some(Repeated { event, count: 1 });
    }
    if is_word(word, b"evict") {
        let event = Event::Evict(processor, number);
        return Some(Repeated { event, count: 1 });
    }
    None
}

// `step p` and `next p`, so many times.
fn many(word: &[u8], processor: u32, count: u32) -> Option<Repeated>
    ensures event { result ≡ many word.now processor count }
    ensures of { IfSome result (λ r. (r.count ≡ count) × (processor_in r ≡ processor)) }
{
    if is_word(word, b"step") {
        let event = Event::Step(processor);
        return Some(Repeated { event, count });
    }
    if is_word(word, b"next") {
        let event = Event::Next(processor);
        return Some(Repeated { event, count });
    }
    None
}

// The forms with two numbers.
fn with_number(word: &[u8], processor: u32, number: u64) -> Option<Repeated>
    ensures event { result ≡ with_number word.now processor number }
    ensures of { IfSome result (λ r. (1 ≤ r.count) × (processor_in r ≡ processor)) }
{
    if let Some(once) = one(word, processor, number) {
        return Some(once);
    }
    if is_count(number) {
        many(word, processor, number as u32)
    } else {
        None
    }
}

fn is_count(number: u64) -> bool
    ensures test { result ≡ is_count number }
    ensures some { result ≡ true → 1 ≤ number }
    ensures most { result ≡ true → number ≤ 1000000 }
{
    (1..=1_000_000).contains(&number)
}
