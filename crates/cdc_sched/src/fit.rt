// The lines of a header within their limits.
ghost use Rattle.std.specs.Prelude.{◌≡◌, ◌≤◌, ◌*◌, true, Some, IfSome, MatchOption};
ghost use Rattle.cdc_sched.specs.Built.{is_built};
ghost use Rattle.cdc_sched.specs.Fits.{CanSay, CanSayCache, SaysScheme, SaysProcs, SaysCache, SaysBound, is_small_power, is_geometry};
ghost use Rattle.cdc_sched.specs.HeaderLines.{version_words, events_words, tail_of};
ghost use Rattle.cdc_sched.specs.Headers.{cache_words};
ghost use Rattle.cdc_sched.specs.Headers.Place.{Version, Scheme as SchemePlace, Procs, Bound, Tail, Events};
ghost use Rattle.cdc_sched.specs.Limits.{IsGeometry, IsWidth};
ghost use Rattle.cdc_sched.specs.Lines.{read_words};
ghost use Rattle.cdc_sched.specs.declared.header.Geometry.{Geometry as Shape};

use crate::header::{Geometry, SchemeName, TailKind};
use crate::header_line::{
    CacheWords, cache_words, is_events, is_version, numbered, scheme_words, tail_words,
};

// A scheme within its limits, with the bits of its numbers.
#[derive(Clone, Copy)]
pub(crate) struct Scheme {
    pub(crate) name: SchemeName,
    pub(crate) width: u32,
}

pub(crate) fn version_line(line: &[u8]) -> Option<()>
    ensures { MatchOption result (CanSay Version (read_words line.now) → ⊥) (λ _. read_words line.now ≡ version_words) }
{
    is_version(line).then_some(())
}

pub(crate) fn scheme_line(line: &[u8]) -> Option<Scheme>
    ensures { MatchOption result (CanSay SchemePlace (read_words line.now) → ⊥) (λ scheme. SaysScheme scheme (read_words line.now)) }
{
    let words = scheme_words(line)?;
    if is_built(words.name) && is_width(words.name, words.width) {
        Some(Scheme {
            name: words.name,
            width: words.width as u32,
        })
    } else {
        None
    }
}

// Whether `run` carries out the scheme so far.
fn is_built(name: SchemeName) -> bool
    ensures { result ≡ is_built name }
{
    matches!(name, SchemeName::Direct)
}

fn is_width(name: SchemeName, width: u64) -> bool
    ensures yes { result ≡ true → IsWidth name width }
    ensures no { IsWidth name width → result ≡ true }
    ensures small { result ≡ true → width ≤ 16 }
{
    match name {
        SchemeName::Direct | SchemeName::Si => width == 0,
        SchemeName::Vc | SchemeName::Tpi => 2 <= width && width <= 16,
    }
}

pub(crate) fn procs_line(line: &[u8]) -> Option<u32>
    ensures { MatchOption result (CanSay Procs (read_words line.now) → ⊥) (λ procs. SaysProcs procs (read_words line.now)) }
{
    let procs = numbered(line, b"procs")?;
    if 1 <= procs && procs <= 64 {
        Some(procs as u32)
    } else {
        None
    }
}

pub(crate) fn cache_line(line: &[u8], procs: u32) -> Option<Geometry>
    requires { procs ≤ 64 }
    ensures { MatchOption result (CanSayCache procs (read_words line.now) → ⊥) (λ geometry. SaysCache procs geometry (read_words line.now)) }
{
    let geometry = geometry(cache_words(line)?)?;
    if words_of(procs, geometry) <= 4_194_304 {
        Some(geometry)
    } else {
        None
    }
}

// The words that all caches have room for.
fn words_of(procs: u32, geometry: Geometry) -> u64
    requires procs { procs ≤ 64 }
    requires words { geometry.words ≤ 16 }
    requires sets { geometry.sets ≤ 1024 }
    requires ways { geometry.ways ≤ 8 }
    ensures { result ≡ procs * geometry.words * geometry.sets * geometry.ways }
{
    procs as u64 * geometry.words as u64 * geometry.sets as u64 * geometry.ways as u64
}

// The shape of a cache, where the numbers are within their limits.
fn geometry(cache: CacheWords) -> Option<Geometry>
    ensures shape { MatchOption result ((g : Shape) → IsGeometry g → cache_words g ≡ cache → ⊥) (λ g. IsGeometry g × (cache_words g ≡ cache)) }
    ensures words { IfSome result (λ g. g.words ≤ 16) }
    ensures sets { IfSome result (λ g. g.sets ≤ 1024) }
    ensures ways { IfSome result (λ g. g.ways ≤ 8) }
{
    if is_geometry(cache) {
        Some(Geometry {
            words: cache.words as u32,
            sets: cache.sets as u32,
            ways: cache.ways as u32,
        })
    } else {
        None
    }
}

fn is_geometry(cache: CacheWords) -> bool
    ensures { result ≡ is_geometry cache }
{
    is_power(cache.words)
        && cache.words <= 16
        && is_power(cache.sets)
        && 1 <= cache.ways
        && cache.ways <= 8
}

// Whether the number is a power of two up to 1,024.
fn is_power(number: u64) -> bool
    ensures { result ≡ is_small_power number }
{
    matches!(
        number,
        1 | 2 | 4 | 8 | 16 | 32 | 64 | 128 | 256 | 512 | 1_024
    )
}

pub(crate) fn bound_line(line: &[u8]) -> Option<u64>
    ensures { MatchOption result (CanSay Bound (read_words line.now) → ⊥) (λ bound. SaysBound bound (read_words line.now)) }
{
    let bound = numbered(line, b"bound")?;
    if bound <= 1_000_000_000_000 {
        Some(bound)
    } else {
        None
    }
}

pub(crate) fn tail_line(line: &[u8]) -> Option<TailKind>
    ensures { MatchOption result (CanSay Tail (read_words line.now) → ⊥) (λ tail. tail_of (read_words line.now) ≡ Some tail) }
{
    tail_words(line)
}

pub(crate) fn events_line(line: &[u8]) -> Option<()>
    ensures { MatchOption result (CanSay Events (read_words line.now) → ⊥) (λ _. read_words line.now ≡ events_words) }
{
    is_events(line).then_some(())
}
