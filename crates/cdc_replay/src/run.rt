//! The run of a machine over the events of a schedule.

ghost use Rattle.std.specs.Prelude.{◌≡◌, ◌<◌, ◌≤◌, ◌+◌, ◌^◌, ◌++◌, ℕ, [], ◌∷◌, List as Items, length, Option, None, Some, Ok, OnOk, OnErr, IfOk, true, false};
ghost use Rattle.cdc_base.specs.Gathered.{waiting, HandsOn};
ghost use Rattle.cdc_base.specs.Outside.{GrewInPart};
ghost use Rattle.cdc_base.specs.Causes.{HasCause};
ghost use Rattle.cdc_prog.specs.Lines.{opened};
ghost use Rattle.cdc_prog.specs.Meaning.{bytes_of, bytes_of_piece};
ghost use Rattle.cdc_prog.specs.Pieces.{IsThere};
ghost use Rattle.cdc_sched.specs.declared.event.Event.{Event as MachineEvent};
ghost use Rattle.cdc_sched.specs.declared.header.TailKind.{TailKind as KindOfTail};
ghost use Rattle.cdc_sched.specs.Events.{processor};
ghost use Rattle.cdc_sched.specs.Tails.{Stands as TailStands, tail_procs};
ghost use Rattle.cdc_sched.specs.Told.{Told, told_of};
ghost use Rattle.cdc_replay.specs.Effects.{piece_in, passed, IsIdleAgain};
ghost use Rattle.cdc_replay.specs.Applied.{has_ended, with_tail};
ghost use Rattle.cdc_epoch.specs.Ties.{StandsFor};
ghost use Rattle.cdc_replay.specs.Replays.{CanReplay, Opening, Playing, Broken, TakesOn, Begins, Skipped, SameEvents, ListedEnd, EndsReading, HasSinkCause, PlayedOut, Replays, HandsOut, end_by, opening_of, effect_of};
ghost use Rattle.cdc_sched.specs.Tail.{tail_event};

use crate::progress::Progress;
use crate::refused::refused;
use cdc_base::{Gathered, List, Sink, SinkFault};
use cdc_epoch::{Engine, Outcome, Tally};
use cdc_fabric::Fabric;
use cdc_machine::Effect;
use cdc_prog::{Piece, opens, put_piece};
use cdc_sched::{Event, EventRefusal, Events, Tail};

/// How a run ended, what it counted, and whether the last line of its output is open.
#[derive(Clone, Copy)]
pub struct Played {
    pub end: Outcome,
    pub tally: Tally,
    pub is_open: bool,
}

// Whether a piece has bytes: a text has, where it is there.
fn is_there(texts: &[List<u8>], piece: Piece) -> bool
    ensures there { result ≡ true → IsThere (length texts.now) piece }
    ensures gone { result ≡ false → bytes_of_piece texts.now piece ≡ [] }
{
    match piece {
        Piece::Text(number) => (number as usize) < texts.len(),
        _ => true,
    }
}

// Gathers a piece, and says whether a line is open behind it. A text that is not there has no bytes.
#[inline(never)]
fn say<K: Sink>(
    out: &mut K,
    gathered: &mut Gathered,
    texts: &[List<u8>],
    piece: Piece,
    is_open: bool,
) -> Result<bool, SinkFault>
    ensures ok { OnOk result (HandsOn (K.taken out.old) (K.taken out.new) (waiting gathered.old ++ bytes_of_piece texts.now piece) (waiting gathered.new)) }
    ensures failed { OnErr result (GrewInPart (K.taken out.old) (K.taken out.new) (waiting gathered.old ++ bytes_of_piece texts.now piece)) }
    ensures cause { HasCause (K.faults out.old) (K.faults out.new) result }
    ensures line { IfOk result (λ later. later ≡ opened is_open (bytes_of_piece texts.now piece)) }
{
    if !is_there(texts, piece) {
        return Ok(is_open);
    }
    put_piece(out, gathered, texts, piece)?;
    Ok(opens(texts, piece, is_open))
}

// Gathers what an event prints, and says whether a line is open behind it.
#[inline(always)]
fn say_effect<K: Sink>(
    out: &mut K,
    gathered: &mut Gathered,
    texts: &[List<u8>],
    effect: Effect,
    is_open: bool,
) -> Result<bool, SinkFault>
    ensures ok { OnOk result (HandsOn (K.taken out.old) (K.taken out.new) (waiting gathered.old ++ bytes_of texts.now (piece_in effect)) (waiting gathered.new)) }
    ensures failed { OnErr result (GrewInPart (K.taken out.old) (K.taken out.new) (waiting gathered.old ++ bytes_of texts.now (piece_in effect))) }
    ensures cause { HasCause (K.faults out.old) (K.faults out.new) result }
    ensures line { IfOk result (λ later. later ≡ opened is_open (bytes_of texts.now (piece_in effect))) }
{
    match effect {
        Effect::Printed(piece) => say(out, gathered, texts, piece, is_open),
        _ => Ok(is_open),
    }
}

// Applies an event, gathers what it prints, and counts it.
#[inline(always)]
fn apply_event<F: Fabric, K: Sink>(
    machine: &mut Engine<F>,
    event: Event,
    progress: &mut Progress,
    gathered: &mut Gathered,
    out: &mut K,
) -> Result<Effect, SinkFault>
    requires proc { processor event < F.procs machine.old.side }
    requires can { CanReplay F.Fabric machine.old }
    requires playing { (o : Opening F) × (applied : Items MachineEvent) × Playing F.Fabric o applied machine.old progress.old (waiting gathered.old) (K.taken out.old) }
    requires running { progress.old.end ≡ None }
    requires some { 1 ≤ progress.old.left }
    ensures plays { (o : Opening F) (applied : Items MachineEvent) → Playing F.Fabric o applied machine.old progress.old (waiting gathered.old) (K.taken out.old)
        → OnOk result (Playing F.Fabric o (event ∷ applied) machine.new progress.new (waiting gathered.new) (K.taken out.new)) }
    ensures broken { (o : Opening F) (applied : Items MachineEvent) → Playing F.Fabric o applied machine.old progress.old (waiting gathered.old) (K.taken out.old)
        → OnErr result (Broken F.Fabric o (event ∷ applied) machine.new progress.new (K.taken out.new)) }
    ensures effect { (o : Opening F) (applied : Items MachineEvent) → Playing F.Fabric o applied machine.old progress.old (waiting gathered.old) (K.taken out.old)
        → IfOk result (λ effect. effect ≡ effect_of F.Fabric o applied machine.old.side event) }
    ensures can { CanReplay F.Fabric machine.new }
    ensures procs { F.procs machine.new.side ≡ F.procs machine.old.side }
    ensures cause { HasCause (K.faults out.old) (K.faults out.new) result }
{
    let effect = machine.apply(event);
    progress.count(effect);
    progress.is_open = say_effect(out, gathered, machine.texts(), effect, progress.is_open)?;
    Ok(effect)
}

// Passes over the events that are the same as an idle one and come directly behind it: they are idle, too. An eviction is
// applied each time.
#[inline(never)]
fn pass_idle<E: Events>(events: &mut E, event: Event, effect: Effect, progress: &mut Progress)
    requires last { E.last events.old ≡ Some (Ok (Some event)) }
    requires room { progress.old.idle + progress.old.left < 2 ^ 64 }
    ensures passed { (n : ℕ) × (n ≤ progress.old.left) × (progress.new ≡ passed n progress.old) × (0 < n → IsIdleAgain event effect) × Skipped event (E.told events.old) (E.told events.new) n }
    ensures left { E.left events.new ≤ E.left events.old }
    ensures events { SameEvents E.Events events.old events.new }
{
    if let Event::Evict(_, _) = event {
        return;
    }
    if let Effect::Idle = effect {
        let passed = events.pass_same(progress.left);
        progress.pass(passed);
    }
}

// Applies a listed event, and those that are the same and idle. Where the machine has ended, or no event may be applied
// any more, they are passed over.
fn take_event<F: Fabric, E: Events, K: Sink>(
    machine: &mut Engine<F>,
    events: &mut E,
    event: Event,
    progress: &mut Progress,
    gathered: &mut Gathered,
    out: &mut K,
) -> Result<(), SinkFault>
    requires proc { processor event < F.procs machine.old.side }
    requires last { E.last events.old ≡ Some (Ok (Some event)) }
    requires can { CanReplay F.Fabric machine.old }
    requires playing { (o : Opening F) × (applied : Items MachineEvent) × Playing F.Fabric o applied machine.old progress.old (waiting gathered.old) (K.taken out.old) }
    ensures plays { (o : Opening F) (applied : Items MachineEvent) → Playing F.Fabric o applied machine.old progress.old (waiting gathered.old) (K.taken out.old)
        → OnOk result ((more : Items MachineEvent) × Playing F.Fabric o more machine.new progress.new (waiting gathered.new) (K.taken out.new)
        × TakesOn o event (E.told events.old) (E.told events.new) progress.old.left applied progress.new.left more) }
    ensures broken { (o : Opening F) (applied : Items MachineEvent) → Playing F.Fabric o applied machine.old progress.old (waiting gathered.old) (K.taken out.old)
        → OnErr result (Broken F.Fabric o (event ∷ applied) machine.new progress.new (K.taken out.new)
        × ((t : Told) → E.told events.old ≡ Some t → Begins o (event ∷ t.events) t.bad progress.old.left applied (event ∷ applied))) }
    ensures can { CanReplay F.Fabric machine.new }
    ensures procs { F.procs machine.new.side ≡ F.procs machine.old.side }
    ensures left { E.left events.new ≤ E.left events.old }
    ensures events { SameEvents E.Events events.old events.new }
    ensures cause { HasCause (K.faults out.old) (K.faults out.new) result }
{
    if !progress.can_go_on() {
        events.pass_same(u64::MAX);
        return Ok(());
    }
    let effect = apply_event(machine, event, progress, gathered, out)?;
    pass_idle(events, event, effect, progress);
    Ok(())
}

// Reads the listed events and applies those that may be applied.
fn play_listed<F: Fabric, E: Events, K: Sink>(
    machine: &mut Engine<F>,
    events: &mut E,
    progress: &mut Progress,
    gathered: &mut Gathered,
    out: &mut K,
) -> Result<(), Outcome>
    requires procs { E.procs events.old ≡ F.procs machine.old.side }
    requires can { CanReplay F.Fabric machine.old }
    requires playing { (o : Opening F) × (applied : Items MachineEvent) × Playing F.Fabric o applied machine.old progress.old (waiting gathered.old) (K.taken out.old) }
    ensures plays { (o : Opening F) (applied : Items MachineEvent) → Playing F.Fabric o applied machine.old progress.old (waiting gathered.old) (K.taken out.old)
        → ListedEnd F.Fabric o (E.told events.old) progress.old.left applied result machine.new progress.new (waiting gathered.new) (K.taken out.new) }
    ensures can { CanReplay F.Fabric machine.new }
    ensures procs { F.procs machine.new.side ≡ F.procs machine.old.side }
    ensures read { EndsReading E.Events events.old events.new (end_by result None) }
    ensures cause { HasSinkCause (K.faults out.old) (K.faults out.new) (end_by result None) }
{
    loop {
        match events.next_event() {
            Err(refusal) => return Err(refused(refusal)),
            Ok(None) => return Ok(()),
            Ok(Some(event)) => match take_event(machine, events, event, progress, gathered, out) {
                Ok(()) => {}
                Err(_) => return Err(Outcome::SinkFault),
            },
        }
    }
}

// Applies the events of a tail until the machine has ended or none may be applied any more.
#[inline(always)]
fn play_tail<F: Fabric, K: Sink>(
    machine: &mut Engine<F>,
    tail: &mut Tail,
    progress: &mut Progress,
    gathered: &mut Gathered,
    out: &mut K,
) -> Result<(), SinkFault>
    requires procs { tail_procs tail.old ≡ F.procs machine.old.side }
    requires can { CanReplay F.Fabric machine.old }
    requires playing { (o : Opening F) × (applied : Items MachineEvent) × Playing F.Fabric o applied machine.old progress.old (waiting gathered.old) (K.taken out.old) }
    ensures plays { (o : Opening F) (applied : Items MachineEvent) → Playing F.Fabric o applied machine.old progress.old (waiting gathered.old) (K.taken out.old)
        → (kind : KindOfTail) (procs lines k : ℕ) → TailStands kind procs lines k tail.old
        → OnOk result (Playing F.Fabric o (with_tail (has_ended o.code o.records) (tail_event kind procs lines) progress.old.left k applied) machine.new progress.new (waiting gathered.new) (K.taken out.new)) }
    ensures broken { (o : Opening F) (applied : Items MachineEvent) → Playing F.Fabric o applied machine.old progress.old (waiting gathered.old) (K.taken out.old)
        → (kind : KindOfTail) (procs lines k : ℕ) → TailStands kind procs lines k tail.old
        → OnErr result ((events more : Items MachineEvent) × Broken F.Fabric o events machine.new progress.new (K.taken out.new)
        × (with_tail (has_ended o.code o.records) (tail_event kind procs lines) progress.old.left k applied ≡ more ++ events)) }
    ensures cause { HasCause (K.faults out.old) (K.faults out.new) result }
{
    while progress.can_go_on() {
        let Some(event) = tail.next() else {
            return Ok(());
        };
        apply_event(machine, event, progress, gathered, out)?;
    }
    Ok(())
}

// Applies the listed events and then those of the tail.
fn play<F: Fabric, E: Events, K: Sink>(
    machine: &mut Engine<F>,
    events: &mut E,
    tail: &mut Tail,
    progress: &mut Progress,
    gathered: &mut Gathered,
    out: &mut K,
) -> Result<(), Outcome>
    requires procs { E.procs events.old ≡ F.procs machine.old.side }
    requires tail_procs { tail_procs tail.old ≡ F.procs machine.old.side }
    requires can { CanReplay F.Fabric machine.old }
    requires playing { (o : Opening F) × (applied : Items MachineEvent) × Playing F.Fabric o applied machine.old progress.old (waiting gathered.old) (K.taken out.old) }
    ensures plays { (o : Opening F) → Playing F.Fabric o [] machine.old progress.old (waiting gathered.old) (K.taken out.old)
        → (kind : KindOfTail) (procs lines : ℕ) → TailStands kind procs lines 0 tail.old
        → PlayedOut F.Fabric o (E.told events.old) (tail_event kind procs lines) result machine.new progress.new (waiting gathered.new) (K.taken out.new) }
    ensures read { EndsReading E.Events events.old events.new (end_by result None) }
    ensures cause { HasSinkCause (K.faults out.old) (K.faults out.new) (end_by result None) }
{
    match play_listed(machine, events, progress, gathered, out) {
        Ok(()) => {}
        Err(end) => return Err(end),
    }
    match play_tail(machine, tail, progress, gathered, out) {
        Ok(()) => Ok(()),
        Err(_) => Err(Outcome::SinkFault),
    }
}

// How a run ended: by the refusal of an event or a failure of the sink, as the machine ended, or before that.
fn end_of_run(played: Result<(), Outcome>, machine: Option<Outcome>) -> Outcome
    ensures { result ≡ end_by played machine }
{
    match played {
        Err(end) => end,
        Ok(()) => machine.unwrap_or(Outcome::Stopped),
    }
}

// Hands out what waits behind the output of a run that ended so, but where reading or writing has failed.
fn hand_out<K: Sink>(end: Outcome, gathered: &mut Gathered, out: &mut K) -> Outcome
    ensures { HandsOut end result (K.taken out.old) (K.taken out.new) (waiting gathered.old) (K.faults out.old) (K.faults out.new) }
{
    match end {
        Outcome::ReadFault | Outcome::SinkFault => end,
        _ => match gathered.flush(out) {
            Ok(()) => end,
            Err(_) => Outcome::SinkFault,
        },
    }
}

/// Applies the listed events and then those of the tail to a machine that is before its first event, until the machine has
/// ended or `bound` of them are applied. Listed events are read to their end also where they are not applied any more.
///
/// It writes the output of the run and answers how the run ended, its tally, and whether the last line of the output is open.
pub fn replay<F: Fabric, E: Events, K: Sink>(
    machine: &mut Engine<F>,
    events: &mut E,
    tail: &mut Tail,
    bound: u64,
    out: &mut K,
) -> Played
    requires procs { E.procs events.old ≡ F.procs machine.old.side }
    requires tail { tail_procs tail.old ≡ F.procs machine.old.side }
    requires first_of_tail { (kind : KindOfTail) × (procs : ℕ) × (lines : ℕ) × TailStands kind procs lines 0 tail.old }
    requires first { StandsFor F.Fabric machine.old [] }
    requires can { CanReplay F.Fabric machine.old }
    ensures replays { (kind : KindOfTail) (procs lines : ℕ) → TailStands kind procs lines 0 tail.old
        → Replays F.Fabric (opening_of machine.old bound (K.taken out.old)) (E.told events.old) (tail_event kind procs lines) result machine.new (K.taken out.new) }
    ensures read { EndsReading E.Events events.old events.new result.end }
    ensures cause { HasSinkCause (K.faults out.old) (K.faults out.new) result.end }
{
    let mut gathered = Gathered::new();
    let mut progress = Progress::start(bound);
    let played = play(machine, events, tail, &mut progress, &mut gathered, out);
    let end = end_of_run(played, progress.end);
    Played {
        end: hand_out(end, &mut gathered, out),
        tally: Tally {
            events: bound - progress.left,
            idle: progress.idle,
        },
        is_open: progress.is_open,
    }
}
