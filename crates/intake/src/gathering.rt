//! Gathering: the wires of a batch parsed by several senders at once.
ghost use Rattle.std.specs.Prelude.{◌≡◌, ◌≢◌, ℕ, ◌+◌, ◌%◌, ◌<◌, ◌≤◌, ◌-◌, ◌^◌, ◌++◌, ◌∷◌, [], List, length, map, All, IfOk, OnOk, Ok, slice_index_or, slice_set};
ghost use Rattle.sol_base.specs.Limits.{max_senders, max_transactions};
ghost use Rattle.message_codec.specs.Parsing.{parsed_of};
ghost use Rattle.intake.specs.declared.seats.SendSeat.{SendSeat};
ghost use Rattle.intake.specs.declared.ticket.Ticket.{Ticket};
ghost use Rattle.intake.specs.Gathering.{ArriveByShares, CarriesShares, EachArrivesOnce, HasSentShare, HaveSentShares, arrival_of};
ghost use Rattle.intake.specs.Layout.{LeadsTo, LeadsToParsed};
ghost use Rattle.intake.specs.Passes.{AreSharesBehind, HasPassedShare, IsShareBehind, no_passes};
ghost use Rattle.intake.specs.Seats.{AreFresh, HasSent, IsFresh, IsSendSeatOf, next_ticket, sender_of, sent_by};

use crate::gate::{GateLog, SendGate};
use crate::ring::{Intake, Opened};
use crate::seats::SendSeat;
use crate::ticket::{Full, Ticket};
use message_codec::{Parsed, WireFault, parse};
use side_by_side::map_vec;
use sol_base::{Blob, Items, OutOfMemory};
use std::alloc::Global;
use std::sync::Wait;
use std::thread::Threads;
use std::{mem, thread};

/// That the ticket of a position arrived, and of whom.
#[derive(Clone, Copy, PartialEq, Eq)]
pub struct Arrival {
    pub sender: u32,
    pub position: u32,
}

/// What the senders parsed, by position, and the order in which it arrived.
#[derive(Drop)]
pub struct Gathered {
    pub parsed: Items<Parsed>,
    pub arrivals: Items<Arrival>,
}

/// Parses the wires by several senders at once, each from a thread of its own. Sender s parses the
/// positions p with `p % senders == s`, ascending, and passes the gate before each.
pub fn gather<R: Threads + Wait + Sync, G: SendGate>(
    rt: &R,
    alloc: Global,
    wires: &Items<Blob>,
    senders: u32,
    gate: &G,
) -> Result<Gathered, OutOfMemory>
    requires wires { length wires.now ≤ max_transactions }
    requires senders { (1 ≤ senders) × (senders ≤ max_senders) }
    ensures parsed { IfOk result (λ g. g.parsed ≡ map parsed_of wires.now) }
    ensures once { IfOk result (λ g. EachArrivesOnce (length wires.now) g.arrivals) }
    ensures ascending { IfOk result (λ g. ArriveByShares (length wires.now) senders g.arrivals) }
    ensures behind { IfOk result
        (λ _. (p : ℕ) → p < length wires.now → G.is_passed gate.now (p % senders) p) }
{
    if wires.is_empty() {
        return Ok(Gathered {
            parsed: Items::new(alloc),
            arrivals: Items::new(alloc),
        });
    }
    let wires = wires.as_slice();
    let Opened {
        intake,
        seats,
        taker,
    } = Intake::new(alloc, wires.len() as u32, senders)?;
    let sent = send_all(rt, alloc, &intake, wires, senders, gate, seats)?;
    let seats = all_seats(alloc, sent)?;
    let tickets = intake.close(rt, seats, taker)?;
    laid_out(alloc, wires, senders, tickets)
}

/// The senders at work, and their seats once all are done.
fn send_all<R: Threads + Wait + Sync, G: SendGate>(
    rt: &R,
    alloc: Global,
    intake: &Intake,
    wires: &[Blob],
    senders: u32,
    gate: &G,
    seats: Items<SendSeat>,
) -> Result<Vec<Result<SendSeat, OutOfMemory>>, OutOfMemory>
    requires wires { length wires.now ≤ max_transactions }
    requires senders { 1 ≤ senders }
    requires seats { AreFresh intake.now seats }
    ensures count { IfOk result (λ sent. length sent.items ≡ length seats) }
    ensures each { IfOk result
        (λ sent. HaveSentShares intake.now wires.now senders seats sent.items) }
    ensures behind { IfOk result (λ sent. AreSharesBehind (G.is_passed gate.now) (length wires.now)
        senders seats sent.items) }
{
    let sent = map_vec(
        rt,
        alloc,
        seats.into_vec(),
        &|seat: SendSeat| -> Result<SendSeat, OutOfMemory>
            requires { (length wires.now ≤ max_transactions) × (1 ≤ senders) × IsFresh intake.now
                seat }
            ensures sent { IfOk result
                (HasSentShare intake.entry.now wires.entry.now senders (sender_of seat)) }
            ensures behind { IfOk result
                (λ _. IsShareBehind (G.is_passed gate.entry.now) (length wires.entry.now) senders
                (sender_of seat)) }
        { send_share(rt, alloc, intake, wires, senders, gate, seat) },
    )?;
    Ok(sent)
}

/// One sender at work, until it is done or finds no memory.
fn send_share<R: Wait, G: SendGate>(
    rt: &R,
    alloc: Global,
    intake: &Intake,
    wires: &[Blob],
    senders: u32,
    gate: &G,
    seat: SendSeat,
) -> Result<SendSeat, OutOfMemory>
    requires wires { length wires.now ≤ max_transactions }
    requires senders { 1 ≤ senders }
    requires seat { IsFresh intake.now seat }
    ensures sent { IfOk result (HasSentShare intake.now wires.now senders (sender_of seat)) }
    ensures behind { IfOk result
        (λ _. IsShareBehind (G.is_passed gate.now) (length wires.now) senders (sender_of seat)) }
{
    let mut log = GateLog::new(gate, seat.sender, senders);
    send_behind_gate(rt, alloc, intake, wires, senders, &mut log, seat)
}

/// One sender at work, which has its gate in the record of its passes alone: it passes the gate before
/// each position of its share, and before no other.
fn send_behind_gate<R: Wait, G: SendGate>(
    rt: &R,
    alloc: Global,
    intake: &Intake,
    wires: &[Blob],
    senders: u32,
    log: &mut GateLog<'_, G>,
    mut seat: SendSeat,
) -> Result<SendSeat, OutOfMemory>
    requires wires { length wires.now ≤ max_transactions }
    requires senders { 1 ≤ senders }
    requires seat { IsFresh intake.now seat }
    requires none { log.old.passes ≡ no_passes (sender_of seat) senders }
    ensures sent { IfOk result
        (HasSentShare intake.now wires.now senders (sender_of seat)) }
    ensures passed { OnOk result
        (HasPassedShare (G.is_passed log.old.gate.now) (length wires.now) senders (sender_of seat)
        log.new.passes) }
{
    let sender = seat.sender;
    let count = wires.len() as u32;
    for position in 0..count {
        if position % senders == sender {
            log.pass(position);
            let parsed = parse(alloc, wires[position as usize].as_slice())?;
            send(rt, intake, &mut seat, position, parsed);
        } else {
            log.skip(position);
        }
    }
    Ok(seat)
}

/// Offers the ticket until there is room for it.
fn send<R: Wait>(rt: &R, intake: &Intake, seat: &mut SendSeat, position: u32, parsed: Parsed)
    requires seat { IsSendSeatOf intake.now seat.old }
    requires room { length (sent_by seat.old) < 2 ^ 32 - 1 }
    ensures seat { IsSendSeatOf intake.now seat.new × (sender_of seat.new ≡ sender_of seat.old) }
    ensures sent { HasSent seat.old (next_ticket seat.old position parsed) seat.new }
{
    let mut unsent = parsed;
    for _ in rt.forever() {
        match intake.offer(rt, seat, position, unsent) {
            Ok(()) => return,
            Err(full) => {
                let Full { parsed } = full;
                unsent = parsed;
                thread::yield_now();
            }
        }
    }
    unreachable!()
}

/// The seats of all senders, if each is done.
fn all_seats(
    alloc: Global,
    sent: Vec<Result<SendSeat, OutOfMemory>>,
) -> Result<Items<SendSeat>, OutOfMemory>
    ensures { IfOk result (λ seats. map (λ s. Ok s) seats ≡ sent.items) }
{
    let mut seats = Items::with_capacity(alloc, sent.len())?;
    for done in sent {
        seats.push(done?)?;
    }
    Ok(seats)
}

/// What the tickets carry, by position, and their arrivals in the order of the tickets.
fn laid_out(
    alloc: Global,
    wires: &[Blob],
    senders: u32,
    tickets: Items<Ticket>,
) -> Result<Gathered, OutOfMemory>
    requires { CarriesShares wires.now senders tickets }
    ensures parsed { IfOk result (λ g. g.parsed ≡ map parsed_of wires.now) }
    ensures arrivals { IfOk result (λ g. g.arrivals ≡ map arrival_of tickets) }
{
    // The tickets of one sender come by position.
    if senders == 1 {
        return as_they_come(alloc, tickets);
    }
    let arrivals = arrivals_of(alloc, tickets.as_slice())?;
    let places = places_of(alloc, wires, tickets.as_slice())?;
    let parsed = by_position(alloc, wires, places.as_slice(), tickets)?;
    Ok(Gathered { parsed, arrivals })
}

/// What the tickets carry, and their arrivals, in the order of the tickets.
fn as_they_come(alloc: Global, tickets: Items<Ticket>) -> Result<Gathered, OutOfMemory>
    ensures parsed { IfOk result (λ g. g.parsed ≡ map (λ t. t.parsed) tickets) }
    ensures arrivals { IfOk result (λ g. g.arrivals ≡ map arrival_of tickets) }
{
    let arrivals = arrivals_of(alloc, tickets.as_slice())?;
    let parsed = tickets
        .into_vec()
        .into_iter()
        .map(|ticket| ticket.parsed)
        .collect(alloc)?;
    Ok(Gathered {
        parsed: Items::from_vec(parsed),
        arrivals,
    })
}

/// The arrivals of the tickets, in their order.
fn arrivals_of(alloc: Global, tickets: &[Ticket]) -> Result<Items<Arrival>, OutOfMemory>
    ensures { IfOk result (λ arrivals. arrivals ≡ map arrival_of tickets.now) }
{
    let arrivals = tickets
        .iter()
        .map(|ticket| Arrival {
            sender: ticket.sender,
            position: ticket.position,
        })
        .collect(alloc)?;
    Ok(Items::from_vec(arrivals))
}

/// For each position the place of its ticket in the list.
fn places_of(alloc: Global, wires: &[Blob], tickets: &[Ticket]) -> Result<Vec<usize>, OutOfMemory>
    requires { All (λ t. t.position < length wires.now) tickets.now }
    ensures count { IfOk result (λ places. length places.items ≡ length wires.now) }
    ensures places { IfOk result
        (λ places. All (λ t. LeadsTo places.items tickets.now t.position) tickets.now) }
{
    let mut places = Vec::from_elem(alloc, 0, wires.len())?;
    for place in 0..tickets.len() {
        note(&mut places, &tickets[place], place);
    }
    Ok(places)
}

/// Notes the place of a ticket.
fn note(places: &mut Vec<usize>, ticket: &Ticket, place: usize)
    requires { ticket.now.position < length places.old.items }
    ensures { places.new.items ≡ slice_set places.old.items ticket.now.position place }
{
    places[ticket.position as usize] = place;
}

/// What the tickets carry, by position.
fn by_position(
    alloc: Global,
    wires: &[Blob],
    places: &[usize],
    tickets: Items<Ticket>,
) -> Result<Items<Parsed>, OutOfMemory>
    requires places { length places.now ≡ length wires.now }
    requires tickets { (p : ℕ) → p < length wires.now
        → LeadsToParsed wires.now places.now tickets p }
    ensures { IfOk result (λ parsed. parsed ≡ map parsed_of wires.now) }
{
    let mut tickets = tickets.into_vec();
    let mut parsed = Items::with_capacity(alloc, wires.len())?;
    for position in 0..wires.len() {
        parsed.push(take_parsed(&mut tickets, places[position]))?;
    }
    Ok(parsed)
}

/// Takes out what the ticket at the place carries.
fn take_parsed(tickets: &mut Vec<Ticket>, place: usize) -> Parsed
    requires { place < length tickets.old.items }
    ensures taken { (d : Ticket) → result ≡ (slice_index_or tickets.old.items place d).parsed }
    ensures count { length tickets.new.items ≡ length tickets.old.items }
    ensures others { (k : ℕ) → (d : Ticket) → k ≢ place
        → slice_index_or tickets.new.items k d ≡ slice_index_or tickets.old.items k d }
{
    mem::replace(
        &mut tickets[place].parsed,
        Parsed::Bad(WireFault::OutOfMemory),
    )
}
