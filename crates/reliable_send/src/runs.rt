//! Whole runs of a sending side, fresh at first.

ghost use Rattle.std.specs.Prelude.{◌≡◌, ◌≤◌, ◌++◌, map, IfOk, OnOk};
ghost use Rattle.reliable_send.specs.Sending.{Sending, begun, ready, due};
ghost use Rattle.reliable_send.specs.Sides.{Stands};
ghost use Rattle.reliable_send.specs.Runs.{after, offered_if_room, sent_all, sent_by, sent_in};

use crate::side::{SendSide, TextFull};
use std::alloc::Global;
use vpn_base::{Bytes, Moment, NoMemory, Or};

/// What happens to a sending side.
#[derive(Debug, Drop)]
pub enum SendingEvent {
    /// Bytes are offered.
    Offer(Bytes),
    /// The peer's packet 0 is here.
    Started,
    /// The piece of this id was acknowledged.
    Acked(u32),
    /// What may be sent is sent, at this moment.
    Send(Moment),
    /// What is due is sent again, at this moment.
    Tick(Moment),
}

fn send_ready(
    side: &mut SendSide,
    now: Moment,
    log: &mut Vec<(Moment, u32)>,
) -> Result<(), NoMemory>
    ensures told { OnOk result ((h : Sending) → Stands side.old h → log.new.items ≡ log.old.items ++ map (λ p. (now, p.0)) (ready h)) }
    ensures stands { OnOk result ((h : Sending) → Stands side.old h → Stands side.new (sent_all (ready h) now.0 h)) }
{
    for _i in 0..side.ready() {
        if let Some(piece) = side.next_piece() {
            let id = piece.id;
            side.count_sent(id, now);
            log.push((now, id))?;
        }
    }
    Ok(())
}

fn send_due(side: &mut SendSide, now: Moment, log: &mut Vec<(Moment, u32)>) -> Result<(), NoMemory>
    ensures told { OnOk result ((h : Sending) → Stands side.old h → log.new.items ≡ log.old.items ++ map (λ p. (now, p.0)) (due h now.0)) }
    ensures stands { OnOk result ((h : Sending) → Stands side.old h → Stands side.new (sent_all (due h now.0) now.0 h)) }
{
    for _i in 0..side.due_count(now) {
        if let Some(piece) = side.next_due(now) {
            let id = piece.id;
            side.count_sent(id, now);
            log.push((now, id))?;
        }
    }
    Ok(())
}

fn offer_if_room(side: &mut SendSide, bytes: &[u8]) -> Result<(), NoMemory>
    ensures { OnOk result ((h : Sending) → Stands side.old h → Stands side.new (offered_if_room h bytes.now)) }
{
    match side.offer(bytes) {
        Ok(()) => Ok(()),
        Err(Or::Why(TextFull)) => Ok(()),
        Err(Or::Memory) => Err(NoMemory),
    }
}

fn take_event(
    side: &mut SendSide,
    event: &SendingEvent,
    log: &mut Vec<(Moment, u32)>,
) -> Result<(), NoMemory>
    ensures told { OnOk result ((h : Sending) → Stands side.old h → log.new.items ≡ log.old.items ++ sent_by h event.now) }
    ensures stands { OnOk result ((h : Sending) → Stands side.old h → Stands side.new (after h event.now)) }
{
    match event {
        SendingEvent::Offer(bytes) => offer_if_room(side, bytes.as_slice()),
        SendingEvent::Started => {
            side.peer_started();
            Ok(())
        }
        SendingEvent::Acked(id) => {
            side.acked(*id);
            Ok(())
        }
        SendingEvent::Send(now) => send_ready(side, *now, log),
        SendingEvent::Tick(now) => send_due(side, *now, log),
    }
}

/// What a side of this timeout in seconds, fresh at first, sends in a run of events: the moment and the
/// id of each piece, in order. An offer that is full changes nothing.
pub fn run_sending(
    alloc: Global,
    timeout_secs: u32,
    events: &[SendingEvent],
) -> Result<Vec<(Moment, u32)>, NoMemory>
    requires some { 1 ≤ timeout_secs }
    requires most { timeout_secs ≤ 60 }
    ensures { IfOk result (λ log. log.items ≡ sent_in events.now (begun timeout_secs)) }
{
    let mut side = SendSide::new(alloc, timeout_secs)?;
    let mut log = Vec::new(alloc);
    for event in events {
        take_event(&mut side, event, &mut log)?;
    }
    Ok(log)
}
