//! One key session's control link.

ghost use Rattle.std.specs.Prelude.{◌≡◌, ◌≢◌, List, [], ◌+◌, ◌<◌, ◌≤◌, ℕ, false, None, Some, length, IsOk, IfOk, OnOk, OnErr, if◌then◌else◌};
ghost use Rattle.std.specs.Result.{is_err};
ghost use Rattle.opcode_codec.specs.ControlText.{ControlForm, control_form};
ghost use Rattle.vpn_base.specs.Acks.{acked, AreAcks};
ghost use Rattle.reliable_send.specs.Sending.{Sending, cut, piece_count};
ghost use Rattle.reliable_send.specs.Sides.{IsNotMemory, Stands};
ghost use Rattle.reliable_recv.specs.Receiving.{Receiving};
ghost use Rattle.reliable_recv.specs.Sides as recv_sides;
ghost use Rattle.control_link.specs.Envelope.{EnvelopeHistory, EnvelopeStands};
ghost use Rattle.control_link.specs.Links.{BlankStands, IsReset, KeptLink, Link, LinkStands, link_begun, read_of, written_of};
ghost use Rattle.control_link.specs.Calls.{Left, Told, TellsGot, after_given, after_text, all_acked, counted_ids, given_by, got_by, next_text, past_reset, put_if, received, said, started_by, tells_spent, ticked, unchanged, unless_memory, with_ready};
ghost use Rattle.control_link.specs.internal.Sending.{with_pending};

use crate::blank::LinkBlank;
use crate::envelope::Envelope;
use crate::sending::{MOST, NO_ACKS, ROOM, Route, acked_ids, flush};
use opcode_codec::{ControlView, Opcode};
use packet_ids::Spent;
use reliable_recv::{Got, RecvSide};
use reliable_send::{SendSide, TextFull};
use std::alloc::Global;
use std::marker::Model;
use tls_crypt::Wrap;
use vpn_base::{Acks, Addr, Bytes, Conn, Moment, NoMemory, Or, Sid};
use vpn_links::{ControlText, Outbox};

/// Why a control link ends.
#[derive(Clone, Copy, Debug, PartialEq, Eq)]
pub enum LinkEnd {
    /// Too much text waits or is not acknowledged.
    TextFull,
    /// Every wrap id was used, and one more is needed.
    WrapSpent,
}

/// One key session's control link (OpenVPN network protocol, reliability layer of the control channel):
/// one text in, one text out. Each call stages its control datagrams in an outbox. What the link keeps is
/// less than what was sent and taken; its contracts are over all of it.
#[derive(Drop)]
pub struct ControlLink {
    conn: Conn,
    kid: u8,
    first: Opcode,
    sending: SendSide,
    receiving: RecvSide,
    spent: bool,
}

impl Model for ControlLink {
    ghost use Rattle.control_link.specs.Links.{KeptLink};
    ghost use Rattle.control_link.specs.internal.Sound.{IsSound};

    ghost Value = { KeptLink };

    ghost view = { λ l. record { conn = l.conn; kid = l.kid; first = l.first; sending = l.sending; receiving = l.receiving; spent = l.spent } };

    ghost invariant = { λ l. IsSound l.kid l.first l.receiving.kept.waiting };
}

// What comes of a packet; one without a packet id is not taken.
fn put_packet(side: &mut RecvSide, id: Option<u32>, payload: &[u8]) -> Result<Got, NoMemory>
    requires { length side.old.kept.waiting < 8 }
    ensures got { IfOk result (λ g. (r : Receiving) → recv_sides.Stands side.old r → g ≡ got_by r id) }
    ensures ok { OnOk result ((r : Receiving) → recv_sides.Stands side.old r → recv_sides.Stands side.new (put_if r id payload.now)) }
    ensures err { OnErr result (side.new ≡ side.old) }
    ensures few { length side.new.kept.waiting ≤ length side.old.kept.waiting + 1 }
    ensures fits { length payload.now ≤ side.old.spare → IsOk result }
    ensures spare { IfOk result (λ g. g ≢ Got.New → side.old.spare ≤ side.new.spare) }
{
    match id {
        None => Ok(Got::Ahead),
        Some(id) => side.put(id, payload),
    }
}

// Counts the acknowledgements of a packet where the receiver's session id beside them is ours.
fn count_acks(side: &mut SendSide, own: Sid, v: &ControlView<'_>)
    requires { v.now.acks.count ≤ 8 }
    ensures stands { (s : Sending) → Stands side.old s → Stands side.new (all_acked (counted_ids own v.now.remote (acked v.now.acks)) s) }
    ensures spare { side.old.spare ≤ side.new.spare }
{
    let Some(sid) = v.remote else {
        return;
    };
    if sid.0 != own.0 {
        return;
    }
    for id in acked_ids(&v.acks) {
        side.acked(*id);
    }
}

// The packet 0 of the other end is here.
fn start_if_first(side: &mut SendSide, id: Option<u32>)
    ensures stands { (s : Sending) → Stands side.old s → Stands side.new (started_by id s) }
    ensures spare { side.old.spare ≤ side.new.spare }
{
    if let Some(0) = id {
        side.peer_started();
    }
}

// Reads payload 0, where nothing was read yet.
fn pass_reset(side: &mut RecvSide)
    ensures stands { (r : Receiving) → recv_sides.Stands side.old r → recv_sides.Stands side.new (past_reset r) }
    ensures waiting { side.new.kept.waiting ≡ side.old.kept.waiting }
    ensures spare { side.old.spare ≤ side.new.spare }
{
    if side.read_count() == 0 {
        let _ = side.next_in_order();
    }
}

// The next payload of the text, where payload 0 was read.
fn next_payload(side: &mut RecvSide) -> Option<Bytes>
    ensures given { (r : Receiving) → recv_sides.Stands side.old r → result ≡ given_by r }
    ensures stands { (r : Receiving) → recv_sides.Stands side.old r → recv_sides.Stands side.new (after_given r) }
    ensures waiting { side.new.kept.waiting ≡ side.old.kept.waiting }
    ensures spare { side.old.spare ≤ side.new.spare }
{
    if side.read_count() == 0 {
        return None;
    }
    side.next_in_order()
}

impl ControlLink {
    /// A link of this engine connection and key id, whose piece 0 is this reset, with nothing taken. A piece
    /// is sent again so many seconds after its first sending.
    pub fn new(
        alloc: Global,
        conn: Conn,
        kid: u8,
        first: Opcode,
        timeout_secs: u32,
    ) -> Result<ControlLink, NoMemory>
        requires kid { kid < 8 }
        requires first { IsReset first }
        requires some { 1 ≤ timeout_secs }
        requires most { timeout_secs ≤ 60 }
        ensures stands { IfOk result (λ l. LinkStands l (link_begun conn kid first timeout_secs)) }
        ensures open { IfOk result (λ l. l.spent ≡ false) }
    {
        let blank = LinkBlank::make(alloc, timeout_secs)?;
        Ok(ControlLink::of_blank(blank, conn, kid, first))
    }

    /// A link of this engine connection and key id, whose piece 0 is this reset, with nothing taken. Its
    /// memory was taken ahead.
    #[tactic(auto, unfolding(crate::specs::Links::BlankStands, crate::specs::Links::LinkStands))]
    pub fn of_blank(blank: LinkBlank, conn: Conn, kid: u8, first: Opcode) -> ControlLink
        requires kid { kid < 8 }
        requires first { IsReset first }
        ensures stands { (timeout : ℕ) → BlankStands blank timeout → LinkStands result (link_begun conn kid first timeout) }
        ensures open { result.spent ≡ false }
        ensures room { result.receiving.spare ≡ blank.receiving.spare }
    {
        let LinkBlank { sending, receiving } = blank;
        ControlLink {
            conn,
            kid,
            first,
            sending,
            receiving,
            spent: false,
        }
    }

    /// Takes the room for the payload of one packet, of at most so many bytes. It is Ok where that room is
    /// there.
    pub fn reserve_payload(&mut self, bytes: usize) -> Result<(), NoMemory>
        ensures same { (l : Link) → LinkStands self.old l → LinkStands self.new l }
        ensures ok { OnOk result (bytes ≤ self.new.receiving.spare) }
        ensures fits { bytes ≤ self.old.receiving.spare → IsOk result }
        ensures grows { (self.old.receiving.spare ≤ self.new.receiving.spare) × (self.old.sending.spare ≤ self.new.sending.spare) }
        ensures spent { self.new.spent ≡ self.old.spent }
    {
        self.receiving.reserve(bytes)
    }

    /// Takes the room for one text of at most so many bytes. It is Ok where that room is there.
    pub fn reserve_text(&mut self, bytes: usize) -> Result<(), NoMemory>
        ensures same { (l : Link) → LinkStands self.old l → LinkStands self.new l }
        ensures ok { OnOk result (piece_count bytes ≤ self.new.sending.spare) }
        ensures enough { OnOk result ((text : List ℕ) → length text ≤ bytes → length (cut text) ≤ self.new.sending.spare) }
        ensures fits { piece_count bytes ≤ self.old.sending.spare → IsOk result }
        ensures grows { (self.old.receiving.spare ≤ self.new.receiving.spare) × (self.old.sending.spare ≤ self.new.sending.spare) }
        ensures spent { self.new.spent ≡ self.old.spent }
    {
        self.sending.reserve(bytes)
    }

    // Sends every piece that may be sent for the first time, or every one that is due again; the outbox has
    // the room.
    fn send_all<W: Wrap + Drop>(
        &mut self,
        acks: &Acks,
        again: bool,
        env: &mut Envelope<W>,
        remote: Sid,
        to: Addr,
        now: Moment,
        out: &mut Outbox,
    ) -> Result<(), Spent>
        requires open { self.old.spent ≡ false }
        requires acks { acks.now.count ≤ 8 }
        requires effects { 6 ≤ out.old.spare_effects }
        requires bytes { 7200 ≤ out.old.spare_bytes }
        ensures left { (l : Link) → (h : EnvelopeHistory) → LinkStands self.old l → EnvelopeStands W.wrapped env.old h →
            Left W.wrapped self.new env.new out.old out.new to (with_pending again l h (acked acks.now) remote now.0) }
        ensures answer { (l : Link) → (h : EnvelopeHistory) → LinkStands self.old l → EnvelopeStands W.wrapped env.old h →
            (with_pending again l h (acked acks.now) remote now.0).end ≡ (if is_err result then Some LinkEnd.WrapSpent else None) }
        ensures spent { self.new.spent ≡ is_err result }
        ensures room { (out.old.spare_effects ≤ out.new.spare_effects + 6) × (out.old.spare_bytes ≤ out.new.spare_bytes + 7200) }
        ensures spare { (self.old.receiving.spare ≤ self.new.receiving.spare) × (self.old.sending.spare ≤ self.new.sending.spare) }
    {
        let route = Route {
            kid: self.kid,
            first: self.first,
            remote,
            to,
        };
        let sent = flush(&mut self.sending, env, &route, acks, again, now, out);
        self.spent = sent.is_err();
        sent
    }

    // Makes the room that sending needs, and sends.
    fn send_where_room<W: Wrap + Drop>(
        &mut self,
        again: bool,
        env: &mut Envelope<W>,
        remote: Sid,
        to: Addr,
        now: Moment,
        out: &mut Outbox,
    ) -> Result<(), Or<LinkEnd>>
        requires { self.old.spent ≡ false }
        ensures left { (l : Link) → (h : EnvelopeHistory) → LinkStands self.old l → EnvelopeStands W.wrapped env.old h →
            Left W.wrapped self.new env.new out.old out.new to (unless_memory result (with_pending again l h [] remote now.0) (unchanged l h None)) }
        ensures answer { (l : Link) → (h : EnvelopeHistory) → LinkStands self.old l → EnvelopeStands W.wrapped env.old h →
            Told result (with_pending again l h [] remote now.0).end }
        ensures spent { self.new.spent ≡ tells_spent result }
        ensures room { (out.old.spare_effects ≤ out.new.spare_effects + 6) × (out.old.spare_bytes ≤ out.new.spare_bytes + 7200) }
        ensures fits { 6 ≤ out.old.spare_effects → 7200 ≤ out.old.spare_bytes → IsNotMemory result }
        ensures spare { (self.old.receiving.spare ≤ self.new.receiving.spare) × (self.old.sending.spare ≤ self.new.sending.spare) }
    {
        match out.reserve(MOST, MOST * ROOM) {
            Ok(()) => {}
            Err(NoMemory) => return Err(Or::Memory),
        }
        match self.send_all(&NO_ACKS, again, env, remote, to, now, out) {
            Ok(()) => Ok(()),
            Err(Spent) => Err(Or::Why(LinkEnd::WrapSpent)),
        }
    }

    /// Takes a packet: its acknowledgements count where its session id is ours, its payload is put, every
    /// piece that may be sent is sent, and the packet is acknowledged. WrapSpent comes exactly where a wrap
    /// with the last id was made and one more is needed; as many datagrams are staged then as ids reached,
    /// and the payload is put all the same. For a packet without a packet id the answer is Ahead. It takes
    /// no memory where the outbox has room for 6 datagrams and 7,200 bytes and the payload fits the room
    /// that `reserve_payload` took, which a new packet alone uses up. After want of memory link, envelope,
    /// effects and staged datagrams are as before.
    pub fn on_packet<W: Wrap + Drop>(
        &mut self,
        v: &ControlView<'_>,
        env: &mut Envelope<W>,
        remote: Sid,
        to: Addr,
        now: Moment,
        out: &mut Outbox,
    ) -> Result<Got, Or<LinkEnd>>
        requires acks { v.now.acks.count ≤ 8 }
        requires open { self.old.spent ≡ false }
        ensures left { (l : Link) → (h : EnvelopeHistory) → LinkStands self.old l → EnvelopeStands W.wrapped env.old h →
            Left W.wrapped self.new env.new out.old out.new to (unless_memory result (received l h (control_form v.now) remote now.0) (unchanged l h None)) }
        ensures answer { (l : Link) → (h : EnvelopeHistory) → LinkStands self.old l → EnvelopeStands W.wrapped env.old h →
            TellsGot result (got_by l.receiving v.now.id) (received l h (control_form v.now) remote now.0).end }
        ensures spent { self.new.spent ≡ tells_spent result }
        ensures room { (out.old.spare_effects ≤ out.new.spare_effects + 6) × (out.old.spare_bytes ≤ out.new.spare_bytes + 7200) }
        ensures fits { 6 ≤ out.old.spare_effects → 7200 ≤ out.old.spare_bytes → length v.now.payload.now ≤ self.old.receiving.spare → IsNotMemory result }
        ensures spare_text { self.old.sending.spare ≤ self.new.sending.spare }
        ensures spare_payload { IfOk result (λ g. g ≢ Got.New → self.old.receiving.spare ≤ self.new.receiving.spare) }
    {
        match out.reserve(MOST, MOST * ROOM) {
            Ok(()) => {}
            Err(NoMemory) => return Err(Or::Memory),
        }
        let got = match put_packet(&mut self.receiving, v.id, v.payload) {
            Ok(got) => got,
            Err(NoMemory) => return Err(Or::Memory),
        };
        count_acks(&mut self.sending, env.own(), v);
        start_if_first(&mut self.sending, v.id);
        let acks = self.receiving.take_acks(8);
        match self.send_all(&acks, false, env, remote, to, now, out) {
            Ok(()) => Ok(got),
            Err(Spent) => Err(Or::Why(LinkEnd::WrapSpent)),
        }
    }

    /// Reads the next payload of the text: payload 0 is read without being given, and then the payloads of
    /// the ids 1, 2, 3, .. are given. It is None exactly where the next of them or payload 0 is not here.
    /// It takes no memory.
    pub fn next_in_order(&mut self) -> Option<Bytes>
        ensures text { (l : Link) → LinkStands self.old l → result ≡ next_text l }
        ensures stands { (l : Link) → LinkStands self.old l → LinkStands self.new (after_text l) }
        ensures spent { self.new.spent ≡ self.old.spent }
        ensures spare { (self.old.receiving.spare ≤ self.new.receiving.spare) × (self.old.sending.spare ≤ self.new.sending.spare) }
    {
        pass_reset(&mut self.receiving);
        next_payload(&mut self.receiving)
    }

    /// Offers text, and sends every piece that may be sent. TextFull comes exactly where more than 65,536
    /// bytes would wait or not be acknowledged, or an id would pass the last one, and nothing has changed
    /// then. WrapSpent comes as at `on_packet`, and the offered text stays. It takes no memory where the
    /// outbox has room for 6 datagrams and 7,200 bytes and the text fits the room that `reserve_text` took.
    /// After want of memory link, envelope, effects and staged datagrams are as before.
    pub fn say<W: Wrap + Drop>(
        &mut self,
        bytes: &[u8],
        env: &mut Envelope<W>,
        remote: Sid,
        to: Addr,
        now: Moment,
        out: &mut Outbox,
    ) -> Result<(), Or<LinkEnd>>
        requires open { self.old.spent ≡ false }
        ensures left { (l : Link) → (h : EnvelopeHistory) → LinkStands self.old l → EnvelopeStands W.wrapped env.old h →
            Left W.wrapped self.new env.new out.old out.new to (unless_memory result (said l h bytes.now remote now.0) (unchanged l h None)) }
        ensures answer { (l : Link) → (h : EnvelopeHistory) → LinkStands self.old l → EnvelopeStands W.wrapped env.old h →
            Told result (said l h bytes.now remote now.0).end }
        ensures spent { self.new.spent ≡ tells_spent result }
        ensures room { (out.old.spare_effects ≤ out.new.spare_effects + 6) × (out.old.spare_bytes ≤ out.new.spare_bytes + 7200) }
        ensures fits { 6 ≤ out.old.spare_effects → 7200 ≤ out.old.spare_bytes → length (cut bytes.now) ≤ self.old.sending.spare → IsNotMemory result }
        ensures spare { self.old.receiving.spare ≤ self.new.receiving.spare }
    {
        match out.reserve(MOST, MOST * ROOM) {
            Ok(()) => {}
            Err(NoMemory) => return Err(Or::Memory),
        }
        match self.sending.offer(bytes) {
            Ok(()) => {}
            Err(Or::Memory) => return Err(Or::Memory),
            Err(Or::Why(TextFull)) => return Err(Or::Why(LinkEnd::TextFull)),
        }
        match self.send_all(&NO_ACKS, false, env, remote, to, now, out) {
            Ok(()) => Ok(()),
            Err(Spent) => Err(Or::Why(LinkEnd::WrapSpent)),
        }
    }

    /// Sends every piece that may be sent for the first time, with nothing offered. WrapSpent comes as at
    /// `on_packet`. It takes no memory where the outbox has room for 6 datagrams and 7,200 bytes. After want
    /// of memory link, envelope, effects and staged datagrams are as before.
    pub fn send_ready<W: Wrap + Drop>(
        &mut self,
        env: &mut Envelope<W>,
        remote: Sid,
        to: Addr,
        now: Moment,
        out: &mut Outbox,
    ) -> Result<(), Or<LinkEnd>>
        requires open { self.old.spent ≡ false }
        ensures left { (l : Link) → (h : EnvelopeHistory) → LinkStands self.old l → EnvelopeStands W.wrapped env.old h →
            Left W.wrapped self.new env.new out.old out.new to (unless_memory result (with_ready l h [] remote now.0) (unchanged l h None)) }
        ensures answer { (l : Link) → (h : EnvelopeHistory) → LinkStands self.old l → EnvelopeStands W.wrapped env.old h →
            Told result (with_ready l h [] remote now.0).end }
        ensures spent { self.new.spent ≡ tells_spent result }
        ensures room { (out.old.spare_effects ≤ out.new.spare_effects + 6) × (out.old.spare_bytes ≤ out.new.spare_bytes + 7200) }
        ensures fits { 6 ≤ out.old.spare_effects → 7200 ≤ out.old.spare_bytes → IsNotMemory result }
        ensures spare { (self.old.receiving.spare ≤ self.new.receiving.spare) × (self.old.sending.spare ≤ self.new.sending.spare) }
    {
        self.send_where_room(false, env, remote, to, now, out)
    }

    /// Sends again every piece that is due at this moment, and no other. WrapSpent comes as at `on_packet`.
    /// It takes no memory where the outbox has room for 6 datagrams and 7,200 bytes. After want of memory
    /// link, envelope, effects and staged datagrams are as before.
    pub fn tick<W: Wrap + Drop>(
        &mut self,
        env: &mut Envelope<W>,
        remote: Sid,
        to: Addr,
        now: Moment,
        out: &mut Outbox,
    ) -> Result<(), Or<LinkEnd>>
        requires open { self.old.spent ≡ false }
        ensures left { (l : Link) → (h : EnvelopeHistory) → LinkStands self.old l → EnvelopeStands W.wrapped env.old h →
            Left W.wrapped self.new env.new out.old out.new to (unless_memory result (ticked l h remote now.0) (unchanged l h None)) }
        ensures answer { (l : Link) → (h : EnvelopeHistory) → LinkStands self.old l → EnvelopeStands W.wrapped env.old h →
            Told result (ticked l h remote now.0).end }
        ensures spent { self.new.spent ≡ tells_spent result }
        ensures room { (out.old.spare_effects ≤ out.new.spare_effects + 6) × (out.old.spare_bytes ≤ out.new.spare_bytes + 7200) }
        ensures fits { 6 ≤ out.old.spare_effects → 7200 ≤ out.old.spare_bytes → IsNotMemory result }
        ensures spare { (self.old.receiving.spare ≤ self.new.receiving.spare) × (self.old.sending.spare ≤ self.new.sending.spare) }
    {
        self.send_where_room(true, env, remote, to, now, out)
    }
}

impl ControlText for ControlLink {
    ghost use Rattle.control_link.specs.Links.{Link, LinkStands, read_of, written_of};

    ghost History = { Link };

    ghost stands = { λ k l. LinkStands k l };

    ghost conn_of = { λ l. l.conn };

    ghost read_of = { λ l. read_of l };

    ghost written_of = { λ l. written_of l };

    #[tactic(auto, unfolding(crate::specs::Links::LinkStands))]
    fn conn(&self) -> Conn {
        self.conn
    }

    #[tactic(auto, unfolding(crate::specs::Links::LinkStands))]
    fn read_count(&self) -> u64 {
        self.receiving.read_count()
    }
}
