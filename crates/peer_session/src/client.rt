//! A client's session, as a core knows it.

ghost use Rattle.std.specs.Prelude.{◌≡◌};

use crate::begin::begin;
use crate::laws::{names_come_first, retired_sessions_stay_retired};
use crate::packets::{seal_to, unseal};
use crate::session::PeerSession;
use crate::tick::on_tick;
use opcode_codec::ControlView;
use packet_ids::Spent;
use peer_table::{ClientSession, Message, Refused, SessionFault, Turn};
use session_control::on_control;
use session_engine::{exchange, on_engine};
use std::alloc::Global;
use tls_crypt::{Opened, StaticKey, Wrapper};
use vpn_base::{Addr, Cipher, Conn, Draw, Moment, NoMemory, Place, Policy, Role, Sid, Timers};
use vpn_links::{Kind, Outbox};

impl ClientSession for PeerSession<Wrapper> {
    ghost use Rattle.peer_session.specs.Client.{ClientStands, IsReadyFor};
    ghost use Rattle.peer_session.specs.Client as client;
    ghost use Rattle.peer_session.specs.internal.Unnamed.{name_comes_first};
    ghost use Rattle.peer_session.specs.internal.Unread.{nothing_read_before};

    ghost stands = { ClientStands };

    ghost count = { client.count };

    ghost goes_on = { client.GoesOn };

    ghost since = { client.since };

    ghost is_ready = { IsReadyFor };

    ghost may_exchange = { λ s. Unit {0} };

    ghost ready_for_file = { λ s cid answer established effects bytes ready. tt };

    ghost nothing_read_before = { nothing_read_before };

    ghost name_comes_first = { name_comes_first };

    #[tactic(auto, unfolding(crate::specs::Client::ClientStands))]
    fn begin(
        alloc: Global,
        role: Role,
        key: &StaticKey,
        own: Sid,
        timers: Timers,
        conn: Conn,
        now: Moment,
        to: Addr,
        out: &mut Outbox,
    ) -> Result<PeerSession<Wrapper>, NoMemory> {
        retired_sessions_stay_retired::<Wrapper>();
        names_come_first();
        match begin(alloc, role, key, own, timers, conn, now, to, out) {
            Ok(state) => Ok(PeerSession { state }),
            Err(NoMemory) => Err(NoMemory),
        }
    }

    #[tactic(auto, unfolding(crate::specs::Client::ClientStands))]
    fn ready(&mut self, kind: &Kind, established: bool) -> Result<(usize, usize), NoMemory> {
        let _ = established;
        self.state.ready(kind)
    }

    #[tactic(auto, unfolding(crate::specs::Client::ClientStands))]
    fn on_control(
        &mut self,
        opened: &Opened<'_>,
        view: &ControlView<'_>,
        to: Addr,
        next_conn: Conn,
        established: bool,
        now: Moment,
        out: &mut Outbox,
    ) -> Result<Result<Turn, Refused>, NoMemory> {
        retired_sessions_stay_retired::<Wrapper>();
        names_come_first();
        on_control(
            &mut self.state,
            opened,
            view,
            to,
            next_conn,
            established,
            now,
            out,
        )
    }

    #[tactic(auto, unfolding(crate::specs::Client::ClientStands))]
    fn on_engine(
        &mut self,
        kind: &Kind,
        to: Addr,
        now: Moment,
        out: &mut Outbox,
    ) -> Result<Turn, NoMemory> {
        retired_sessions_stay_retired::<Wrapper>();
        names_come_first();
        on_engine(&mut self.state, kind, to, now, out)
    }

    #[tactic(auto, unfolding(crate::specs::Client::ClientStands))]
    fn exchange(
        &mut self,
        policy: &Policy,
        peer_id: u32,
        draw: &Draw,
        to: Addr,
        now: Moment,
        out: &mut Outbox,
    ) -> Result<Turn, NoMemory> {
        retired_sessions_stay_retired::<Wrapper>();
        names_come_first();
        let _ = (to, now);
        exchange(&mut self.state, policy, peer_id, draw, out)
    }

    #[tactic(auto, unfolding(crate::specs::Client::ClientStands))]
    fn next_message(&self) -> Option<Message<'_>> {
        self.state.next_message()
    }

    #[tactic(auto, unfolding(crate::specs::Client::ClientStands))]
    fn pass_message(&mut self) {
        retired_sessions_stay_retired::<Wrapper>();
        names_come_first();
        self.state.pass_message()
    }

    #[tactic(auto, unfolding(crate::specs::Client::ClientStands))]
    fn on_tick(
        &mut self,
        next_conn: Conn,
        established: bool,
        idle: bool,
        to: Addr,
        now: Moment,
        out: &mut Outbox,
    ) -> Result<Turn, NoMemory> {
        retired_sessions_stay_retired::<Wrapper>();
        names_come_first();
        on_tick(&mut self.state, next_conn, established, idle, to, now, out)
    }

    #[tactic(auto, unfolding(crate::specs::Client::ClientStands))]
    fn seal_to(&mut self, inner: &[u8], to: Addr, out: &mut Outbox) -> Result<(), Spent> {
        retired_sessions_stay_retired::<Wrapper>();
        names_come_first();
        seal_to(&mut self.state, inner, to, out)
    }

    #[tactic(auto, unfolding(crate::specs::Client::ClientStands))]
    fn unseal(&mut self, datagram: &mut [u8], now: Moment) -> Result<usize, SessionFault> {
        retired_sessions_stay_retired::<Wrapper>();
        names_come_first();
        unseal(&mut self.state, datagram, now)
    }

    #[tactic(auto, unfolding(crate::specs::Client::ClientStands))]
    fn name(&self) -> Option<&[u8]> {
        self.state.name()
    }

    #[tactic(auto, unfolding(crate::specs::Client::ClientStands))]
    fn remote(&self) -> Option<Sid> {
        self.state.remote()
    }

    #[tactic(auto, unfolding(crate::specs::Client::ClientStands))]
    fn asks_push(&self) -> bool {
        self.state.asks_push()
    }

    #[tactic(auto, unfolding(crate::specs::Client::ClientStands))]
    fn cipher(&self) -> Option<Cipher> {
        self.state.cipher()
    }

    #[tactic(auto, unfolding(crate::specs::Client::ClientStands))]
    fn cipher_ahead(&self, policy: &Policy) -> Option<Cipher> {
        self.state.cipher_ahead(policy)
    }

    #[tactic(auto, unfolding(crate::specs::Client::ClientStands))]
    fn has_conn(&self, conn: Conn) -> bool {
        self.state.has_conn(conn)
    }

    #[tactic(auto, unfolding(crate::specs::Client::ClientStands))]
    fn first_conn(&self) -> Option<Conn> {
        self.state.first_conn()
    }

    #[tactic(auto, unfolding(crate::specs::Client::ClientStands))]
    fn place(&self, kid: u8) -> Option<Place> {
        self.state.place(kid)
    }

    #[tactic(auto, unfolding(crate::specs::Client::ClientStands))]
    fn place_numbered(&self, number: u64) -> Option<Place> {
        self.state.place_numbered(number)
    }

    #[tactic(auto, unfolding(crate::specs::Client::ClientStands))]
    fn unread(&self) -> usize {
        self.state.unread()
    }

    #[tactic(auto, unfolding(crate::specs::Client::ClientStands))]
    fn unread_in_all(&self) -> Option<usize> {
        self.state.unread_in_all()
    }

    #[tactic(auto, unfolding(crate::specs::Client::ClientStands))]
    fn data_session(&self, kid: u8, now: Moment) -> Option<u64> {
        self.state.data_session(kid, now)
    }

    #[tactic(auto, unfolding(crate::specs::Client::ClientStands))]
    fn control_session(&self, kid: u8, now: Moment) -> u64 {
        self.state.control_session(kid, now)
    }

    #[tactic(auto, unfolding(crate::specs::Client::ClientStands))]
    fn close_all(&self, out: &mut Outbox) -> Result<(), NoMemory> {
        self.state.close_all(out)
    }
}
