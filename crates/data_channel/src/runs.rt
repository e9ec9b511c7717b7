//! Whole runs of a data channel.

ghost use Rattle.std.specs.Prelude.{◌≡◌, ◌≤◌, ◌<◌, ◌^◌, length, IfOk, OnOk};
ghost use Rattle.data_channel.specs.Channels.{Channel};
ghost use Rattle.data_channel.specs.Runs.{after_event, after_opening, after_sealing, answer_of, answers_of, channel_begun, opening_answer, seal_answer};
ghost use Rattle.data_channel.specs.Standing.{GcmStands};

use crate::channel::{DataChannel, DataFault};
use gcm_seal::AnyGcm;
use hmac_kit::KeyBlock;
use packet_ids::{Spent, Window};
use std::alloc::Global;
use vpn_base::{Bytes, Cipher, Moment, NoMemory, Role};

// How many bytes an inner packet and a data packet may have.
const MOST_INNER: usize = 65_512;

const MOST_BYTES: usize = 65_536;

/// What comes to a data channel, in a run.
#[derive(Drop)]
pub enum ChannelEvent {
    /// An inner packet is to be sealed.
    Inner {
        /// Its bytes.
        packet: Bytes,
    },
    /// A data packet has come.
    Datagram {
        /// Its bytes.
        bytes: Bytes,
    },
}

/// What a data channel answers, in a run.
#[derive(Drop)]
pub enum ChannelAnswer {
    /// An inner packet was sealed.
    Sealed {
        /// The data packet.
        packet: Bytes,
    },
    /// The last packet id was used before.
    Spent,
    /// A data packet was opened, and its packet id accepted.
    Opened {
        /// The inner packet.
        inner: Bytes,
    },
    /// A data packet was refused.
    Refused {
        /// Why.
        fault: DataFault,
    },
    /// The inner packet has more than 65,512 bytes, or the data packet more than 65,536: nothing was done.
    Long,
}

/// The settings of a data channel in a run.
#[derive(Clone, Copy, Debug, PartialEq, Eq)]
pub struct ChannelSetup {
    /// The cipher.
    pub cipher: Cipher,
    /// The role of this end.
    pub role: Role,
    /// The key id, below 8.
    pub kid: u8,
    /// The peer id in what is sealed, below 2^24.
    pub peer_id: u32,
    /// The width of the anti-replay window, at least 1.
    pub win: u32,
    /// The seconds for which late packet ids stay fresh.
    pub win_secs: u32,
    /// The last packet id that was sealed under before.
    pub last_sealed: u32,
}

// An inner packet is sealed.
fn seal(
    alloc: Global,
    channel: &mut DataChannel<AnyGcm>,
    packet: &[u8],
) -> Result<ChannelAnswer, NoMemory>
    requires short { length packet.now ≤ 65512 }
    ensures answer { IfOk result (λ answer. (c : Channel) → GcmStands channel.old c → answer ≡ seal_answer c packet.now) }
    ensures stands { OnOk result ((c : Channel) → GcmStands channel.old c → GcmStands channel.new (after_sealing c)) }
{
    let mut out = vec![in alloc; 0u8; packet.len() + 24]?;
    match channel.seal_into(packet, &mut out) {
        Ok(_) => Ok(ChannelAnswer::Sealed {
            packet: Bytes::of(out),
        }),
        Err(Spent) => Ok(ChannelAnswer::Spent),
    }
}

// A datagram has come.
fn unseal(
    alloc: Global,
    channel: &mut DataChannel<AnyGcm>,
    bytes: &[u8],
    now: Moment,
) -> Result<ChannelAnswer, NoMemory>
    requires short { length bytes.now ≤ 65536 }
    ensures answer { IfOk result (λ answer. (c : Channel) → GcmStands channel.old c → answer ≡ opening_answer c bytes.now now) }
    ensures stands { OnOk result ((c : Channel) → GcmStands channel.old c → GcmStands channel.new (after_opening c bytes.now now)) }
{
    let mut datagram = bytes.to_vec(alloc)?;
    match channel.unseal_in_place(&mut datagram, now) {
        Ok(_) => {
            let inner = datagram[24..].to_vec(alloc)?;
            Ok(ChannelAnswer::Opened {
                inner: Bytes::of(inner),
            })
        }
        Err(fault) => Ok(ChannelAnswer::Refused { fault }),
    }
}

// One event comes.
fn answer(
    alloc: Global,
    channel: &mut DataChannel<AnyGcm>,
    event: &ChannelEvent,
    now: Moment,
) -> Result<ChannelAnswer, NoMemory>
    ensures answer { IfOk result (λ answer. (c : Channel) → GcmStands channel.old c → answer ≡ answer_of c event.now now) }
    ensures stands { OnOk result ((c : Channel) → GcmStands channel.old c → GcmStands channel.new (after_event c (event.now, now))) }
{
    match event {
        ChannelEvent::Inner { packet } => {
            let packet = packet.as_slice();
            if MOST_INNER < packet.len() {
                return Ok(ChannelAnswer::Long);
            }
            seal(alloc, channel, packet)
        }
        ChannelEvent::Datagram { bytes } => {
            let bytes = bytes.as_slice();
            if MOST_BYTES < bytes.len() {
                return Ok(ChannelAnswer::Long);
            }
            unseal(alloc, channel, bytes, now)
        }
    }
}

/// What a channel of these keys answers to events that come one after the other, each with its moment: each inner packet
/// is sealed under the next packet id, until the last one is used, and each datagram that the other end sealed under
/// the keys gives its inner packet, where its packet id is fresh by everything that was accepted before.
pub fn run_channel(
    alloc: Global,
    keys: &KeyBlock,
    setup: &ChannelSetup,
    events: &[(ChannelEvent, Moment)],
) -> Result<Vec<ChannelAnswer>, NoMemory>
    requires kid { setup.now.kid < 8 }
    requires peer_id { setup.now.peer_id < 2 ^ 24 }
    requires win { 1 ≤ setup.now.win }
    ensures { IfOk result (λ answers. answers.items ≡ answers_of (channel_begun keys.now.0 setup.now) events.now) }
{
    let window = match Window::new(alloc, setup.win, setup.win_secs) {
        Ok(window) => window,
        Err(NoMemory) => return Err(NoMemory),
    };
    let mut channel = DataChannel::resumed(
        keys,
        setup.cipher,
        setup.role,
        setup.kid,
        setup.peer_id,
        window,
        setup.last_sealed,
    );
    let mut answers = Vec::new(alloc);
    for (event, now) in events {
        let given = match answer(alloc, &mut channel, event, *now) {
            Ok(given) => given,
            Err(NoMemory) => return Err(NoMemory),
        };
        answers.push(given)?;
    }
    Ok(answers)
}
