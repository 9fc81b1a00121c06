// One sending connection.
ghost use Rattle.std.specs.Prelude.{◌≡◌, ◌↔◌, ◌≤◌, ◌<◌, ◌+◌, ℕ, List, [], true, false, length, map, filter, nat_le, nat_lt, max, IfOk, OnErr, OnOk, IsTrue, if◌then◌else◌, ◌==◌, ◌-◌, ◌&&◌, ◌++◌, ◌^◌, ◌*◌};
ghost use Rattle.std.specs.Option.{option_map};
ghost use Rattle.ic_base.specs.Settings.{AreChecked};
ghost use Rattle.ic_expire.specs.declared.item.Item.{Item};
ghost use Rattle.ic_law.specs.declared.history.Entry.{Entry};
ghost use Rattle.ic_sender.specs.Sending.{begun, freed_window, flight_at};
ghost use Rattle.ic_sender.specs.Standing.{HoldsNone, IsNamed, IsOver, IsUntouched, Stands};

use crate::flight::{Flight, find};
use crate::numbers::{Asked, Numbers};
use ic_base::{ConnEnd, ConnKey, Settings};
use ic_sendring::SendRing;
use ic_window::Window;
use std::alloc::{AllocError, Global};
use std::marker::Model;

/// One sending connection, seen as its end, what was put and not acknowledged, the packets on their way, the window, the
/// status query that stands, and what was heard.
///
/// ```text
///            finish                     all packets acknowledged
///   filling ---------> finished --------------------------------> over
///      |                  |                                        |
///      +------------------+--- a Stop, from any of them -----------+--> stopped (keeps nothing, hears nothing)
/// ```
///
/// It keeps to the sliding window of TCP (RFC 9293), with a selective report of what is missing (RFC 2018), a window and
/// a waiting time of its own ([`ic_window`]), and a window probe (RFC 9293, 3.8.6.1), the status query.
#[derive(Drop)]
pub struct Sender {
    pub(crate) end: ConnEnd,
    /// Its number in the queue of its query.
    pub(crate) conn: u32,
    pub(crate) settings: Settings,
    /// The packet that is being filled, with room for a whole payload.
    pub(crate) opened: Vec<u8>,
    /// The packets that aren't acknowledged. Which of them were emitted is told by `numbers`.
    pub(crate) ring: SendRing,
    pub(crate) numbers: Numbers,
    /// The packets that were emitted and aren't acknowledged, each with its datagram.
    pub(crate) flights: Vec<Flight>,
    pub(crate) window: Window,
    pub(crate) asked: Option<Asked>,
    pub(crate) finished: bool,
    pub(crate) stopped: bool,
    pub(crate) resent: u128,
}

impl Model for Sender {
    ghost use Rattle.std.specs.Option.{option_map};
    ghost use Rattle.ic_sender.specs.Sending.{Sending};
    ghost use Rattle.ic_sender.specs.Views.{asked_of, rows_in, IsSound};

    ghost Value = { Sending };

    ghost view = { λ s. record {
      end = s.end;
      conn = s.conn;
      settings = s.settings;
      opened = s.opened.items;
      sealed = s.numbers.sealed;
      kept = rows_in s.ring;
      sent = s.numbers.sent;
      acked = s.numbers.acked;
      consumed = s.numbers.consumed;
      flights = s.flights.items;
      window = s.window;
      asked = option_map asked_of s.asked;
      finished = s.finished;
      stopped = s.stopped;
      resent = s.resent;
    } };

    ghost invariant = { λ s. IsSound s.settings s.opened s.ring s.numbers s.flights.items s.asked };
}

/// Does nothing. Its clauses: numbers of 32 bits are such.
fn are_words(session: u32, query: u32, motion: u32, send_slice: u32, recv_slice: u32)
    ensures session { session < 2 ^ 32 }
    ensures query { query < 2 ^ 32 }
    ensures motion { motion < 2 ^ 32 }
    ensures send_slice { send_slice < 2 ^ 32 }
    ensures recv_slice { recv_slice < 2 ^ 32 }
{}

/// Does nothing. Its clause: the names of an end fit the words of headers.
fn named(end: &ConnEnd)
    ensures { IsNamed end.now }
{
    are_words(
        end.key.session,
        end.key.query,
        end.key.motion,
        end.send_slice,
        end.recv_slice,
    );
    let _from = end.key.from.number();
    let _to = end.key.to.number();
}

impl Sender {
    /// The sending end of a connection of which nothing was put. `conn` is its number in its query's queue. Takes the
    /// room for all packets that it may keep: `send_depth` times `packet` bytes, and `packet` for the one that is being
    /// filled, which aren't touched before they are used.
    pub fn new(
        alloc: Global,
        end: ConnEnd,
        conn: u32,
        settings: &Settings,
    ) -> Result<Sender, AllocError>
        requires { AreChecked settings.now }
        ensures begun { IfOk result (λ s. s ≡ begun end conn settings.now) }
        ensures stands { IfOk result (λ s. (held : List Item) (h : List Entry) → HoldsNone conn held → IsUntouched end h → Stands s held h) }
    {
        named(&end);
        let opened = Vec::with_capacity(alloc, settings.packet as usize)?;
        let ring = SendRing::with_depth(alloc, settings.send_depth, settings.packet)?;
        let flights = Vec::with_capacity(alloc, settings.send_depth as usize)?;
        Ok(Sender {
            end,
            conn,
            settings: *settings,
            opened,
            ring,
            numbers: Numbers {
                sealed: 0,
                sent: 0,
                acked: 0,
                consumed: 0,
            },
            flights,
            window: Window::new(settings.receive_depth, settings.flow),
            asked: None,
            finished: false,
            stopped: false,
            resent: 0,
        })
    }

    pub fn key(&self) -> ConnKey
        ensures { result ≡ self.now.end.key }
    {
        self.end.key
    }

    /// Whether the peer wants no more.
    pub fn is_stopped(&self) -> bool
        ensures { result ≡ self.now.stopped }
    {
        self.stopped
    }

    /// Whether the end of stream was put.
    pub fn is_finished(&self) -> bool
        ensures { result ≡ self.now.finished }
    {
        self.finished
    }

    /// Whether nothing is left to do: stopped, or finished with all packets acknowledged.
    pub fn is_over(&self) -> bool
        ensures { IsTrue result ↔ IsOver self.now }
    {
        self.stopped || (self.finished && self.ring.unacked() == 0)
    }

    /// How many packets are kept, emitted or not.
    pub fn unacked(&self) -> u32
        ensures value { result ≡ length self.now.kept }
        ensures most { result ≤ self.now.settings.send_depth }
    {
        self.ring.unacked()
    }

    /// The greatest number emitted, 0 if nothing was.
    pub fn sent(&self) -> u32
        ensures { result ≡ self.now.sent }
    {
        self.numbers.sent
    }

    /// How often a packet was emitted again. Stands still at its greatest value.
    pub fn resent(&self) -> u128
        ensures { result ≡ self.now.resent }
    {
        self.resent
    }

    /// The tick at which a status query is due, if one stands.
    pub fn query_due(&self) -> Option<u64>
        ensures { result ≡ option_map (λ a. a.due) self.now.asked }
    {
        match self.asked {
            Some(asked) => Some(asked.due),
            None => None,
        }
    }
}
