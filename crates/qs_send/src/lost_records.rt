//! What the packets carried that were declared lost.
ghost use Rattle.std.specs.Prelude.{◌≡◌, ℕ, ◌+◌, ◌<◌, IfSome, IfNone, OnOk, OnErr, Some, None, [], length, if◌then◌else◌, false};
ghost use Rattle.std.specs.VecDeque.{deque_len, deque_capacity};
ghost use Rattle.std.specs.FinMap as fmap;
ghost use Rattle.qs_send.specs.ByNumber.{map_of};
ghost use Rattle.qs_send.specs.LostRecords.{IsOrderOf, latest, with_number, with_piece, without_number, without_oldest};
ghost use Rattle.qs_send.specs.Records.{IsGreatestBelow, first_piece, without_first};

use crate::by_number::ByNumber;
use crate::piece::Piece;
use qs_ranges::NoMemory;
use std::alloc::Global;
use std::collections::VecDeque;
use std::marker::Model;

/// An ACK may come late for any of them, and a bound keeps a peer that acknowledges nothing from holding memory.
const MOST: usize = 256;

/// The pieces of each packet that was declared lost, by packet number: a late ACK may still name it (RFC 9000, section 13.2.1).
///
/// The 256 latest stay, by the order in which they were first declared lost: that is the order in which their ACKs stop being likely.
#[derive(Drop)]
pub struct LostRecords {
    list: ByNumber,
    order: VecDeque<u64>,
    ready: Option<u64>,
}

impl Model for LostRecords {
    ghost use Rattle.std.specs.Prelude.{◌<◌, IfSome};
    ghost use Rattle.std.specs.VecDeque.{deque_len, deque_capacity};
    ghost use Rattle.qs_send.specs.ByNumber.{map_of, room_for};
    ghost use Rattle.qs_send.specs.LostRecords.{Lost, IsOrderOf};
    ghost use Rattle.qs_send.specs.Codes.{lost_code};

    ghost Value = { Lost };

    ghost coded = { lost_code };

    ghost view = { λ r. record { pieces = map_of r.list.records; order = r.order.items; room = r.ready } };

    ghost invariant = { λ r. IsOrderOf (map_of r.list.records) r.order.items × IfSome r.ready (λ n. (0 < room_for r.list n) × (deque_len r.order < deque_capacity r.order)) };
}

impl LostRecords {
    pub fn new(alloc: Global) -> Self
        ensures pieces { result.pieces ≡ fmap.empty }
        ensures order { result.order ≡ [] }
        ensures room { result.room ≡ None }
    {
        LostRecords {
            list: ByNumber::new(alloc),
            order: VecDeque::new(alloc),
            ready: None,
        }
    }

    /// Makes room for one more piece of a packet, in the place of the room made before. Unchanged if memory was refused.
    pub fn make_room(&mut self, number: u64) -> Result<(), NoMemory>
        ensures pieces { self.new.pieces ≡ self.old.pieces }
        ensures order { self.new.order ≡ self.old.order }
        ensures ok { OnOk result (self.new.room ≡ Some number) }
        ensures err { OnErr result (self.new.room ≡ self.old.room) }

        // Memory is taken only if there is no room for the packet.
        ensures stands { OnErr result (self.old.room ≡ Some number → ⊥) }
    {
        self.order.reserve(1)?;
        self.list.reserve(number)?;
        self.ready = Some(number);
        Ok(())
    }

    /// Holds one more piece of a packet. If that makes one packet too many, the oldest goes. It takes no memory.
    pub fn add(&mut self, number: u64, piece: Piece)
        requires { self.old.room ≡ Some number }
        ensures pieces { self.new.pieces ≡ without_oldest (with_piece self.old.pieces number piece (fmap.get self.old.pieces number)) (with_number self.old.order number (fmap.contains_key self.old.pieces number)) }
        ensures order { self.new.order ≡ latest (with_number self.old.order number (fmap.contains_key self.old.pieces number)) }
        ensures room { self.new.room ≡ None }
    {
        self.ready = None;
        let held = self.list.is_held(number);
        note(&mut self.order, number, held);
        self.list.add(number, piece);
        drop_oldest(&mut self.order, &mut self.list);
    }

    pub fn first(&self, number: u64) -> Option<Piece>
        ensures { result ≡ first_piece (fmap.get self.now.pieces number) }
    {
        self.list.first(number)
    }

    /// Drops the first piece of a packet, and the record with the last. Room that was made may go too: it may have been the packet's own
    /// memory.
    #[tactic(auto, using(crate::proofs::Outstanding::order_rest, crate::proofs::Outstanding::order_stays))]
    pub fn drop_first(&mut self, number: u64)
        ensures pieces { self.new.pieces ≡ without_first self.old.pieces number (fmap.get self.old.pieces number) }
        ensures order { self.new.order ≡ (if fmap.contains_key self.new.pieces number then self.old.order else without_number self.old.order number) }
        ensures room { self.new.room ≡ None }
    {
        self.ready = None;
        self.list.drop_first(number);
        if !self.list.is_held(number) {
            forget(&mut self.order, number);
        }
    }

    pub fn is_held(&self, number: u64) -> bool
        ensures { result ≡ fmap.contains_key self.now.pieces number }
    {
        self.list.is_held(number)
    }

    /// The greatest number below `number` that is held.
    pub fn below(&self, number: u64) -> Option<u64>
        ensures found { IfSome result (IsGreatestBelow self.now.pieces number) }
        ensures none { IfNone result ((k : ℕ) → k < number → fmap.contains_key self.now.pieces k ≡ false) }
    {
        let mut near = 0;
        self.below_near(number, &mut near)
    }

    /// For a pass from high numbers to low ones: `near` is where the search begins, and goes from call to call.
    pub(crate) fn below_near(&self, number: u64, near: &mut usize) -> Option<u64>
        ensures found { IfSome result (IsGreatestBelow self.now.pieces number) }
        ensures none { IfNone result ((k : ℕ) → k < number → fmap.contains_key self.now.pieces k ≡ false) }
    {
        self.list.below(number, near)
    }

    #[inline(always)]
    pub fn len(&self) -> usize
        ensures { result ≡ length self.now.order }
    {
        self.order.len()
    }

    /// The order has the numbers that are held, each once, and each has a piece. It does nothing: a proof calls it for what it ensures.
    pub fn learn_in_order(&self)
        ensures { IsOrderOf self.now.pieces self.now.order }
    {
        let _order = &self.order;
    }
}

fn note(order: &mut VecDeque<u64>, number: u64, held: bool)
    requires { deque_len order.old < deque_capacity order.old }
    ensures { order.new.items ≡ with_number order.old.items number held }
{
    if !held {
        order.push_back_reserved(number);
    }
}

fn drop_oldest(order: &mut VecDeque<u64>, list: &mut ByNumber)
    ensures pieces { map_of list.new.records ≡ without_oldest (map_of list.old.records) order.old.items }
    ensures order { order.new.items ≡ latest order.old.items }
{
    if order.len() > MOST {
        if let Some(oldest) = order.pop_front() {
            list.remove(oldest);
        }
    }
}

fn forget(order: &mut VecDeque<u64>, number: u64)
    ensures { order.new.items ≡ without_number order.old.items number }
{
    order.retain(|k| *k != number);
}
