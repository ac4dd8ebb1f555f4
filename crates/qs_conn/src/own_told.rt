ghost use Rattle.std.specs.Prelude.{◌≡◌, ◌↔◌, IsTrue, true, false, None, replicate};
ghost use Rattle.qs_send.specs.PieceCodes.{dir_number};
ghost use Rattle.qs_machine.specs.Outgoing.{IsAckedOut};
ghost use Rattle.qs_conn.specs.OwnTold.{own_place, own_value, has_own, own_with, own_without};

use crate::outbox::Outbox;
use qs_send::Item;
use qs_wire::Dir;
use std::marker::Model;

/// A limit and two counts of streams for the peer, and what this endpoint lacks of its own three.
pub(crate) const OWN_ITEMS: usize = 6;

/// For each kind the value that went into a packet last, unless that was lost. A value instead of a mark, which would have to be set as a
/// limit rises: no packet told more than the present value, so nothing is due if that is the one that is kept.
#[derive(Drop)]
pub(crate) struct OwnTold {
    values: [Option<u64>; 6],
}

impl Model for OwnTold {
    ghost use Rattle.std.specs.Prelude.{◌≡◌, ℕ, List, Option, length};
    ghost use Rattle.std.specs.Coded.{coded_list, coded_option, coded_ℕ};

    ghost Value = { List (Option ℕ) };

    ghost coded = { coded_list (coded_option coded_ℕ) };

    ghost view = { λ o. o.values };

    ghost invariant = { λ o. length o.values ≡ 6 };
}

impl OwnTold {
    pub(crate) fn new() -> Self
        ensures { result ≡ replicate 6 None }
    {
        OwnTold {
            values: [None, None, None, None, None, None],
        }
    }

    #[inline(always)]
    pub(crate) fn has(&self, item: &Item) -> bool
        ensures { result ≡ has_own item.now self.now }
    {
        let place = place_of(item);
        if place >= OWN_ITEMS {
            return false;
        }
        matches!(self.values[place], Some(value) if value == value_of(item))
    }

    pub(crate) fn is_told(&self, outbox: &Outbox, item: &Item) -> bool
        ensures told { has_own item.now self.now ≡ true → result ≡ true }
        ensures acked { has_own item.now self.now ≡ false → IsTrue result ↔ IsAckedOut outbox.now item.now }
    {
        if self.has(item) {
            return true;
        }
        outbox.is_acked(*item)
    }

    pub(crate) fn insert(&mut self, item: &Item)
        ensures { self.new ≡ own_with item.now self.old }
    {
        let place = place_of(item);
        if place < OWN_ITEMS {
            self.values[place] = Some(value_of(item));
        }
    }

    pub(crate) fn remove(&mut self, item: &Item)
        ensures { self.new ≡ own_without item.now self.old }
    {
        if self.has(item) {
            self.values[place_of(item)] = None;
        }
    }
}

#[inline(always)]
fn place_of(item: &Item) -> usize
    ensures { result ≡ own_place item.now }
{
    match *item {
        Item::MaxData { .. } => 0,
        Item::MaxStreams { dir, .. } => 1 + number_of(dir),
        Item::DataBlocked { .. } => 3,
        Item::StreamsBlocked { dir, .. } => 4 + number_of(dir),
        _ => OWN_ITEMS,
    }
}

#[inline(always)]
fn value_of(item: &Item) -> u64
    ensures { result ≡ own_value item.now }
{
    match *item {
        Item::MaxData { maximum } => maximum,
        Item::DataBlocked { limit } => limit,
        Item::MaxStreams { count, .. } => count,
        Item::StreamsBlocked { count, .. } => count,
        _ => 0,
    }
}

#[inline(always)]
fn number_of(dir: Dir) -> usize
    ensures { result ≡ dir_number dir }
{
    match dir {
        Dir::Bidi => 0,
        Dir::Uni => 1,
    }
}
