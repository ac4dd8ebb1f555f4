//! What was acknowledged of control items.
ghost use Rattle.std.specs.Prelude.{◌≡◌, ◌+◌, ◌≤◌, ◌↔◌, ◌<◌, ℕ, IsTrue, OnOk, OnErr, Some, true};
ghost use Rattle.qs_machine.specs.Acked.{no_items, greatest, greatest_of, with_item, HasAcked};
ghost use Rattle.qs_machine.specs.Memory.{NoteMayRunOut};
ghost use Rattle.std.specs.FinSet as set;
ghost use Rattle.std.specs.FinMap as fmap;

use crate::by_dir::ByDir;
use qs_ranges::{NoMemory, RangeSet};
use qs_send::Item;
use qs_wire::StreamId;
use std::alloc::Global;
use std::collections::BTreeMap;
use std::marker::Model;

/// The greatest acknowledged value of each control item is enough: no item's value ever falls, so an older one is covered. A reset's is in
/// its half.
#[derive(Drop)]
pub(crate) struct ToldItems {
    max_data: Option<u64>,
    max_stream_data: StreamValues,
    stop_sending: RangeSet,
    data_blocked: Option<u64>,
    stream_data_blocked: StreamValues,
    blocked: ByDir<Option<u64>>,
    streams: ByDir<Option<u64>>,
}

impl Model for ToldItems {
    ghost use Rattle.qs_machine.specs.Acked.{AckedItems};
    ghost use Rattle.qs_machine.specs.EndCodes.{acked_code};

    ghost Value = { AckedItems };

    ghost coded = { acked_code };

    ghost view = { λ t. record {
      max_data = t.max_data;
      max_stream_data = t.max_stream_data;
      stop_sending = t.stop_sending;
      data_blocked = t.data_blocked;
      stream_data_blocked = t.stream_data_blocked;
      bidi_blocked = t.blocked.bidi;
      uni_blocked = t.blocked.uni;
      bidi_streams = t.streams.bidi;
      uni_streams = t.streams.uni;
    } };
}

impl ToldItems {
    pub(crate) fn new(alloc: Global) -> Self
        ensures { result ≡ no_items }
    {
        ToldItems {
            max_data: None,
            max_stream_data: StreamValues::new(alloc),
            stop_sending: RangeSet::new(alloc),
            data_blocked: None,
            stream_data_blocked: StreamValues::new(alloc),
            blocked: ByDir::new(None, None),
            streams: ByDir::new(None, None),
        }
    }

    pub(crate) fn note(&mut self, item: Item) -> Result<(), NoMemory>
        ensures ok { OnOk result (self.new ≡ with_item item self.old) }
        ensures err { OnErr result (self.new ≡ self.old) }
        ensures asks { OnErr result (NoteMayRunOut self.old item) }
    {
        match item {
            Item::MaxData { maximum } => {
                self.max_data = greatest(self.max_data, maximum);
                Ok(())
            }
            Item::MaxStreamData { stream, maximum } => {
                self.max_stream_data.raise(stream, maximum)
            }
            Item::MaxStreams { dir, count } => {
                self.streams.set(dir, greatest(self.streams.of(dir), count));
                Ok(())
            }
            Item::ResetStream { .. } => Ok(()),
            Item::StopSending { stream, .. } => add(&mut self.stop_sending, stream),
            Item::DataBlocked { limit } => {
                self.data_blocked = greatest(self.data_blocked, limit);
                Ok(())
            }
            Item::StreamDataBlocked { stream, limit } => {
                self.stream_data_blocked.raise(stream, limit)
            }
            Item::StreamsBlocked { dir, count } => {
                self.blocked.set(dir, greatest(self.blocked.of(dir), count));
                Ok(())
            }
        }
    }

    pub(crate) fn is_acked(&self, item: Item) -> bool
        ensures { IsTrue result ↔ HasAcked self.now item }
    {
        match item {
            Item::MaxData { maximum } => self.max_data == Some(maximum),
            Item::MaxStreamData { stream, maximum } => {
                self.max_stream_data.is_greatest(stream, maximum)
            }
            Item::MaxStreams { dir, count } => self.streams.of(dir) == Some(count),
            Item::ResetStream { .. } => false,
            Item::StopSending { stream, .. } => self.stop_sending.has(stream.value()),
            Item::DataBlocked { limit } => self.data_blocked == Some(limit),
            Item::StreamDataBlocked { stream, limit } => {
                self.stream_data_blocked.is_greatest(stream, limit)
            }
            Item::StreamsBlocked { dir, count } => self.blocked.of(dir) == Some(count),
        }
    }
}

fn greatest(known: Option<u64>, value: u64) -> Option<u64>
    ensures { result ≡ greatest known value }
{
    match known {
        Some(before) => Some(before.max(value)),
        None => Some(value),
    }
}

#[tactic(auto, using(qs_machine::proofs::RunLaws::insert_is_range, crate::proofs::ToldLaws::none_beside))]
fn add(streams: &mut RangeSet, stream: StreamId) -> Result<(), NoMemory>
    ensures ok { OnOk result (streams.new ≡ set.insert streams.old stream) }
    ensures err { OnErr result (streams.new ≡ streams.old) }
    ensures touches_none { OnErr result ((k : ℕ) → stream ≤ k + 1 → k ≤ stream + 1 → set.contains streams.old k ≡ true → ⊥) }
{
    let number = stream.value();
    streams.insert(number, number + 1)
}

#[derive(Drop)]
pub(crate) struct StreamValues {
    values: BTreeMap<u64, u64>,
}

impl Model for StreamValues {
    ghost use Rattle.std.specs.Prelude.{ℕ};
    ghost use Rattle.std.specs.Ordering.{nat_cmp};
    ghost use Rattle.std.specs.FinMap as fmap;
    ghost use Rattle.qs_machine.specs.EndCodes.{values_code};

    ghost Value = { fmap.FinMap nat_cmp ℕ };

    ghost coded = { values_code };

    ghost view = { λ s. fmap.from_entries s.values.entries };
}

impl StreamValues {
    pub(crate) fn new(alloc: Global) -> Self
        ensures { result ≡ fmap.empty }
    {
        StreamValues {
            values: BTreeMap::new(alloc),
        }
    }

    #[tactic(auto, using(crate::proofs::ToldLaws::none_known))]
    pub(crate) fn raise(&mut self, stream: StreamId, value: u64) -> Result<(), NoMemory>
        ensures ok { OnOk result (self.new ≡ greatest_of self.old stream value) }
        ensures err { OnErr result (self.new ≡ self.old) }
        ensures absent { OnErr result ((v : ℕ) → fmap.get self.old stream ≡ Some v → ⊥) }
    {
        let number = stream.value();
        let known = self.values.get(&number).copied().unwrap_or(0);
        self.values.insert(number, known.max(value))?;
        Ok(())
    }

    #[tactic(auto, using(crate::proofs::ToldLaws::value_at))]
    pub(crate) fn is_greatest(&self, stream: StreamId, value: u64) -> bool
        ensures { IsTrue result ↔ (fmap.get self.now stream ≡ Some value) }
    {
        self.values.get(&stream.value()).copied() == Some(value)
    }
}
