//! Bytes that lie far past a ring, in pages of their own. A ring that reached to them would fill the hole before them: two bytes, one at
//! the front and one half a window on, would write half a window.
ghost use Rattle.std.specs.Prelude.{◌≡◌, if◌then◌else◌, ℕ, ◌+◌, ◌-◌, ◌*◌, ◌/◌, ◌%◌, ◌<◌, ◌≤◌, ◌^◌, ◌&&◌, ◌⊎◌, nat_le, nat_lt, None, Some, true, false, length, slice_index, IsTrue, ◌↔◌, OnOk, OnErr, IfOk};
ghost use Rattle.std.specs.Ordering.{nat_cmp};
ghost use Rattle.std.specs.BTreeMap as tree;
ghost use Rattle.std.specs.BTreeMap.{IsOrdered, btree_map_len};
ghost use Rattle.qs_ranges.specs.Numbers.{MAX_VARINT, is_within};
ghost use Rattle.qs_recv.specs.Ring.{IsThere, StayWritten};
ghost use Rattle.qs_recv.specs.Pages.{AreWhole, has_page, is_used, moved_byte, page_byte};

use crate::ring::{Ring, is_at, write_at};
use qs_ranges::{NoMemory, reserve};
use std::alloc::Global;
use std::collections::BTreeMap;

// Small, since a peer may send one byte for each page; and large enough that few notes are needed. A list of pieces of any length would
// cost some hundred bytes for each byte that comes alone, and a table by offset would grow with the window. With fewer than 2,044 an idle
// ring of 4,096 and two pages would take more than four times what their bytes span.
pub(crate) const PAGE: u64 = 2048;

/// Each page by its number: the offsets that it has, divided by a page's size.
#[derive(Drop)]
pub(crate) struct Pages {
    pages: BTreeMap<u64, Vec<u8>>,
}

impl Pages {
    pub(crate) fn none(alloc: Global) -> Self
        ensures none { (n : ℕ) → tree.get nat_cmp result.pages n ≡ None }
        ensures len { btree_map_len result.pages ≡ 0 }
    {
        Pages {
            pages: BTreeMap::new(alloc),
        }
    }

    #[inline(always)]
    pub(crate) fn is_empty(&self) -> bool
        ensures { IsTrue result ↔ (btree_map_len self.now.pages ≡ 0) }
    {
        self.pages.is_empty()
    }

    pub(crate) fn count(&self) -> u64
        ensures count { result ≡ btree_map_len self.now.pages }
        ensures ordered { IsOrdered nat_cmp self.now.pages }
    {
        self.pages.len() as u64
    }

    /// Takes them before any byte is written, so that a refusal leaves what was stored as it was.
    pub(crate) fn make(&mut self, alloc: Global, from: u64, to: u64) -> Result<(), NoMemory>
        requires small { to ≤ MAX_VARINT }
        requires whole { AreWhole self.old.pages }
        ensures whole { AreWhole self.new.pages }
        ensures made { OnOk result ((q : ℕ) → from ≤ q → q < to → has_page self.new.pages q ≡ true) }
        ensures same { (q : ℕ) → page_byte self.new.pages q ≡ page_byte self.old.pages q }
        ensures stay { (n : ℕ) → is_used self.old.pages n ≡ true → is_used self.new.pages n ≡ true }
        ensures only { (n : ℕ) → is_used self.new.pages n ≡ true
            → (is_used self.old.pages n ≡ true) ⊎ ((from < n * 2048 + 2048) × (n * 2048 < to)) }
    {
        let mut number = from / PAGE;
        while number * PAGE < to {
            if !self.pages.contains_key(&number) {
                let page = zeros(alloc)?;
                self.pages.insert(number, page)?;
            }
            number += 1;
        }
        Ok(())
    }

    pub(crate) fn give_back(&mut self, from: u64, to: u64)
        requires small { to ≤ MAX_VARINT }
        ensures { (n : ℕ) → tree.get nat_cmp self.new.pages n
            ≡ (if nat_le from (n * 2048) && nat_lt (n * 2048) to then None else tree.get nat_cmp self.old.pages n) }
    {
        let mut number = from / PAGE;
        while number * PAGE < to {
            if from <= number * PAGE {
                let _page = self.pages.remove(&number);
            }
            number += 1;
        }
    }

    pub(crate) fn write(&mut self, at: u64, bytes: &[u8])
        requires small { at + length bytes.now ≤ MAX_VARINT }
        requires whole { AreWhole self.old.pages }
        requires had { (q : ℕ) → at ≤ q → q < at + length bytes.now → has_page self.old.pages q ≡ true }
        ensures whole { AreWhole self.new.pages }
        ensures stay { (n : ℕ) → is_used self.new.pages n ≡ is_used self.old.pages n }
        ensures written { (q : ℕ) → page_byte self.new.pages q
            ≡ (if is_within at (at + length bytes.now) q then slice_index bytes.now (q - at) else page_byte self.old.pages q) }
    {
        let mut done = 0;
        while done < bytes.len() {
            let from = at + done as u64;
            let place = (from % PAGE) as usize;
            let count = (bytes.len() - done).min(PAGE as usize - place);
            match self.pages.get_mut(&(from / PAGE)) {
                Some(page) => write_at(page, place, &bytes[done..done + count]),
                None => {}
            }
            done += count;
        }
    }

    pub(crate) fn are_at(&self, at: u64, bytes: &[u8]) -> bool
        requires small { at + length bytes.now ≤ MAX_VARINT }
        requires whole { AreWhole self.now.pages }
        requires had { (q : ℕ) → at ≤ q → q < at + length bytes.now → has_page self.now.pages q ≡ true }
        ensures { IsTrue result ↔ ((k : ℕ) → k < length bytes.now → slice_index bytes.now k ≡ page_byte self.now.pages (at + k)) }
    {
        let mut done = 0;
        while done < bytes.len() {
            let from = at + done as u64;
            let place = (from % PAGE) as usize;
            let count = (bytes.len() - done).min(PAGE as usize - place);
            match self.pages.get(&(from / PAGE)) {
                Some(page) => {
                    if !is_at(page, place, &bytes[done..done + count]) {
                        return false;
                    }
                }
                None => {}
            }
            done += count;
        }
        true
    }

    /// Pages move into the ring up to there: what is next to be read always stands in the ring, so a read needs no look at the pages.
    pub(crate) fn gap_past(&self, at: u64, end: u64) -> u64
        requires small { end ≤ MAX_VARINT }
        requires at { at ≤ MAX_VARINT }
        ensures within { result ≤ end }
        ensures past { result < end → at < result }
        ensures whole { result < end → result % 2048 ≡ 0 }
        ensures none { result < end → has_page self.now.pages result ≡ false }
    {
        let mut number = at / PAGE + 1;
        while number * PAGE < end && self.pages.contains_key(&number) {
            number += 1;
        }
        (number * PAGE).min(end)
    }

    /// Each byte moves once, as the ring comes to reach its page.
    pub(crate) fn move_into(&mut self, ring: &mut Ring, from: u64, to: u64)
        requires small { to ≤ MAX_VARINT }
        requires whole { AreWhole self.old.pages }
        requires ordered { from ≤ to }
        requires fits { to ≤ from + length ring.old.0 }
        ensures same_len { length ring.new.0 ≡ length ring.old.0 }
        ensures left { (n : ℕ) → tree.get nat_cmp self.new.pages n
            ≡ (if nat_lt (from / 2048) n && nat_lt (n * 2048) to then None else tree.get nat_cmp self.old.pages n) }
        ensures kept { StayWritten ring.old ring.new }
        ensures there { (q : ℕ) → from / 2048 < q / 2048 → q < to → has_page self.old.pages q ≡ true → IsThere ring.new q }
        ensures moved { (base q : ℕ) → base ≤ from → to ≤ base + length ring.old.0 → base ≤ q → q < to
            → slice_index ring.new.0 (q % length ring.old.0) ≡ moved_byte self.old.pages from q (slice_index ring.old.0 (q % length ring.old.0)) }
    {
        let mut number = from / PAGE + 1;
        while number * PAGE < to {
            match self.pages.remove(&number) {
                Some(page) => {
                    let at = number * PAGE;
                    let count = (to - at).min(PAGE) as usize;
                    ring.write(at, &page[..count]);
                }
                None => {}
            }
            number += 1;
        }
    }
}

fn zeros(alloc: Global) -> Result<Vec<u8>, NoMemory>
    ensures { IfOk result (λ page. (length page.items ≡ 2048) × ((k : ℕ) → slice_index page.items k ≡ 0)) }
{
    let mut page = Vec::new(alloc);
    let size = reserve(&mut page, PAGE as usize)?;
    page.resize(size, 0)?;
    Ok(page)
}
