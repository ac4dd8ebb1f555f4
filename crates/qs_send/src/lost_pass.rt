//! One pass over the lost packets, for a caller without outstanding ones.
ghost use Rattle.std.specs.Prelude.{◌≡◌};
ghost use Rattle.qs_send.specs.AckPass.{pass_over};
ghost use Rattle.qs_send.specs.LostPass.{IsNextLost};

use crate::ack_pass::AckPass;
use crate::lost_records::LostRecords;
use qs_wire::AckRanges;
use std::marker::Model;

/// One pass over the lost records alone, from the highest number that an ACK's ranges name down to the lowest (RFC 9000, section 13.2.1).
#[derive(Drop)]
pub struct LostPass<'a> {
    pass: AckPass<'a>,
}

impl<'a> Model for LostPass<'a> {
    ghost use Rattle.qs_send.specs.AckPass.{Passing, passing_code};

    ghost Value = { Passing };

    ghost coded = { passing_code };

    ghost view = { λ p. p.pass };
}

impl<'a> LostPass<'a> {
    /// A pass over the ranges that are left of an ACK.
    pub fn new(ranges: AckRanges<'a>) -> LostPass<'a>
        ensures { result ≡ pass_over ranges.entry }
    {
        LostPass {
            pass: AckPass::new(ranges),
        }
    }

    /// The greatest lost number that the ranges name below the one given last, `None` where there is none.
    pub fn next(&mut self, records: &LostRecords) -> Option<u64>
        ensures { IsNextLost records.now self.old result self.new }
    {
        self.pass.next_lost(records)
    }

    /// How many turns it took: one for each record that it looked at, and one for each range that it read.
    pub fn turns(&self) -> u64
        ensures { result ≡ self.now.turns }
    {
        self.pass.turns()
    }
}
