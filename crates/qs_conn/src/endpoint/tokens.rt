//! What became of a packet, by its number or its token.
ghost use Rattle.std.specs.Prelude.{◌≡◌, ◌+◌, ◌-◌, ◌^◌, ◌<◌, true, None, OnOk, OnErr};
ghost use Rattle.qs_machine.specs.Alone.{LosesEach, LosesOne, token_of, gave, token_refusal, only};
ghost use Rattle.qs_machine.specs.FrameStep.{frame_taken};
ghost use Rattle.qs_machine.specs.Receiving.{RunsOut};
ghost use Rattle.qs_machine.specs.Making.{LoseStep, lose_refusal};
ghost use Rattle.qs_machine.specs.EndStep.{EndStep, TokenAcked, TokenLost};

use super::Endpoint;
use qs_calls::{LostFault, Token, TokenFault};
use qs_ranges::NoMemory;

impl Endpoint {
    /// The token of the packet of a number: that of a packet which was made (`Made`), if the stack reports all packets by tokens.
    pub fn token_of(&self, number: u64) -> Token
        ensures { result ≡ token_of self.now number }
    {
        Token {
            epoch: self.core.limits.tuning.epoch,
            first: number,
            number,
        }
    }

    /// The peer acknowledged the packet of a token: what an ACK of that packet alone does, in time or after it was declared lost (RFC 9000,
    /// section 13.3), so that nothing is defined twice. Call it only if the peer did so. For a packet that is done it changes nothing. For
    /// a token that was joined it is the ACK of all that it names; it takes a turn for each number.
    ///
    /// Refused: `Closed`; `NotGiven` if not all of its packets were made yet, or the token is of another epoch; and `NoMemory`. Then some
    /// of the packet's first pieces may be acknowledged already, and the call may be made again.
    ///
    /// ```text
    /// for token in acknowledged { end.acked(token)?; }
    /// ```
    #[tactic(auto, using(crate::proofs::Asked::acked_refused, crate::proofs::Asked::acked_all, crate::proofs::Asked::acked_some))]
    pub fn acked(&mut self, token: Token) -> Result<(), TokenFault>
        ensures { EndStep self.old (TokenAcked token) result self.new }
    {
        if let Some(fault) = self.token_refusal(token) {
            return Err(fault);
        }
        let told = self.ack_only(token);
        self.settle();
        match told {
            Ok(()) => Ok(()),
            Err(_refused) => Err(TokenFault::NoMemory),
        }
    }

    /// The packet of a token is declared lost, as `declare_lost` does: what it carried is due again as far as it is still needed, and a
    /// late `acked` still counts (RFC 9000, section 13.3). For a packet that is done it changes nothing, so a stack needn't remember which
    /// are. Of a token that was joined each of the packets is lost, from the highest number down.
    ///
    /// Refused: `Closed`; `NotGiven` if not all of its packets were made yet, or the token is of another epoch; and `NoMemory`. Then some
    /// pieces may be lost already, and the call may be made again.
    #[tactic(auto, using(crate::proofs::Asked::lost_refused, crate::proofs::Asked::lost_told))]
    pub fn lost(&mut self, token: Token) -> Result<(), TokenFault>
        ensures { EndStep self.old (TokenLost token) result self.new }
    {
        if let Some(fault) = self.token_refusal(token) {
            return Err(fault);
        }
        self.lose_each(token.first, token.number + 1)
    }

    // From the highest down, as an ACK goes, so that after a refusal the rest is the lower part.
    #[tactic(auto, using(crate::proofs::Asked::each_end, crate::proofs::Asked::each_more, crate::proofs::Asked::each_stop))]
    fn lose_each(&mut self, first: u64, end: u64) -> Result<(), TokenFault>
        ensures { LosesEach (end - first) first self.old result self.new }
    {
        let mut number = end;
        while number > first {
            number -= 1;
            self.lose_one(number)?;
        }
        Ok(())
    }

    #[tactic(auto, using(crate::proofs::Asked::one_lost))]
    fn lose_one(&mut self, number: u64) -> Result<(), TokenFault>
        ensures { LosesOne number self.old result self.new }
    {
        match self.declare_lost(number) {
            Ok(()) => Ok(()),
            Err(LostFault::NotOutstanding) => Ok(()),
            Err(LostFault::NoMemory) => Err(TokenFault::NoMemory),
            Err(LostFault::Closed) => Err(TokenFault::Closed),
        }
    }

    fn token_refusal(&self, token: Token) -> Option<TokenFault>
        ensures refusal { result ≡ token_refusal self.now token }
        ensures small { result ≡ None → token.number + 1 < 2 ^ 64 }
    {
        if self.closed.is_some() {
            return Some(TokenFault::Closed);
        }
        if !self.gave(token) {
            return Some(TokenFault::NotGiven);
        }
        None
    }

    fn gave(&self, token: Token) -> bool
        ensures exact { result ≡ gave self.now token }
        ensures small { result ≡ true → token.number + 1 < 2 ^ 64 }
    {
        let limits = &self.core.limits;
        token.epoch == limits.tuning.epoch
            && token.first <= token.number
            && token.number < self.core.outbox.next()
    }

    fn ack_only(&mut self, token: Token) -> Result<(), NoMemory>
        requires { token.number + 1 < 2 ^ 64 }
        ensures ok { OnOk result (self.new ≡ frame_taken (only token) self.old) }
        ensures err { OnErr result (RunsOut self.old (only token) self.new) }
    {
        let before = self.core.ended;
        let taken = self.core.ack_range(token.first, token.number + 1);
        self.is_settled &= self.core.ended.is_same(before);
        taken
    }

    /// Declares the packet of a number lost: what it carried is due again as far as it is still needed (RFC 9000, section 13.3). It is kept
    /// for a late ACK, among the latest 256 by the order in which they were first declared lost (section 13.2.1).
    ///
    /// Refused: `Closed`; `NotOutstanding` if no such packet is outstanding; and `NoMemory`. Then the first pieces of the packet may be
    /// lost already; the others are still outstanding, and the call may be made again.
    #[tactic(auto, using(crate::proofs::AckRuns::lost_refused))]
    pub fn declare_lost(&mut self, number: u64) -> Result<(), LostFault>
        ensures { LoseStep self.old number result self.new }
    {
        if let Some(fault) = self.lose_refusal(number) {
            return Err(fault);
        }
        self.core.outbox.learn_none_empty();
        match self.core.lose(number) {
            Ok(()) => Ok(()),
            Err(_refused) => Err(LostFault::NoMemory),
        }
    }

    #[tactic(auto, using(crate::proofs::AckRuns::not_outstanding, crate::proofs::AckRuns::is_outstanding))]
    fn lose_refusal(&self, number: u64) -> Option<LostFault>
        ensures { result ≡ lose_refusal self.now number }
    {
        if self.closed.is_some() {
            return Some(LostFault::Closed);
        }
        self.core.outbox.learn_none_empty();
        if self.core.outbox.first(number).is_none() {
            return Some(LostFault::NotOutstanding);
        }
        None
    }
}
