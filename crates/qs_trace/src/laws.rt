//! Laws of the definitions alone: each is a function whose contract is the law.

ghost use Rattle.qs_trace.specs.Laws.{SentIsMade, ReceivedIsDelivered, LostIsDeclared};

/// A trace tells each packet that its end sent once as sent, in the log's order.
pub fn sent_is_made()
    ensures { SentIsMade }
{}

/// It tells each delivery of a packet of the peer's once as received.
pub fn received_is_delivered()
    ensures { ReceivedIsDelivered }
{}

/// It tells each loss once.
pub fn lost_is_declared()
    ensures { LostIsDeclared }
{}
