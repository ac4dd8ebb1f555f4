//! Laws on receiving lanes, each the contract of a function.
ghost use Rattle.qs_recv.specs.Laws.{NewLanesAreLawful, CallsKeepLanesLawful, CallsNeverTakeBack, StoredBytesWereGranted, CreditIsWithinWindow, StoredBytesWereSent, ChangedBytesAreTold, SentBytesPass, TakenBytesPass, StoredBytesStay};

/// A new lane is lawful.
pub fn new_lanes_are_lawful()
    ensures { NewLanesAreLawful }
{}

/// Every call keeps a lane lawful.
#[tactic(auto, using(crate::proofs::LawfulLaws::lawful_after_call))]
pub fn calls_keep_lanes_lawful()
    ensures { CallsKeepLanesLawful }
{}

/// No call lowers the highest offset, the taken count or the limit, forgets what was received, or changes a known
/// final size.
pub fn calls_never_take_back()
    ensures { CallsNeverTakeBack }
{}

/// The stored bytes of a lane number at most its limit less its taken count.
#[tactic(auto, using(crate::proofs::LawfulLaws::stored_within))]
pub fn stored_bytes_were_granted()
    ensures { StoredBytesWereGranted }
{}

/// The limit of a lane less its taken count is at most its window.
#[tactic(auto, using(crate::proofs::LawfulLaws::taken_granted))]
pub fn credit_is_within_window()
    ensures { CreditIsWithinWindow }
{}

/// Where each frame carries the bytes that were sent at its offset, each stored byte is the one that was sent there.
#[tactic(auto, using(crate::proofs::LawfulLaws::sent_after_call))]
pub fn stored_bytes_were_sent()
    ensures { StoredBytesWereSent }
{}

/// Exactly the frames that change no stored byte pass the check of their bytes.
#[tactic(auto, using(crate::proofs::LawfulLaws::check_is))]
pub fn changed_bytes_are_told()
    ensures { ChangedBytesAreTold }
{}

/// Where each frame carries the bytes that were sent at its offset, each passes that check.
pub fn sent_bytes_pass()
    ensures { SentBytesPass }
{}

/// A frame that was taken passes that check if it comes again at once.
pub fn taken_bytes_pass()
    ensures { TakenBytesPass }
{}

/// No call stores a byte at an offset that came before: the byte of an offset never changes while it is stored.
#[tactic(auto, using(crate::proofs::LawfulLaws::stored_before))]
pub fn stored_bytes_stay()
    ensures { StoredBytesStay }
{}
