//! What is published of a leader's logs, whatever parts of them come. It is the contract of a function that does
//! nothing.

ghost use Rattle.repl_node.specs.Deliveries.{NeverGoesBack, NeverShortens, PublishesBeginnings, TakesRecords};

/// A node shows the world after a beginning of a leader's log, never a shorter one than before of the same log nor one
/// of an earlier log, and takes each part of a log of whole records.
pub fn followers_show_beginnings()
    ensures beginning { PublishesBeginnings }
    ensures later { NeverGoesBack }
    ensures longer { NeverShortens }
    ensures records { TakesRecords }
{}
