//! A node that follows a leader over a link, as a value that is stepped.

ghost use Rattle.std.specs.Prelude.{◌≡◌, ◌<◌, ◌∷◌, ◌++◌, List, [], length, Decides};
ghost use Rattle.outside.specs.Links.{GotWithin, LinkState, SentWithin, Reads, Writes};
ghost use Rattle.repl_node.specs.FollowedSoFar.{FollowedSoFar};
ghost use Rattle.repl_node.specs.Followers.{AsksAgain, Receives, IsFit, Opens, WantsToRead, WantsToWrite, WritesOut};
ghost use Rattle.repl_node.specs.Following.{Followed};

use crate::nodes::Node;
use crate::part_answers::{ask, hear_bytes};
use crate::phases::{FollowEnd, Phase};
use crate::unsent_asks::UnsentAsk;
use outside::{Failed, Got, ReadyLink, Sent};
use resp_frames::Requests;
use std::alloc::Global;
use std::marker::Model;

/// A node that follows a leader over a link: it asks, hears the part that answers, and asks again until it has
/// published the world of the log. It is read only where its ask is written.
#[derive(Drop)]
pub struct Follower<K: ReadyLink> {
    pub(crate) link: K,
    node: Node,
    reader: Requests,
    out: UnsentAsk,
    phase: Phase,
}

impl<K: ReadyLink> Model for Follower<K> {
    ghost use Rattle.repl_node.specs.Followers.{FollowerState, IsFit, bytes_held};

    ghost Value = { FollowerState };

    ghost view = { λ f. record {
      line = K.shows f.link;
      node = f.node;
      held = bytes_held f.reader;
      out = f.out;
      phase = f.phase;
    } };

    ghost invariant = { λ f. IsFit f.reader f.out f.phase };
}

impl<K: ReadyLink> Follower<K> {
    /// A follower of the leader at the other end of a link: this node's ask is to be written first. For want of memory
    /// it has ended.
    #[tactic(auto, using(crate::proofs::Steps::kept_open))]
    pub fn new(alloc: Global, link: K, node: Node) -> Follower<K>
        ensures opens { Opens (K.shows link) node result }
        ensures first { FollowedSoFar node (K.shows link) [] result }
    {
        let mut out = UnsentAsk::new(alloc);
        let phase = ask(&node, &mut out);
        Follower {
            link,
            node,
            reader: Requests::new(alloc),
            out,
            phase,
        }
    }

    /// The node.
    pub fn node(&self) -> &Node
        ensures { result.now ≡ self.now.node }
    {
        &self.node
    }

    /// How far it is.
    pub fn phase(&self) -> Phase
        ensures { result ≡ self.now.phase }
    {
        self.phase
    }

    /// Whether it is to be read.
    pub fn wants_to_read(&self) -> bool
        ensures { Decides result (WantsToRead self.now) }
    {
        matches!(self.phase, Phase::Asking) && self.out.is_empty()
    }

    /// Whether it is to be written.
    pub fn wants_to_write(&self) -> bool
        ensures { Decides result (WantsToWrite self.now) }
    {
        matches!(self.phase, Phase::Asking) && !self.out.is_empty()
    }

    /// Whether the last part reached the end of the log, whose world is published.
    pub fn is_published(&self) -> bool
        ensures { Decides result (self.now.phase ≡ Phase.Published) }
    {
        matches!(self.phase, Phase::Published)
    }

    /// Reads once. A part that came whole is heard; where the log goes on behind it, the next ask is to be written. The
    /// link's end and its failure, bytes that are no part, a part that the node does not take, and want of memory are
    /// ends: the node is then as it was behind the last part that it took.
    #[tactic(auto, using(crate::proofs::Steps::kept_read))]
    pub fn on_readable(&mut self, block: &mut [u8]) -> Result<Got, Failed>
        requires some { 0 < length block.old }
        requires ready { WantsToRead self.old }
        ensures within { GotWithin result (length block.new) }
        ensures read { Reads self.old.line self.new.line result block.new }
        ensures receives { Receives self.old self.new result block.new }
        ensures kept { (first : Followed) (came : LinkState) (before : List Followed) → FollowedSoFar first came before self.old
            → FollowedSoFar first came before self.new }
    {
        let answer = self.link.read(block);
        match answer {
            Ok(Got::Bytes(count)) => {
                self.phase = hear_bytes(
                    &mut self.reader,
                    &block[..count],
                    &mut self.node,
                    &mut self.out,
                );
            }
            Ok(Got::End) => self.phase = Phase::Ended(FollowEnd::Over),
            Ok(Got::Later) => {}
            Err(Failed) => self.phase = Phase::Ended(FollowEnd::ReadFault),
        }
        answer
    }

    /// Writes once what is left of the ask. The link's failure is an end.
    #[tactic(auto, using(crate::proofs::Steps::kept_write))]
    pub fn on_writable(&mut self) -> Result<Sent, Failed>
        requires { WantsToWrite self.old }
        ensures within { SentWithin result (length self.old.out) }
        ensures written { Writes self.old.line self.new.line result self.old.out }
        ensures writes { WritesOut self.old self.new result }
        ensures kept { (first : Followed) (came : LinkState) (before : List Followed) → FollowedSoFar first came before self.old
            → FollowedSoFar first came before self.new }
    {
        let answer = self.link.write(self.out.bytes());
        match answer {
            Ok(Sent::Bytes(count)) => self.out.pass(count),
            Ok(Sent::Later) => {}
            Err(Failed) => self.phase = Phase::Ended(FollowEnd::WriteFault),
        }
        answer
    }

    /// Asks again behind a published world. For want of memory it has ended.
    #[tactic(auto, using(crate::proofs::Steps::kept_ask))]
    pub fn ask_again(&mut self)
        requires { self.old.phase ≡ Phase.Published }
        ensures asks { AsksAgain self.old self.new }
        ensures kept { (first : Followed) (came : LinkState) (before : List Followed) → FollowedSoFar first came before self.old
            → FollowedSoFar first came (before ++ self.old.node ∷ []) self.new }
    {
        self.phase = ask(&self.node, &mut self.out);
    }

    /// Its link and its node.
    pub fn into_parts(self) -> (K, Node)
        ensures link { K.shows result.0 ≡ self.line }
        ensures node { result.1 ≡ self.node }
    {
        let Follower {
            link,
            node,
            reader: _,
            out: _,
            phase: _,
        } = self;
        (link, node)
    }
}

impl<K: ReadyLink + Drop> Follower<K> {
    /// Its node; its link ends.
    pub fn into_node(self) -> Node
        ensures { result ≡ self.node }
    {
        let (_, node) = self.into_parts();
        node
    }
}
