//! What followers of a hall show. Each is the contract of a function that does nothing.

ghost use Rattle.shared_hall.specs.Followers.{FollowersShowHistories, FollowersTakeParts, PartsAreAnswered};
ghost use Rattle.shared_hall.specs.Restarts.{FollowersOutlive, FollowersTakeLives, HistoriesAreLives};

use outside::Disk;
use repl_node::followers_show_beginnings;
use repl_stream::stream_laws;

/// A node that has heard parts which a hall gave, whatever of them was lost, repeated or out of order, shows nothing,
/// or the world of a beginning of the hall's history that ends with the entry of such a part; and it refuses none of
/// them for what it says.
pub fn followers_show_histories()
    ensures answered { PartsAreAnswered }
    ensures shown { FollowersShowHistories }
    ensures taken { FollowersTakeParts }
{
    followers_show_beginnings();
    stream_laws();
}

/// The same of a leader that starts anew, over and over, each time on what a crash left of its disk: parts of all its
/// lives are of logs that only grew.
pub fn followers_outlive_leaders()
    ensures shown { FollowersOutlive }
    ensures taken { FollowersTakeLives }
{
    followers_show_beginnings();
    stream_laws();
}

/// The history of a hall over a disk is a life of such a leader.
pub fn histories_are_lives<D: Disk>()
    ensures { HistoriesAreLives D.seen D.images D.left_since }
{}
