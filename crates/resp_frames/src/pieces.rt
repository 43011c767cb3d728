//! A piece of a stream, gone over up to the end of a request.

ghost use Rattle.std.specs.Prelude.{◌≡◌, ◌≤◌, ◌<◌, ◌++◌, List, ℕ, length};
ghost use Rattle.resp_frames.specs.RequestPlaces.{IsPlace, from};
ghost use Rattle.resp_frames.specs.Pieces.{Says};

use crate::request_places::{Next, Place, step};
use byte_text::RespFault;

/// What comes of a piece.
#[derive(Clone, Copy, Debug, PartialEq, Eq)]
pub(crate) enum Scan {
    /// The request goes on behind the piece.
    Goes(Place),
    /// So many bytes of the piece end the request.
    Whole(usize),
    Fails(RespFault),
}

// The place behind the bytes of a word that may come next, of which there are at most so many, and how many these are.
fn behind_run(place: Place, most: usize) -> (Place, usize)
    requires { IsPlace place }
    ensures place { IsPlace result.0 }
    ensures most { result.1 ≤ most }
    ensures reads { (run more : List ℕ) → length run ≡ result.1 → from place (run ++ more) ≡ from result.0 more }
{
    match place {
        Place::Word(ahead, len, left) => {
            let run = (left as usize).min(most);
            (Place::Word(ahead, len, left - run as u32), run)
        }
        _ => (place, 0),
    }
}

// Goes over a piece, up to the end of a request. The bytes of a word are passed over together.
pub(crate) fn read_piece(place: Place, piece: &[u8]) -> Scan
    requires { IsPlace place }
    ensures { Says place piece.now result }
{
    let mut place = place;
    let mut at = 0;
    while at < piece.len() {
        let (behind, run) = behind_run(place, piece.len() - at);
        at += run;
        if at == piece.len() {
            return Scan::Goes(behind);
        }
        match step(behind, piece[at]) {
            Next::Goes(next) => place = next,
            Next::Whole => return Scan::Whole(at + 1),
            Next::Fails(fault) => return Scan::Fails(fault),
        }
        at += 1;
    }
    Scan::Goes(place)
}
