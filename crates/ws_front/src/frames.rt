//! Where the first frame of some bytes ends.

ghost use Rattle.std.specs.Prelude.{◌≡◌, ◌<◌, ◌≤◌, ◌++◌, List, ℕ, length, take, IfSome, Some};
ghost use Rattle.ws_front.specs.FrameTexts.{IsFrameText};

use crate::pieces::first_piece;

/// How many bytes the whole reply at the front takes (RESP2). None where the bytes begin with none.
pub fn frame_end(bytes: &[u8]) -> Option<usize>
    ensures made { IfSome result (λ n. (0 < n) × (n ≤ length bytes.now) × IsFrameText (take n bytes.now)) }
    ensures only { (frame behind : List ℕ) → IsFrameText frame → bytes.now ≡ frame ++ behind
        → result ≡ Some (length frame) }
{
    let mut rest = bytes;
    // So many replies are still to end.
    let mut due = 1;
    while due > 0 {
        let (inside, behind) = first_piece(rest)?;
        let others = due - 1;
        let inside = inside as usize;
        // Each has a byte at least.
        if others > behind.len() || inside > behind.len() - others {
            return None;
        }
        due = others + inside;
        rest = behind;
    }
    Some(bytes.len() - rest.len())
}
