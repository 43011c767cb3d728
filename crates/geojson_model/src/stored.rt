//! The texts that are stored for points and boxes, read back without JSON.

ghost use Rattle.std.specs.Prelude.{◌≡◌, ℕ, ℤ, List, ◌++◌, ◌∷◌, [], ◌<◌, length, get_or, IfSome, IsSome, IsTrue, ◌↔◌};
ghost use Rattle.std.specs.Prelude.{FitsSigned, Some, ◌⊎◌};
ghost use Rattle.std.specs.Int.{w64};
ghost use Rattle.planar_geom.specs.Points.{Point, Bounds, InPlane, IsBox, pt, same_point};
ghost use Rattle.geo_text.specs.Texts as texts;
ghost use Rattle.geojson_model.specs.Stored.{ended, Without, position_then, point_form, ring_form, bounds_form};

use byte_text::read_i64;
use planar_geom::{BBox, Pt};

/// What stands before a point's position.
pub(crate) const POINT_HEAD: &[u8] = b"{\"type\":\"Point\",\"coordinates\":";

/// What stands before the corners of a box.
pub(crate) const BOUNDS_HEAD: &[u8] = b"{\"type\":\"Polygon\",\"coordinates\":[[";

/// What stands behind them.
pub(crate) const BOUNDS_TAIL: &[u8] = b"]]}";

// The corner with the x of one point and the y of another.
fn corner(x_of: Pt, y_of: Pt) -> Pt
    ensures { result ≡ pt x_of.x y_of.y }
{
    match Pt::of(i64::from(x_of.x()), i64::from(y_of.y())) {
        Some(p) => p,
        None => unreachable!(),
    }
}

/// The corners of a box, from its min round to its min.
pub(crate) fn corners(b: BBox) -> [Pt; 5]
    ensures corners { result ≡ texts.corners b }
    ensures is_box { IsBox b }
{
    let low = b.min();
    let high = b.max();
    [low, corner(high, low), high, corner(low, high), low]
}

/// Whether two points are one.
pub(crate) fn is_same(p: Pt, q: Pt) -> bool
    ensures { result ≡ same_point p q }
{
    p.x() == q.x() && p.y() == q.y()
}

// What stands behind a piece in front.
fn behind<'a>(text: &'a [u8], piece: &[u8]) -> Option<&'a [u8]>
    ensures found { IfSome result (λ rest. text.now ≡ piece.now ++ rest.now) }
    ensures only { (rest : List ℕ) → text.now ≡ piece.now ++ rest → IsSome result × IfSome result (λ r. r.now ≡ rest) }
{
    text.strip_prefix(piece)
}

// The place of the first such byte.
fn place_of(bytes: &[u8], end: u8) -> Option<usize>
    ensures found { IfSome result (λ at. (at < length bytes.now) × (get_or bytes.now at 0 ≡ end)) }
    ensures first { (text rest : List ℕ) → Without end text → bytes.now ≡ text ++ end ∷ rest
        → result ≡ Some (length text) }
{
    for at in 0..bytes.len() {
        if bytes[at] == end {
            return Some(at);
        }
    }
    None
}

// The canonical number in front, which this byte ends, and what stands behind that byte.
fn number_until(bytes: &[u8], end: u8) -> Option<(i64, &[u8])>
    requires { (end ≡ 44) ⊎ (end ≡ 93) }
    ensures found { IfSome result (λ x. bytes.now ≡ ended x.0 end x.1.now) }
    ensures only { (z : ℤ) (rest : List ℕ) → FitsSigned w64 z → bytes.now ≡ ended z end rest
        → IfSome result (λ x. (x.0 ≡ z) × (x.1.now ≡ rest)) × IsSome result }
{
    let at = match place_of(bytes, end) {
        Some(at) => at,
        None => return None,
    };
    let (digits, behind) = bytes.split_at(at);
    match read_i64(digits) {
        Ok(z) => Some((z, &behind[1..])),
        Err(_) => None,
    }
}

// The position in front, and what stands behind it.
fn position(text: &[u8]) -> Option<(Pt, &[u8])>
    ensures found { IfSome result (λ r. InPlane r.0 × (text.now ≡ position_then r.0 r.1.now)) }
    ensures only { (p : Point) (rest : List ℕ) → InPlane p → text.now ≡ position_then p rest
        → IsSome result × IfSome result (λ r. (r.0 ≡ p) × (r.1.now ≡ rest)) }
{
    let Some(rest) = behind(text, b"[") else {
        return None;
    };
    let Some((x, rest)) = number_until(rest, b',') else {
        return None;
    };
    let Some((y, rest)) = number_until(rest, b']') else {
        return None;
    };
    match Pt::of(x, y) {
        Some(p) => Some((p, rest)),
        None => None,
    }
}

// A comma and the position behind it, and what stands behind that.
fn next_position(text: &[u8]) -> Option<(Pt, &[u8])>
    ensures found { IfSome result (λ r. InPlane r.0 × (text.now ≡ 44 ∷ position_then r.0 r.1.now)) }
    ensures only { (p : Point) (rest : List ℕ) → InPlane p → text.now ≡ 44 ∷ position_then p rest
        → IsSome result × IfSome result (λ r. (r.0 ≡ p) × (r.1.now ≡ rest)) }
{
    match behind(text, b",") {
        Some(rest) => position(rest),
        None => None,
    }
}

fn is(text: &[u8], other: &[u8]) -> bool
    ensures { IsTrue result ↔ (text.now ≡ other.now) }
{
    text == other
}

/// The point of which this is the stored text.
pub(crate) fn stored_point(text: &[u8]) -> Option<Pt>
    ensures found { IfSome result (λ p. InPlane p × (text.now ≡ point_form p)) }
    ensures only { (p : Point) → InPlane p → text.now ≡ point_form p → IsSome result }
{
    let Some(rest) = behind(text, POINT_HEAD) else {
        return None;
    };
    let Some((p, rest)) = position(rest) else {
        return None;
    };
    if is(rest, b"}") { Some(p) } else { None }
}

// The box with these corners, from its min round to its min.
fn box_with(low: Pt, beside: Pt, high: Pt, above: Pt, last: Pt) -> Option<BBox>
    ensures found { IfSome result (λ b. IsBox b × (low ∷ beside ∷ high ∷ above ∷ last ∷ [] ≡ texts.corners b)) }
    ensures only { (b : Bounds) → IsBox b → low ∷ beside ∷ high ∷ above ∷ last ∷ [] ≡ texts.corners b → IsSome result }
{
    let Some(b) = BBox::of(low, high) else {
        return None;
    };
    if is_same(beside, corner(high, low))
        && is_same(above, corner(low, high))
        && is_same(last, b.min())
    {
        Some(b)
    } else {
        None
    }
}

// The box whose corners stand here, with commas between them and nothing but the end of the text behind.
fn ring_box(text: &[u8]) -> Option<BBox>
    ensures found { IfSome result (λ b. IsBox b × (text.now ≡ ring_form b)) }
    ensures only { (b : Bounds) → IsBox b → text.now ≡ ring_form b → IsSome result }
{
    let Some((low, rest)) = position(text) else {
        return None;
    };
    let Some((beside, rest)) = next_position(rest) else {
        return None;
    };
    let Some((high, rest)) = next_position(rest) else {
        return None;
    };
    let Some((above, rest)) = next_position(rest) else {
        return None;
    };
    let Some((last, rest)) = next_position(rest) else {
        return None;
    };
    if is(rest, BOUNDS_TAIL) {
        box_with(low, beside, high, above, last)
    } else {
        None
    }
}

/// The box of which this is the stored text.
pub(crate) fn stored_bounds(text: &[u8]) -> Option<BBox>
    ensures found { IfSome result (λ b. IsBox b × (text.now ≡ bounds_form b)) }
    ensures only { (b : Bounds) → IsBox b → text.now ≡ bounds_form b → IsSome result }
{
    let Some(rest) = behind(text, BOUNDS_HEAD) else {
        return None;
    };
    ring_box(rest)
}
