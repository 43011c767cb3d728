//! Classes of a pattern, gone over for one character.
//!
//! In a class `\c` may be either end of a range, `\-` is never its dash, and `^` negates in the first place alone.

ghost use Rattle.std.specs.Prelude.{◌≡◌, Bool, List, ℕ, ◌<◌, ◌∷◌, [], MatchOption, IfSome, length, ◌||◌, ◌&&◌, nat_le};
ghost use Rattle.std.specs.Prelude.{not, if◌then◌else◌};
ghost use Rattle.byte_text.specs.Globs.{Item, outside, opened, behind_item, behind_char};
ghost use Rattle.glob_match.specs.Tokens.{left, Begins};
ghost use Rattle.glob_match.specs.Classes.{OnItem, IsShorter};

use crate::signs::{SignAt, sign_at};

// The end of a range, where a `-` and then a character other than the closing `]` stand.
fn range_end(text: &str) -> Option<(char, &str)>
    ensures shorter { IfSome result (λ x. length x.1.now < length text.now) }
    ensures read { (others : Bool) (items : List Item) (low : ℕ) → MatchOption result
        (left text.now (behind_char others items low) ≡ left text.now (behind_item others ((low, low) ∷ items)))
        (λ x. left text.now (behind_char others items low) ≡ left x.1.now (behind_item others ((low, x.0) ∷ items))) }
{
    match sign_at(text) {
        SignAt::Plain('-', behind) => match sign_at(behind) {
            SignAt::Plain(']', _) => None,
            SignAt::Plain(high, behind) => Some((high, behind)),
            SignAt::Literal(high, behind) => Some((high, behind)),
            SignAt::Unpaired => None,
            SignAt::End => None,
        },
        SignAt::Plain(_, _) => None,
        SignAt::Literal(_, _) => None,
        SignAt::Unpaired => None,
        SignAt::End => None,
    }
}

/// What stands next in a class, and the text behind it.
enum ItemAt<'a> {
    /// The pattern ends in the class.
    Broken,
    /// The `]` of the class.
    Closed(&'a str),
    /// The characters from one to another.
    Range(char, char, &'a str),
}

// The item that begins with a character.
fn range_from(low: char, text: &str) -> ItemAt<'_>
    ensures read { (others : Bool) (items : List Item)
        → OnItem result (left text.now (behind_char others items low)) others items }
    ensures shorter { (len : ℕ) → length text.now < len → IsShorter result len }
{
    match range_end(text) {
        None => ItemAt::Range(low, low, text),
        Some((high, behind)) => ItemAt::Range(low, high, behind),
    }
}

// The next item of a class, or its end.
fn item_at(text: &str) -> ItemAt<'_>
    ensures read { (others : Bool) (items : List Item)
        → OnItem result (left text.now (behind_item others items)) others items }
    ensures shorter { IsShorter result (length text.now) }
{
    match sign_at(text) {
        SignAt::Plain(']', behind) => ItemAt::Closed(behind),
        SignAt::Plain(low, behind) => range_from(low, behind),
        SignAt::Literal(low, behind) => range_from(low, behind),
        SignAt::Unpaired => ItemAt::Broken,
        SignAt::End => ItemAt::Broken,
    }
}

fn or_within(hit: bool, low: char, high: char, c: char) -> bool
    ensures { result ≡ ((nat_le low c && nat_le c high) || hit) }
{
    low <= c && c <= high || hit
}

fn is_hit(others: bool, hit: bool) -> bool
    ensures { result ≡ (if others then not hit else hit) }
{
    if others { !hit } else { hit }
}

// Goes on in a class: whether the character meets it, and what stands behind its `]`.
fn class_at(text: &str, others: bool, c: char) -> Option<(bool, &str)>
    ensures shorter { IfSome result (λ x. length x.1.now < length text.now) }
    ensures read { MatchOption result (left text.now (behind_item others []) ≡ None)
        (λ x. Begins (left text.now (behind_item others [])) (left x.1.now outside) c x.0) }
{
    let mut rest = text;
    let mut some = false;
    let mut hit = false;
    loop {
        match item_at(rest) {
            ItemAt::Broken => return None,
            ItemAt::Closed(behind) => {
                if some {
                    return Some((is_hit(others, hit), behind));
                }
                return None;
            }
            ItemAt::Range(low, high, behind) => {
                hit = or_within(hit, low, high, c);
                some = true;
                rest = behind;
            }
        }
    }
}

// A class behind its `[`.
pub(crate) fn whole_class_at(text: &str, c: char) -> Option<(bool, &str)>
    ensures shorter { IfSome result (λ x. length x.1.now < length text.now) }
    ensures read { MatchOption result (left text.now opened ≡ None)
        (λ x. Begins (left text.now opened) (left x.1.now outside) c x.0) }
{
    match sign_at(text) {
        SignAt::Plain('^', behind) => class_at(behind, true, c),
        SignAt::Plain(_, _) => class_at(text, false, c),
        SignAt::Literal(_, _) => class_at(text, false, c),
        SignAt::Unpaired => None,
        SignAt::End => None,
    }
}
