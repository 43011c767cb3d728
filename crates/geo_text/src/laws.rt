//! Laws of the acceptance of texts. Each is the contract of a function that does nothing.

ghost use Rattle.geo_text.specs.Laws.{PointsAreStored, BoundsAreStored, OthersAreWalked, TextsHaveOneAnswer};

/// What is stored for points and boxes is accepted with its shape, and every other text is read as JSON.
pub fn stored_texts()
    ensures points { PointsAreStored }
    ensures bounds { BoundsAreStored }
    ensures others { OthersAreWalked }
{}

/// Of every text exactly one holds: it is accepted, with one shape, or refused, with one fault.
pub fn texts_have_one_answer()
    ensures { TextsHaveOneAnswer }
{}
