//! Each law is the contract of a function that does nothing.

ghost use Rattle.delivery_model.specs.Laws.{PlacingIsOfSessions, EachTakesItsOwn, StagingIsSound, EachHears};
ghost use Rattle.delivery_model.specs.Laws.{ServedByCounts, ServedTakesAll, DueIsStaged, PlanDoesCall, CallBySessions};
ghost use Rattle.delivery_model.specs.Laws.{NoneSubscribesAndChanges, OthersAnswer, SubscribingKeeps};
ghost use Rattle.delivery_model.specs.Laws.{SubscribedAreServedFour, SubscribedChangeNothing, OwnCallNeverCuts};
ghost use Rattle.delivery_model.specs.Laws.{OneReplyAnswers, AnswersFit, ConfirmationsFit, CallsHavePlans};
ghost use Rattle.delivery_model.specs.Laws.{TouchedAreNamed, NoneListeningNoneStaged, WithoutChannelsNoneStaged};
ghost use Rattle.delivery_model.specs.Laws.{StagedInTurn, HeardInTurn, StagedAreStaged, StagedListsServe};
ghost use Rattle.delivery_model.specs.Laws.{EnoughIsEnough, AllSuffice, RisingHaveOwnNumbers};

/// Writes in order are done by staging all that they bring, with the sessions as they were before the first of them,
/// and placing it after the last.
pub fn staging_laws()
    ensures sessions { PlacingIsOfSessions }
    ensures own { EachTakesItsOwn }
    ensures sound { StagingIsSound }
    ensures each { EachHears }
    ensures rising { RisingHaveOwnNumbers }
    ensures staged { StagedAreStaged }
    ensures lists { StagedListsServe }
    ensures enough { EnoughIsEnough }
    ensures all { AllSuffice }
{}

/// Whether a session is cut is told by the number and the bytes of all its frames together.
pub fn room_laws()
    ensures counts { ServedByCounts }
    ensures all { ServedTakesAll }
{}

/// What a call does, staged whole before anything is changed, is what the machine does.
pub fn call_laws()
    ensures due { DueIsStaged }
    ensures call { PlanDoesCall }
    ensures by_sessions { CallBySessions }
    ensures plans { CallsHavePlans }
    ensures touched { TouchedAreNamed }
{}

/// What effects are made of.
pub fn effect_laws()
    ensures either { NoneSubscribesAndChanges }
    ensures others { OthersAnswer }
    ensures subscribing { SubscribingKeeps }
    ensures four { SubscribedAreServedFour }
    ensures nothing { SubscribedChangeNothing }
{}

/// A session without subscriptions that is not full is not cut by its own call.
pub fn own_laws()
    ensures own { OwnCallNeverCuts }
    ensures one { OneReplyAnswers }
    ensures answers { AnswersFit }
    ensures confirmations { ConfirmationsFit }
{}

/// Where nothing is staged, and writes in turn.
pub fn silent_laws()
    ensures listening { NoneListeningNoneStaged }
    ensures channels { WithoutChannelsNoneStaged }
    ensures turn { StagedInTurn }
    ensures heard { HeardInTurn }
{}
