//! The laws of what is kept of all that is asked, apart from any code. The functions do nothing; each has a law as its
//! contract.
ghost use Rattle.cc_known.specs.ComparedAgain.{ComparedAgain, ComparedEmbedded, SettledEmbedded};
ghost use Rattle.cc_known.specs.FilledHoles as holes;
ghost use Rattle.cc_type.specs.KeepingExamples as example;
ghost use Rattle.cc_known.specs.KeepingLaws as keeping;
ghost use Rattle.cc_type.specs.LoggedInference.{InferenceOverLogs};
ghost use Rattle.cc_known.specs.Signatures as signature;

/// The test of sets decides subcapturing.
pub fn test_of_sets()
    ensures { keeping.TestOfSetsDecides }
{}

/// Every filling serves what is settled, and none what is lost.
pub fn settled()
    ensures served { keeping.SettledIsServed }
    ensures never_served { keeping.LostIsNeverServed }
{}

/// What is kept was asked and is not settled; all that may force something is kept, and behind what is lost nothing else.
/// So one thing at most is kept where there is no hole.
pub fn kept_alone()
    ensures not_settled { keeping.KeptIsNotSettled }
    ensures may_force { keeping.WhatMayForceIsKept }
    ensures one_lost { keeping.OneLostIsEnough }
    ensures one { keeping.OneIsKeptWithoutHoles }
    ensures of_both { keeping.KeptOfBoth }
{}

/// What is kept has the same least filling, is served by the same fillings, fails first alike, and is fit where all is.
pub fn kept()
    ensures forces { keeping.KeptForcesTheSame }
    ensures repeated { keeping.RepeatedIsServed }
    ensures served { keeping.KeptIsServedAlike }
    ensures fails { keeping.KeptFailsAlike }
    ensures fit { keeping.KeptIsFit }
{}

/// A comparison that comes again where other binders were passed tells the same of what it demands.
pub fn compared_again()
    ensures { ComparedAgain }
{}

/// So does one that comes again where the entries that it goes by stand elsewhere, and so does each demand.
pub fn compared_embedded()
    ensures compared { ComparedEmbedded }
    ensures settled { SettledEmbedded }
{}

/// The greatest position is the greatest that is free; among globals it is that of a definition.
pub fn greatest_positions()
    ensures greatest { signature.GreatestPositionIsGreatest }
    ensures entry { signature.GreatestPositionHasAnEntry }
{}

/// A signature comes by avoiding the greatest position that is free, again and again, until none is left from the
/// devices on; each time it is a lower one.
pub fn signatures()
    ensures over_devices { signature.SignatureOfDevicesAlone }
    ensures avoids { signature.SignatureAvoidsTheGreatest }
    ensures falls { signature.GreatestPositionFalls }
{}

/// The holes of a term are counted, and a list with a set for each fills them.
pub fn filled_holes()
    ensures counted { holes.HolesAreCounted }
    ensures agreeing { holes.AgreeingFillingsFillAlike }
    ensures lists { holes.ListsFillAlike }
{}

/// What is found and asked has no other holes than what it is found for.
pub fn found_holes()
    ensures inference { holes.InferenceAddsNoHole }
    ensures checking { holes.CheckingAddsNoHole }
{}

/// As the program goes through a term, it comes to what inference comes to, and keeps what that asks.
pub fn inference_over_logs()
    ensures { InferenceOverLogs }
{}

/// Worked examples of what is kept, and of greatest positions.
pub fn examples()
    ensures numbers { example.NumbersAreBelowNothing }
    ensures consoles { example.ConsolesAreKept }
    ensures forced { example.NumbersAreForced }
    ensures holes { example.HolesAreBelowThemselves }
    ensures capless { example.HolesMayHaveCap }
    ensures lost { example.ConsolesAreLost }
    ensures kept { example.OneLostAndWhatForcesAreKept }
    ensures may_fail { example.WhatMayFailIsKept }
    ensures repeated { example.RepeatedIsKeptOnce }
    ensures alike { example.OneOfAlikeEndsIsKept }
    ensures above { example.LocalsAboveAreNotSeen }
    ensures greatest { example.GreatestIsFound }
{}
