//! Laws of steps and of runs, whether what runs is typed or not. The functions do nothing.
ghost use Rattle.cc_runs.specs.RunLaws as law;

/// Exactly the answered configurations are final.
pub fn answers_are_final()
    ensures configurations { law.FinalExactlyWhereAnswered }
    ensures states { law.FinalStatesAreAnswered }
{}

/// A run is its steps, as many as its fuel allows; it ends where its last state does; and runs follow one another.
pub fn runs_are_their_steps()
    ensures exact { law.RunsAreExact }
    ensures within_fuel { law.StepsAreWithinFuel }
    ensures out_of_fuel { law.OutOfFuelExactly }
    ensures done { law.DoneExactly }
    ensures follow { law.RunsFollowRuns }
{}

/// The device table answers exactly what suits a device; a move touches one device, and keeps the shapes of all.
pub fn devices_are_kept()
    ensures answers { law.DevicesAnswerWhatSuits }
    ensures touched { law.MovesTouchOneDevice }
    ensures kept { law.MovesKeepTheDevices }
{}
