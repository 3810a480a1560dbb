//! Exposing a shape. The function does nothing.
ghost use Rattle.cc_typing_laws.specs.ExposingLaws as law;

/// Exposing follows type variables to their bounds until there is none, and only goes up.
pub fn exposing_follows_bounds()
    ensures bounds { law.ExposingFollowsBounds }
    ensures no_variable { law.ExposedIsNoVariable }
    ensures others { law.OnlyVariablesAreExposed }
    ensures above { law.ExposedIsAbove }
{}
