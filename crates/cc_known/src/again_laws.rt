//! The laws of what is kept once, apart from any code. The function does nothing.
ghost use Rattle.cc_known.specs.EndsAgain.{KeptComparedAgain, ComesBehindMore, ComesNeedless};

/// A comparison of which all that was kept is kept already keeps nothing where it comes again.
pub fn comes_again()
    ensures compared { KeptComparedAgain }
    ensures more { ComesBehindMore }
    ensures needless { ComesNeedless }
{}
