//! Texts with trees of height 100, and with one level more. The functions do nothing.
ghost use Rattle.cc_worked_texts.specs.HeightVerdicts as example;

/// Each part of an expression makes it one higher than itself: 98 parentheses around a leaf are just low enough.
pub fn parts()
    ensures { example.PartHeights }
{}

/// Each construct inside itself, as often as it may be.
pub fn nested()
    ensures { example.NestedHeights }
{}

/// What goes on an expression is one higher than the highest part in front of it.
pub fn linked()
    ensures { example.LinkedHeights }
{}

/// The leaves of a type.
pub fn leaves()
    ensures { example.LeafHeights }
{}
