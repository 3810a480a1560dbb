//! Typing along maps of contexts. The functions do nothing.
ghost use Rattle.cc_typing_laws.specs.MappedTyping as law;

/// Typing is kept along each map of contexts, and so by renaming.
pub fn maps_keep_typing()
    ensures maps { law.TypingAlongMaps }
    ensures renames { law.TypingRenames }
{}
