//! The laws of the links of modules. The functions do nothing.
ghost use Rattle.cc_link.specs.ModuleLinkLaws as law;

/// The entries of modules name earlier entries alone.
pub fn entries_name_earlier_ones()
    ensures { law.EntriesNameEarlier }
{}

/// The entry of a definition has what it links to by its names, each with its number.
pub fn entries_are_numbered()
    ensures { law.EntriesAreNumbered }
{}
