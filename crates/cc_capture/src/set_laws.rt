//! The laws of elements and capture sets, which hold of the values that contracts see. The functions do nothing.
ghost use Rattle.cc_capture.specs.SetLaws as law;

/// How the order of elements compares them.
pub fn order_of_elements()
    ensures total { law.ElementOrderIsTotal }
    ensures equal { law.EqualElementsAreOne }
    ensures free_variables { law.FreeVariablesRise }
    ensures bound_variables { law.BoundVariablesFall }
    ensures holes { law.HolesRise }
    ensures free_before_bound { law.FreeBeforeBound }
    ensures bound_before_cap { law.BoundBeforeCap }
    ensures cap_before_holes { law.CapBeforeHoles }
{}

/// What the tests of equality say.
pub fn tests_of_equality()
    ensures variables { law.SameVariableDecides }
    ensures elements { law.SameElementDecides }
    ensures sets { law.SameSetDecides }
{}

/// When two sets are one.
pub fn equality_of_sets()
    ensures lists { law.SameListsAreOneSet }
    ensures members { law.SameMembersAreOneSet }
    ensures listed { law.MembersAreListed }
{}

/// Which members the set of each operation has.
pub fn membership()
    ensures empty { law.MemberOfEmpty }
    ensures insert { law.MemberOfInsert }
    ensures remove { law.MemberOfRemove }
    ensures union { law.MemberOfUnion }
    ensures from_list { law.MemberOfFromList }
    ensures retain { law.MemberOfRetain }
    ensures image { law.MemberOfImage }
    ensures flat_image { law.MemberOfFlatImage }
{}

/// How images behave.
pub fn images()
    ensures compose { law.ImagesCompose }
    ensures identity { law.IdentityKeepsSets }
    ensures agree { law.ImagesAgree }
    ensures of_union { law.ImageOfUnion }
    ensures flat_compose { law.FlatImagesCompose }
    ensures flat_agree { law.FlatImagesAgree }
    ensures flat_of_union { law.FlatImageOfUnion }
    ensures flat_of_singles { law.FlatImageOfSingles }
{}

/// How inclusion and unions behave.
pub fn inclusion_and_unions()
    ensures inclusion { law.SubsetDecidesInclusion }
    ensures associative { law.UnionIsAssociative }
    ensures commutative { law.UnionIsCommutative }
    ensures idempotent { law.UnionIsIdempotent }
    ensures empty { law.EmptyIsUnitOfUnion }
{}
