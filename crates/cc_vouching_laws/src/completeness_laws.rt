//! The laws of what is accepted. The functions do nothing.
ghost use Rattle.cc_vouching_laws.specs.Completeness as law;
ghost use Rattle.cc_vouching_laws.specs.FilledRightLaws as filled_law;
ghost use Rattle.cc_vouching_laws.specs.Orders as order_law;
ghost use Rattle.cc_vouching_laws.specs.SignatureLaws as signature_law;

/// The term of an accepted definition is its right side with its omitted sets filled in.
pub fn accepted_rights_are_filled()
    ensures { filled_law.AcceptedRightsAreFilled }
{}

/// The type that others see of an accepted definition is that of the type that is written for it.
pub fn signatures_are_of_what_is_written()
    ensures { signature_law.SignaturesAreOfWhatIsWritten }
{}

/// An accepted present module is vouched for with the certificates that are written for its definitions.
pub fn accepted_modules_are_vouched_for()
    ensures { law.AcceptedModulesAreVouchedFor }
{}

/// Accepted modules, each behind those that it imports from, are vouched for one after another.
pub fn accepted_modules_are_vouched_for_in_order()
    ensures { order_law.AcceptedModulesInOrderAreVouchedFor }
{}
