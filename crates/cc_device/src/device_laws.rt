//! The device table, by its laws and by example. The functions do nothing.
ghost use Rattle.cc_device.specs.DeviceLaws as law;
ghost use Rattle.cc_device.specs.WorkedAnswers as example;
ghost use Rattle.cc_device.specs.WorkedScopes as scopes;

/// An operation touches one device, and keeps its shape and the number of the devices.
pub fn operations_touch_one_device()
    ensures shape { law.DevicesKeepTheirShape }
    ensures answers { law.OperatedDevicesAnswer }
    ensures others { law.OtherDevicesStay }
    ensures shapes { law.ShapesOfDevicesStay }
    ensures number { law.NumberOfDevicesStays }
{}

/// What each kind of device answers, by example, and what has no answer.
pub fn worked_answers()
    ensures consoles { example.ConsolesTakeLines }
    ensures files_give { example.FilesGiveTheirNumbers }
    ensures files_take { example.FilesTakeNumbers }
    ensures counters { example.CountersCount }
    ensures other_kinds { example.OtherKindsDoNotAnswer }
    ensures other_arguments { example.OtherArgumentsHaveNoAnswer }
    ensures by_number { example.DevicesAnswerByTheirNumbers }
{}

/// Which events are well scoped, by example, and which are not.
pub fn worked_scopes()
    ensures fit { scopes.ScopesThatFit }
    ensures do_not_fit { scopes.ScopesThatDoNotFit }
{}
