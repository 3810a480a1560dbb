//! The laws of replies and of outputs. The functions do nothing.
ghost use Rattle.cc_replies.specs.Outputs.{OutputsAreUnique};
ghost use Rattle.cc_replies.specs.ReplyLaws as law;
ghost use Rattle.cc_replies.specs.StaleModules.{StaleModulesAreCountedOnce};

/// A command has one reply, and leaves texts in order of name, one for each name.
pub fn commands_have_one_reply()
    ensures stay { law.TextsStayPresent }
    ensures exist { law.RepliesExist }
    ensures unique { law.RepliesAreUnique }
{}

/// What an audit tells of a device is what the rules decide. A definition is run where they permit it, and else refused.
pub fn permitted_entries_are_run()
    ensures decided { law.ToldDecisionsAreDecided }
    ensures tested { law.PermissionIsTested }
    ensures run { law.PermittedEntriesAreRun }
    ensures refused { law.OtherEntriesAreNotRun }
{}

/// The commands of a job have one output.
pub fn commands_have_one_output()
    ensures exist { law.OutputsExist }
    ensures unique { OutputsAreUnique }
    ensures joined { law.OutputsAreJoined }
{}

/// The commands of a job find some number of modules stale, and no other.
pub fn stale_modules_are_counted()
    ensures exist { law.StaleModulesAreCounted }
    ensures unique { StaleModulesAreCountedOnce }
{}
