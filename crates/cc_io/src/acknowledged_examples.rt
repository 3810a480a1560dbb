//! Worked examples of what a writer has beside what was acknowledged. The function does nothing.
ghost use Rattle.cc_io.specs.AcknowledgedExamples as worked;

/// What a writer has where no write failed, and where one or two did.
pub fn worked_acknowledgements()
    ensures nothing { worked.NothingBesides }
    ensures some { worked.SomeBesides }
    ensures lacks { worked.NothingLacks }
{}
