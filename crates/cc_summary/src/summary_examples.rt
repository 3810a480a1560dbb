//! Worked summaries. The function does nothing.
ghost use Rattle.cc_summary.specs.SummaryExamples as worked;

/// Texts with their summaries.
pub fn worked_summaries()
    ensures three_lines { worked.ThreeLines }
    ensures no_indent { worked.NoIndent }
    ensures other_indents { worked.OtherIndents }
    ensures no_line { worked.NoLine }
    ensures empty_last_line { worked.EmptyLastLine }
    ensures open_last_line { worked.OpenLastLine }
{}
