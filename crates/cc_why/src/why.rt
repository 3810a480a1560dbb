//! Why a module is refused.

use cc_base::code::Diag;
use cc_elaboration_reasoning::ElaborationCause;
use cc_labels::Line;

/// The lines of a reason.
#[derive(Drop)]
pub enum ReasonLines {
    /// Words alone.
    Words(Vec<String>),
    /// Those of a cause of elaboration.
    OfCause(ElaborationCause),
    /// Words, and maybe types behind them.
    Labelled(Vec<Line>),
}

/// What is answered where it is asked why a module is refused.
#[derive(Drop)]
pub enum Why {
    /// No module of the name is present.
    NoSuchModule,
    /// The module is accepted.
    NotRefused,
    /// The module is refused, for the reason of these lines.
    RefusedSince(Diag, ReasonLines),
}
