//! Worked verdicts of texts. The functions do nothing; each has what it shows as its contract.
#![tactic(auto)]

pub mod accepted_texts;
pub mod acted_forms;
pub mod avoided_texts;
pub mod captured_texts;
pub mod compared_texts;
pub mod elaborated_texts;
pub mod exposed_texts;
pub mod filled_texts;
pub mod grammar_levels;
pub mod grammar_verdicts;
pub mod height_verdicts;
pub mod name_forms;
pub mod name_verdicts;
pub mod named_operands;
pub mod occurring_forms;
pub mod operand_texts;
pub mod part_verdicts;
pub mod refusal_orders;
pub mod refusal_places;
pub mod shape_sizes;
pub mod sized_texts;
pub mod standing_forms;
pub mod start_places;
pub mod string_verdicts;
pub mod token_verdicts;
pub mod word_verdicts;
pub mod written_texts;
