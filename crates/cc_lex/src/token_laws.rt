ghost use Rattle.cc_lex.specs.TokenExamples.{WorkedTokens, WorkedStops};
ghost use Rattle.cc_lex.specs.TokenLaws.{BytesHaveTokensOrARefusal, NoBytesHaveTokensAndARefusal, BytesHaveOneListOfTokens, BytesHaveOneRefusal, TokensAreGiven, RefusalsAreGiven, SpansSpellTheirTokens, SpansAreInOrder, TokensAreWellFormed};

/// All bytes have tokens or a refusal.
pub fn bytes_have_tokens_or_a_refusal()
    ensures { BytesHaveTokensOrARefusal }
{}

/// No bytes have both.
#[tactic(auto, using(crate::proofs::AnswerLaws::not_both))]
pub fn no_bytes_have_tokens_and_a_refusal()
    ensures { NoBytesHaveTokensAndARefusal }
{}

/// No bytes have two lists of tokens.
#[tactic(auto, using(crate::proofs::AnswerLaws::one_list))]
pub fn bytes_have_one_list_of_tokens()
    ensures { BytesHaveOneListOfTokens }
{}

/// No bytes have two refusals.
#[tactic(auto, using(crate::proofs::AnswerLaws::one_refusal))]
pub fn bytes_have_one_refusal()
    ensures { BytesHaveOneRefusal }
{}

/// A right answer for bytes that have tokens gives them, want of memory aside.
#[tactic(auto, using(crate::proofs::AnswerLaws::tokens_given))]
pub fn tokens_are_given()
    ensures { TokensAreGiven }
{}

/// A right answer for bytes that are refused is their refusal, want of memory aside.
#[tactic(auto, using(crate::proofs::AnswerLaws::refusal_given))]
pub fn refusals_are_given()
    ensures { RefusalsAreGiven }
{}

/// Each token is spelled by the bytes that it spans.
#[tactic(auto, using(crate::proofs::TokenLaws::spans_spell))]
pub fn spans_spell_their_tokens()
    ensures { SpansSpellTheirTokens }
{}

/// The spans of tokens come one after another within the bytes, and none is empty.
#[tactic(auto, using(crate::proofs::TokenLaws::spans_in_order))]
pub fn spans_are_in_order()
    ensures { SpansAreInOrder }
{}

/// A name that is a token is a name, a number is not too great, and a text may stand in a string.
#[tactic(auto, using(crate::proofs::TokenLaws::well_formed))]
pub fn tokens_are_well_formed()
    ensures { TokensAreWellFormed }
{}

/// Worked texts have the tokens that one expects.
#[tactic(auto, using(crate::proofs::WorkedTexts::worked_tokens))]
pub fn worked_tokens()
    ensures { WorkedTokens }
{}

/// Worked texts are refused where one expects it.
#[tactic(auto, using(crate::proofs::WorkedTexts::worked_stops))]
pub fn worked_stops()
    ensures { WorkedStops }
{}
