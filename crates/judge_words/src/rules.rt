//! The words of rules.

ghost use Rattle.std.specs.Prelude.{◌≡◌};
ghost use Rattle.judge_words.specs.Words.{rule_word};

use judge_rules::Rule;

/// The word of a rule.
pub fn word_of(rule: Rule) -> &'static str
    ensures { result.now ≡ rule_word rule }
{
    match rule {
        Rule::Form => "form",
        Rule::Keys => "keys",
        Rule::Token => "token",
        Rule::JoinHmac => "join-hmac",
        Rule::AddressHmac => "address-hmac",
        Rule::FastCloseKey => "fast-close-key",
        Rule::Mapping => "mapping",
        Rule::Within => "within",
        Rule::PlaceContent => "place-content",
        Rule::DssSum => "dss-sum",
        Rule::DataAck => "data-ack",
        Rule::DataFin => "data-fin",
        Rule::Infinite => "infinite",
        Rule::Fail => "fail",
    }
}
