// A rule's text: the checks in their order (01, Refusal numbers), and then the reader.
#![tactic(auto)]

ghost use Rattle.std.specs.Prelude.{◌≡◌, ◌+◌, ◌<◌, length, get_or, drop};
ghost use Rattle.rule_text.specs.Reading.{no_rule, unknown, unknown_at, limited, named, text_read};

use answers::{Kind, Refusal};
use syntax::Rule;

// What reading a text answers. The rule beside a refusal is the value with no node.
#[derive(Clone, Copy)]
pub struct RuleRead {
    pub outcome: Result<(), Refusal>,
    pub rule: Rule,
}

impl RuleRead {
    // With a refusal there is no rule, and no choice which.
    pub fn refused(kind: Kind, place: usize) -> Self
        ensures { result ≡ no_rule kind place }
    {
        RuleRead {
            outcome: Err(Refusal::at(kind, place)),
            rule: Rule::empty(),
        }
    }
}

// Whether a `p` stands at `at` whose number is not below `props`.
#[tactic(auto, using(crate::specs::Checks::unknown_end, crate::specs::Checks::unknown_other, crate::specs::Checks::unknown_name))]
fn is_unknown(text: &[u8], at: usize, props: usize) -> bool
    requires { at < length text.now }
    ensures { result ≡ unknown props (get_or text.now at 0) (drop (at + 1) text.now) }
{
    let next = at + 1;
    next < text.len()
        && text[at] == b'p'
        && props <= usize::from(syntax::name_at(text, next).number)
}

// The first such place.
#[tactic(auto, using(crate::specs::Checks::unknown_turn, crate::specs::Checks::unknown_none))]
fn unknown_at(text: &[u8], props: usize) -> Option<usize>
    ensures { result ≡ unknown_at props 0 text.now }
{
    for at in 0..text.len() {
        if is_unknown(text, at, props) {
            return Some(at);
        }
    }
    None
}

// 7 and 8.
fn within_limits(rule: Rule) -> RuleRead
    ensures { result ≡ limited rule }
{
    if Rule::MAX < rule.len {
        return RuleRead::refused(Kind::Nodes, 0);
    }
    if Rule::PARTS < syntax::parts_of(rule) {
        return RuleRead::refused(Kind::Parts, 0);
    }
    RuleRead {
        outcome: Ok(()),
        rule,
    }
}

// A text of the grammar: 6, and then the limits.
fn read_good(text: &[u8], props: usize) -> RuleRead
    ensures { result ≡ named text.now props }
{
    match unknown_at(text, props) {
        Some(place) => RuleRead::refused(Kind::Proposition, place),
        None => within_limits(reader::parse_rule(text)),
    }
}

// Any text: 4, then 5.
pub fn read_text(text: &[u8], props: usize) -> RuleRead
    ensures { result ≡ text_read text.now props }
{
    if Rule::TEXT < text.len() {
        return RuleRead::refused(Kind::RuleLength, Rule::TEXT);
    }
    match scanner::scan_text(text) {
        Err(place) => RuleRead::refused(Kind::RuleText, place),
        Ok(()) => read_good(text, props),
    }
}
