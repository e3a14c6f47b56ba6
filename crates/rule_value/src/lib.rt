// Whether a value is a rule's: check 9.
#![tactic(auto)]

mod nodes;

ghost use Rattle.std.specs.Prelude.{◌≡◌};
ghost use Rattle.rule_value.specs.Valid.{valid_of};

use syntax::Rule;

// Whether the value is a rule's within the limits, with propositions below `props`. For 1 to 16 of them: whether some text gives it, which is check 9.
pub fn is_valid(rule: Rule, props: usize) -> bool
    ensures { result ≡ valid_of rule props }
{
    rule.len <= Rule::MAX
        && nodes::is_whole(rule)
        && nodes::all_known(rule, props)
        && syntax::parts_of(rule) <= Rule::PARTS
        && nodes::rest_blank(rule)
}
