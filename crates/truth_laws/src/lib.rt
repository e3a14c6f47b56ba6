// The tables that crate truth works out are those of the rule's formula. All of it is in specs/.
#![tactic(auto)]
