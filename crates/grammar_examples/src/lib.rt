// The worked examples of the grammar and of its places, computed: theorems only, in specs/.
#![tactic(auto)]
