// By what each call is refused, exactly: theorems only, in specs/.
#![tactic(auto)]
