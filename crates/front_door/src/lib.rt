// The front door, from the bytes of three files to the lamps: theorems only, in specs/.
#![tactic(auto)]
