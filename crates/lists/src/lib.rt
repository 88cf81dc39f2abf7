// Lists and numbers: what a lent slice holds after a write, and general facts. There is no function here.
#![tactic(auto)]
