// The cases that document 01 marks P, worked examples of the handbook, a product that lands, and an interrupt and a trap, as theorems about the definitions: see specs/.
#![tactic(auto)]
