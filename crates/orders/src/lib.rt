// The order of calls does not show (document 00, demand 3), as theorems: docs/ORDERS.md. There is no code here.
#![tactic(auto)]
