// No code: specs/ has document 01's proved cases, and laws of converted trains and of trains in every order.
#![tactic(auto)]
