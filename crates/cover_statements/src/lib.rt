// What covers, weights, coverages, planes and marks are. specs/ has the definitions, proofs/ the laws. No code.
#![tactic(auto)]
